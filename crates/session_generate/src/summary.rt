// The summary of a session.
ghost use Rattle.std.specs.Prelude.{◌≡◌, ◌++◌, IfOk};
ghost use Rattle.hex.specs.Hex.{encode_lower};
ghost use Rattle.session_generate.specs.Summary.{counts_text, hashes_text};

use plain::{NoMemory, Text};
use std::alloc::Global;

/// How often each document is edited.
const EDITS: u32 = 10;

/// Each document is edited so often, asked about once, and answered once.
fn counts_text(alloc: Global, count: u16) -> Result<Text, NoMemory>
    ensures { IfOk result (λ text. text ≡ counts_text count count) }
{
    let edits = EDITS * u32::from(count);
    let text = format!(in alloc;
        "documents {count}\nedits {edits}\nrequests {count}\nresponses {count}\n"
    )?;
    Ok(Text::from_string(text))
}

fn hashes_text(alloc: Global, texts: &str, output: &str) -> Result<Text, NoMemory>
    ensures { IfOk result (λ text. text ≡ hashes_text texts.now output.now) }
{
    let text = format!(in alloc; "sha1 {texts}\noutput {output}\n")?;
    Ok(Text::from_string(text))
}

fn digits(alloc: Global, hash: &[u8; 20]) -> Result<Text, NoMemory>
    ensures { IfOk result (λ text. text ≡ encode_lower hash.now) }
{
    Ok(Text::from_string(hex::encode(alloc, hash.as_slice())?))
}

/// The summary of a session over so many documents, by the hashes of their texts and of what was written.
pub(crate) fn summary_text(
    alloc: Global,
    count: u16,
    texts: &[u8; 20],
    output: &[u8; 20],
) -> Result<Text, NoMemory>
    ensures { IfOk result (λ summary. summary ≡ counts_text count count ++ hashes_text (encode_lower texts.now) (encode_lower output.now)) }
{
    let texts = digits(alloc, texts)?;
    let output = digits(alloc, output)?;
    let hashes = hashes_text(alloc, texts.as_str(), output.as_str())?;
    let mut summary = counts_text(alloc, count)?;
    summary.push_str(hashes.as_str())?;
    Ok(summary)
}
