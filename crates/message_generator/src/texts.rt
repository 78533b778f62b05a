// The texts of all documents in the end.
ghost use Rattle.std.specs.Prelude.{◌≡◌, IfOk};
ghost use Rattle.sha1.specs.Sha1.{sha1};
ghost use Rattle.message_generator.specs.Drafts.{final_texts};

use crate::draft::last_draft;
use plain::NoMemory;
use sha1::Sha1;
use std::alloc::Global;

/// The hash of the texts that so many documents have in the end, one behind another.
pub fn texts_hash(alloc: Global, count: u16) -> Result<[u8; 20], NoMemory>
    ensures { IfOk result (λ hash. hash ≡ sha1 (final_texts count)) }
{
    let mut hasher = Sha1::new();
    let mut state = u64::from(count);
    for place in 0..count {
        let last = last_draft(alloc, place, state)?;
        hasher.update(last.line.as_str().as_bytes());
        hasher.update(b"\n");
        state = last.state;
    }
    Ok(hasher.finalize())
}
