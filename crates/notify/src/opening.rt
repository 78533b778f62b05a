// Documents that are opened.
ghost use Rattle.std.specs.Prelude.{◌≡◌};
ghost use Rattle.notify.specs.Opening.{opened_in, text_within};

use crate::notice::DidOpen;
use lsp_types::document_members;
use plain::{Json, Text};

/// The most bytes that a text of a world has.
const TEXT_LIMIT: usize = 4_294_967_295;

fn text_within(text: Text) -> Option<Text>
    ensures { result ≡ text_within text }
{
    if text.len() <= TEXT_LIMIT {
        Some(text)
    } else {
        None
    }
}

/// The document that the params open, or none where they are malformed.
pub(crate) fn opened_in(params: Json) -> Option<DidOpen>
    ensures { result ≡ opened_in params }
{
    let mut members = document_members(params)?;
    let uri = members.take_value("uri")?.into_text()?;
    let version = members.take_value("version")?.as_i32()?;
    let text = text_within(members.take_value("text")?.into_text()?)?;
    Some(DidOpen { uri, version, text })
}
