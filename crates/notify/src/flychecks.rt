// The file that is to be checked.
ghost use Rattle.std.specs.Prelude.{◌≡◌};
ghost use Rattle.notify.specs.Flychecks.{checked, checked_in};

use lsp_types::take_uri;
use plain::{Json, Text};

// The URL of a document; a document that is absent or null is none.
fn checked(document: Option<Json>) -> Option<Option<Text>>
    ensures { result ≡ checked document }
{
    match document {
        Some(document) if !document.is_null() => Some(Some(take_uri(document)?)),
        _ => Some(None),
    }
}

/// The file that is to be checked, if it is one, or none where the params are malformed.
pub(crate) fn checked_in(params: Json) -> Option<Option<Text>>
    ensures { result ≡ checked_in params }
{
    checked(params.into_members()?.take_value("textDocument"))
}
