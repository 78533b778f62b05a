// The changes of a document.
ghost use Rattle.std.specs.Prelude.{◌≡◌, IfOk};
ghost use Rattle.notify.specs.Changing.{changed_in, members_change};

use crate::notice::DidChange;
use lsp_types::read_edits;
use plain::{Json, JsonObject, NoMemory};
use serde_json::Value;
use std::alloc::Global;

fn change_in(alloc: Global, mut params: JsonObject) -> Result<Option<DidChange>, NoMemory>
    ensures { IfOk result (λ change. change ≡ members_change params) }
{
    let (Some(document), Some(changes)) = (
        params.take_value("textDocument"),
        params.take_value("contentChanges"),
    ) else {
        return Ok(None);
    };
    let Some(mut document) = document.into_members() else {
        return Ok(None);
    };
    let (Some(uri), Some(version)) = (document.take_value("uri"), document.take_value("version"))
    else {
        return Ok(None);
    };
    let (Some(uri), Some(version)) = (uri.into_text(), version.as_i32()) else {
        return Ok(None);
    };
    let Value::Array(changes) = changes.into_value() else {
        return Ok(None);
    };
    match read_edits(alloc, changes)? {
        Some(changes) => Ok(Some(DidChange {
            uri,
            version,
            changes,
        })),
        None => Ok(None),
    }
}

/// The changes of a document that the params tell, or none where they are malformed.
pub(crate) fn changed_in(alloc: Global, params: Json) -> Result<Option<DidChange>, NoMemory>
    ensures { IfOk result (λ change. change ≡ changed_in params) }
{
    match params.into_members() {
        Some(members) => change_in(alloc, members),
        None => Ok(None),
    }
}
