// Edits of a document (LSP 3.17, TextDocumentContentChangeEvent).
ghost use Rattle.std.specs.Prelude.{◌≡◌, IfOk};
ghost use Rattle.serde_json.specs.View.{items_view};
ghost use Rattle.lsp_types.specs.Edits.{edit_range, read_edit, read_edits};

use crate::reading::read_range;
use plain::{Items, Json, NoMemory};
use serde_json::Value;
use std::alloc::Global;
use text_core::{ContentChange, Range};

// The range of an edit, where it is one: a range that is absent or null is none.
fn edit_range(range: Option<Json>) -> Option<Option<Range>>
    ensures { result ≡ edit_range range }
{
    match range {
        Some(range) if !range.is_null() => Some(Some(read_range(range.as_value())?)),
        _ => Some(None),
    }
}

// One edit, or none where it is malformed.
fn read_edit(change: Json) -> Option<ContentChange>
    ensures { result ≡ read_edit change }
{
    let mut members = change.into_members()?;
    let range = edit_range(members.take_value("range"))?;
    let text = members.take_value("text")?.into_text()?;
    Some(ContentChange { range, text })
}

/// The edits that changes of a document are, or none where one of them is malformed.
pub fn read_edits(
    alloc: Global,
    changes: Vec<Value>,
) -> Result<Option<Items<ContentChange>>, NoMemory>
    ensures { IfOk result (λ edits. edits ≡ read_edits (items_view changes.items)) }
{
    let mut edits = Items::new(alloc);
    for change in changes {
        match read_edit(Json::new(change)) {
            Some(edit) => edits.push(edit)?,
            None => return Ok(None),
        }
    }
    Ok(Some(edits))
}
