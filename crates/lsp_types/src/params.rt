// What is read of a request's params (LSP 3.17, TextDocumentPositionParams and the like).
ghost use Rattle.std.specs.Prelude.{◌≡◌, IfOk, is_some, option_copied};
ghost use Rattle.std.specs.Option.{option_map};
ghost use Rattle.serde_json.specs.View.{items_view};
ghost use Rattle.lsp_types.specs.Params.{list_of, uri_of, position_of, positions_in, positions_of, range_of};

use crate::reading::{read_position, read_range};
use plain::{Items, Json, NoMemory};
use serde_json::Value;
use std::alloc::Global;
use text_core::{Position, Range};

/// The URL of the document: the text `uri` in `textDocument`.
pub fn uri_of(params: &Json) -> Option<&str>
    ensures { option_copied result ≡ uri_of params.now }
{
    params.as_value().get("textDocument")?.get("uri")?.as_str()
}

/// The position in `position`.
pub fn position_of(params: &Json) -> Option<Position>
    ensures { result ≡ position_of params.now }
{
    read_position(params.as_value().get("position")?)
}

/// The range in `range`.
pub fn range_of(params: &Json) -> Option<Range>
    ensures { result ≡ range_of params.now }
{
    read_range(params.as_value().get("range")?)
}

/// The list that is to hold positions.
fn list_of(params: &Json) -> Option<&Vec<Value>>
    ensures { option_map (λ list. items_view list.now.items) result ≡ list_of params.now }
{
    params.as_value().get("positions")?.as_array()
}

/// Whether each item is a position.
fn are_positions(list: &[Value]) -> bool
    ensures { result ≡ is_some (positions_in (items_view list.now)) }
{
    for item in list {
        if read_position(item).is_none() {
            return false;
        }
    }
    true
}

/// Whether `positions` is a list of positions.
pub fn has_positions(params: &Json) -> bool
    ensures { result ≡ is_some (positions_of params.now) }
{
    match list_of(params) {
        Some(list) => are_positions(list),
        None => false,
    }
}

/// The positions that the items are, where each is one.
fn positions_in(alloc: Global, list: &[Value]) -> Result<Option<Items<Position>>, NoMemory>
    ensures { IfOk result (λ positions. positions ≡ positions_in (items_view list.now)) }
{
    let mut positions = Items::new(alloc);
    for item in list {
        let Some(position) = read_position(item) else {
            return Ok(None);
        };
        positions.push(position)?;
    }
    Ok(Some(positions))
}

/// The positions in the list `positions`, where each of its items is one.
pub fn positions_of(alloc: Global, params: &Json) -> Result<Option<Items<Position>>, NoMemory>
    ensures { IfOk result (λ positions. positions ≡ positions_of params.now) }
{
    match list_of(params) {
        Some(list) => positions_in(alloc, list),
        None => Ok(None),
    }
}
