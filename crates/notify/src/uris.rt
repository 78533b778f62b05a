// Lists of URLs (LSP 3.17, WorkspaceFoldersChangeEvent and DidChangeWatchedFilesParams).
ghost use Rattle.std.specs.Prelude.{◌≡◌, IfOk, option_and_then};
ghost use Rattle.serde_json.specs.View.{items_view};
ghost use Rattle.notify.specs.Uris.{uris_in, uris_of, folders_in, event_of, watched_in};

use crate::notice::Notice;
use lsp_types::take_uri;
use plain::{Items, Json, JsonObject, NoMemory, Text};
use serde_json::Value;
use std::alloc::Global;

// The URLs that the items have, or none where one of them has none.
fn uris_in(alloc: Global, items: Vec<Value>) -> Result<Option<Items<Text>>, NoMemory>
    ensures { IfOk result (λ uris. uris ≡ uris_in (items_view items.items)) }
{
    let mut uris = Items::new(alloc);
    for item in items {
        match take_uri(Json::new(item)) {
            Some(uri) => uris.push(uri)?,
            None => return Ok(None),
        }
    }
    Ok(Some(uris))
}

// The URLs that the items of a list have.
fn uris_of(alloc: Global, list: Option<Json>) -> Result<Option<Items<Text>>, NoMemory>
    ensures { IfOk result (λ uris. uris ≡ option_and_then uris_of list) }
{
    match list {
        Some(list) => match list.into_value() {
            Value::Array(items) => uris_in(alloc, items),
            _ => Ok(None),
        },
        None => Ok(None),
    }
}

fn event_of(params: Json) -> Option<JsonObject>
    ensures { result ≡ event_of params }
{
    params.into_members()?.take_value("event")?.into_members()
}

/// The folders that were added and removed, or none where the params are malformed.
pub(crate) fn folders_in(alloc: Global, params: Json) -> Result<Option<Notice>, NoMemory>
    ensures { IfOk result (λ notice. notice ≡ folders_in params) }
{
    let Some(mut event) = event_of(params) else {
        return Ok(None);
    };
    let Some(added) = uris_of(alloc, event.take_value("added"))? else {
        return Ok(None);
    };
    let Some(removed) = uris_of(alloc, event.take_value("removed"))? else {
        return Ok(None);
    };
    Ok(Some(Notice::DidChangeWorkspaceFolders { added, removed }))
}

/// The files that changed, or none where the params are malformed.
pub(crate) fn watched_in(alloc: Global, params: Json) -> Result<Option<Items<Text>>, NoMemory>
    ensures { IfOk result (λ uris. uris ≡ watched_in params) }
{
    match params.into_members() {
        Some(mut members) => uris_of(alloc, members.take_value("changes")),
        None => Ok(None),
    }
}
