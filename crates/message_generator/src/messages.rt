// The messages of a document.
ghost use Rattle.std.specs.Prelude.{◌≡◌, ◌∷◌, [], ◌<◌, codes, IfOk};
ghost use Rattle.serde_json.specs.Data.{string, array, item, no_items};
ghost use Rattle.message_generator.specs.Messages.{uri_of, range_at, column_at, named, versioned, opened_params, change_value, changed_params, hovered_params, hovered, notifies, exits};

use lsp_frame::{Message, Notification, Request, RequestId};
use lsp_types::ToJson;
use plain::{Json, JsonObject, NoMemory, Text};
use serde_json::Value;
use std::alloc::Global;
use text_core::{Position, Range};

fn text_json(alloc: Global, text: &str) -> Result<Json, NoMemory>
    ensures { IfOk result (λ json. json ≡ string text.now) }
{
    Ok(Json::from_text(Text::from_str(alloc, text)?))
}

fn uri_json(alloc: Global, place: u16) -> Result<Json, NoMemory>
    ensures { IfOk result (λ json. json ≡ string (uri_of place)) }
{
    let uri = format!(in alloc; "file:///w/g{place}.rs")?;
    Ok(Json::from_text(Text::from_string(uri)))
}

fn column_at(column: u32) -> Position
    ensures { result ≡ column_at column }
{
    Position {
        line: 0,
        character: column,
    }
}

fn named(alloc: Global, place: u16) -> Result<JsonObject, NoMemory>
    ensures { IfOk result (λ members. members ≡ named place) }
{
    let mut members = JsonObject::new(alloc);
    members.put(alloc, "uri", uri_json(alloc, place)?)?;
    Ok(members)
}

fn versioned(alloc: Global, place: u16, version: u32) -> Result<JsonObject, NoMemory>
    ensures { IfOk result (λ members. members ≡ versioned place version) }
{
    let mut members = named(alloc, place)?;
    members.put(alloc, "version", Json::from_u32(version))?;
    Ok(members)
}

fn opened_params(alloc: Global, place: u16, text: Text) -> Result<Json, NoMemory>
    ensures { IfOk result (λ json. json ≡ opened_params place text) }
{
    let mut document = versioned(alloc, place, 1)?;
    document.put(alloc, "languageId", text_json(alloc, "rust")?)?;
    document.put(alloc, "text", Json::from_text(text))?;
    let mut params = JsonObject::new(alloc);
    params.put(alloc, "textDocument", document.into_json())?;
    Ok(params.into_json())
}

fn change_json(alloc: Global, column: u32, letter: u8) -> Result<Json, NoMemory>
    requires { letter < 128 }
    ensures { IfOk result (λ json. json ≡ change_value column letter) }
{
    let at = column_at(column);
    let range = Range { start: at, end: at };
    let mut inserted = String::new(alloc);
    inserted.push(char::from(letter))?;
    let mut change = JsonObject::new(alloc);
    change.put(alloc, "range", range.to_json(alloc)?)?;
    change.put(alloc, "text", Json::from_text(Text::from_string(inserted)))?;
    Ok(change.into_json())
}

fn alone(alloc: Global, value: Json) -> Result<Json, NoMemory>
    ensures { IfOk result (λ json. json ≡ array (item value no_items)) }
{
    let mut items = Vec::new(alloc);
    items.push(value.into_value())?;
    Ok(Json::new(Value::Array(items)))
}

fn changed_params(
    alloc: Global,
    place: u16,
    version: u32,
    column: u32,
    letter: u8,
) -> Result<Json, NoMemory>
    requires { letter < 128 }
    ensures { IfOk result (λ json. json ≡ changed_params place version column letter) }
{
    let document = versioned(alloc, place, version)?;
    let change = change_json(alloc, column, letter)?;
    let mut params = JsonObject::new(alloc);
    params.put(alloc, "textDocument", document.into_json())?;
    params.put(alloc, "contentChanges", alone(alloc, change)?)?;
    Ok(params.into_json())
}

fn hovered_params(alloc: Global, place: u16) -> Result<Json, NoMemory>
    ensures { IfOk result (λ json. json ≡ hovered_params place) }
{
    let mut params = JsonObject::new(alloc);
    params.put(alloc, "textDocument", named(alloc, place)?.into_json())?;
    params.put(alloc, "position", column_at(3).to_json(alloc)?)?;
    Ok(params.into_json())
}

fn notifies(alloc: Global, method: &str, params: Json) -> Result<Message, NoMemory>
    ensures { IfOk result (λ message. message ≡ notifies method.now params) }
{
    let method = Text::from_str(alloc, method)?;
    Ok(Message::Notification(Notification { method, params }))
}

pub(crate) fn opened(alloc: Global, place: u16, text: Text) -> Result<Message, NoMemory>
    ensures { IfOk result (λ message. message ≡ notifies (codes "textDocument/didOpen") (opened_params place text)) }
{
    let params = opened_params(alloc, place, text)?;
    notifies(alloc, "textDocument/didOpen", params)
}

pub(crate) fn changed(
    alloc: Global,
    place: u16,
    version: u32,
    column: u32,
    letter: u8,
) -> Result<Message, NoMemory>
    requires { letter < 128 }
    ensures { IfOk result (λ message. message ≡ notifies (codes "textDocument/didChange") (changed_params place version column letter)) }
{
    let params = changed_params(alloc, place, version, column, letter)?;
    notifies(alloc, "textDocument/didChange", params)
}

pub(crate) fn hovered(alloc: Global, place: u16) -> Result<Message, NoMemory>
    ensures { IfOk result (λ message. message ≡ hovered place) }
{
    let params = hovered_params(alloc, place)?;
    let method = Text::from_str(alloc, "textDocument/hover")?;
    Ok(Message::Request(Request {
        id: RequestId::Number(i32::from(place)),
        method,
        params,
    }))
}

pub(crate) fn exits(alloc: Global) -> Result<Message, NoMemory>
    ensures { IfOk result (λ message. message ≡ exits) }
{
    notifies(alloc, "exit", Json::null())
}
