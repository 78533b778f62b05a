// What a user is shown (LSP 3.17, ShowMessageRequestParams), and the state of the server.
ghost use Rattle.std.specs.Prelude.{◌≡◌, IfOk};
ghost use Rattle.serde_json.specs.Data.{object};
ghost use Rattle.notify.specs.Showing.{asking_members, message_members, status_params, type_of};

use crate::objects::{alone, one, optional_text, text};
use crate::outgo::MessageKind;
use lsp_types::put_some;
use plain::{Json, JsonObject, NoMemory, Text};
use std::alloc::Global;

fn type_of(kind: MessageKind) -> u32
    ensures { result ≡ type_of kind }
{
    match kind {
        MessageKind::Error => 1,
        MessageKind::Warning => 2,
        MessageKind::Info => 3,
    }
}

/// The members of a message.
fn message_members(alloc: Global, message: Text, kind: MessageKind) -> Result<JsonObject, NoMemory>
    ensures { IfOk result (λ members. members ≡ message_members message kind) }
{
    let mut members = JsonObject::new(alloc);
    members.put(alloc, "message", Json::from_text(message))?;
    members.put(alloc, "type", Json::from_u32(type_of(kind)))?;
    Ok(members)
}

/// The params of a message.
pub(crate) fn message_params(
    alloc: Global,
    message: Text,
    kind: MessageKind,
) -> Result<Json, NoMemory>
    ensures { IfOk result (λ json. json ≡ object (message_members message kind)) }
{
    Ok(message_members(alloc, message, kind)?.into_json())
}

/// The params of a message with the button that opens the logs.
pub(crate) fn asking_params(
    alloc: Global,
    message: Text,
    kind: MessageKind,
) -> Result<Json, NoMemory>
    ensures { IfOk result (λ json. json ≡ object (asking_members message kind)) }
{
    let button = one(alloc, "title", text(alloc, "Open server logs")?)?;
    let mut members = message_members(alloc, message, kind)?;
    members.put(alloc, "actions", alone(alloc, button)?)?;
    Ok(members.into_json())
}

/// The params that tell the state of the server.
pub(crate) fn status_params(
    alloc: Global,
    health: Text,
    message: Option<Text>,
    quiescent: bool,
) -> Result<Json, NoMemory>
    ensures { IfOk result (λ json. json ≡ status_params health message quiescent) }
{
    let mut members = JsonObject::new(alloc);
    members.put(alloc, "health", Json::from_text(health))?;
    put_some(&mut members, alloc, "message", optional_text(message))?;
    members.put(alloc, "quiescent", Json::from_bool(quiescent))?;
    Ok(members.into_json())
}
