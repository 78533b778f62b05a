// The message that a body is.
ghost use Rattle.std.specs.Prelude.{◌≡◌, IfOk, Some, None, option_map};
ghost use Rattle.std.specs.Result.{result_ok};
ghost use Rattle.lsp_frame.specs.Rules.{message_of, members_message, id_of, optional_id, error_object, optional_error, error_of, params_of, call_of, response_of};

use crate::message::{Message, Notification, Request, RequestId, Response, ResponseError};
use plain::{Json, JsonObject, Text};
use std::alloc::{AllocError, Global};

/// A body that is no message.
#[derive(Clone, Copy)]
struct NoMessage;

/// The message that a body is, or none.
#[tactic(auto, unfolding(crate::specs::Rules::message_of))]
pub fn read_body(alloc: Global, bytes: &[u8]) -> Result<Option<Message>, AllocError>
    ensures { IfOk result (λ message. message ≡ message_of bytes.now) }
{
    match Json::read(alloc, bytes)? {
        Some(json) => match json.into_members() {
            Some(members) => Ok(message_from(members)),
            None => Ok(None),
        },
        None => Ok(None),
    }
}

/// The message that an object is, or none. It takes no memory.
pub fn message_from(mut members: JsonObject) -> Option<Message>
    ensures { result ≡ members_message members }
{
    let method = members.take_value("method");
    let id = members.take_value("id");
    match (method, id) {
        (Some(method), id) => call_from(method.into_text()?, id, members),
        (None, Some(id)) => response_from(id, members),
        (None, None) => None,
    }
}

fn call_from(method: Text, id: Option<Json>, members: JsonObject) -> Option<Message>
    ensures { result ≡ call_of method id members }
{
    let params = params_from(members);
    match id {
        Some(id) if !id.is_null() => {
            let id = RequestId::from_json(id)?;
            Some(Message::Request(Request { id, method, params }))
        }
        _ => Some(Message::Notification(Notification { method, params })),
    }
}

fn params_from(mut members: JsonObject) -> Json
    ensures { result ≡ params_of members }
{
    match members.take_value("params") {
        Some(params) => params,
        None => Json::null(),
    }
}

fn response_from(id: Json, mut members: JsonObject) -> Option<Message>
    ensures { result ≡ response_of id members }
{
    let id = optional_id_from(id).ok()?;
    let result = members.take_value("result");
    let error = error_from(members.take_value("error")).ok()?;
    Some(Message::Response(Response { id, result, error }))
}

impl RequestId {
    /// The id that a value is: a whole number of 32 bits, or a text. It takes no memory.
    pub fn from_json(json: Json) -> Option<RequestId>
        ensures { result ≡ id_of json }
    {
        match json.as_i32() {
            Some(number) => Some(RequestId::Number(number)),
            None => Some(RequestId::Text(json.into_text()?)),
        }
    }
}

fn optional_id_from(json: Json) -> Result<Option<RequestId>, NoMessage>
    ensures { result_ok result ≡ optional_id json }
{
    if json.is_null() {
        return Ok(None);
    }
    match RequestId::from_json(json) {
        Some(id) => Ok(Some(id)),
        None => Err(NoMessage),
    }
}

fn error_from(json: Option<Json>) -> Result<Option<ResponseError>, NoMessage>
    ensures { result_ok result ≡ error_of json }
{
    match json {
        Some(json) if !json.is_null() => match json.into_members().and_then(error_object_from) {
            Some(error) => Ok(Some(error)),
            None => Err(NoMessage),
        },
        _ => Ok(None),
    }
}

fn error_object_from(mut members: JsonObject) -> Option<ResponseError>
    ensures { result ≡ error_object members }
{
    let code = members.take_value("code")?.as_i32()?;
    let message = members.take_value("message")?.into_text()?;
    let extra = members.take_value("data");
    Some(ResponseError {
        code,
        message,
        extra,
    })
}
