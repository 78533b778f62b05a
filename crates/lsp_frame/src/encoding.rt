// The body that is written for a message: its own members as bytes, around the texts of its values.
ghost use Rattle.std.specs.Prelude.{◌≡◌, ◌++◌, Some, option_map, IfOk, IfSome, OnOk};
ghost use Rattle.serde_json.specs.Data.{number, string};
ghost use Rattle.serde_json.specs.Find.{of_integer};
ghost use Rattle.serde_json.specs.Written.{compact_text};
ghost use Rattle.plain.specs.Reading.{as_i32};
ghost use Rattle.lsp_frame.specs.Exact.{IsExact, some_text, call_text, error_text};
ghost use Rattle.lsp_frame.specs.Rules.{message_of, data_message, id_of, optional_id, optional_error, error_of};
ghost use Rattle.lsp_frame.specs.Written.{data_of, body_of, error_data, id_data, optional_id_data, params_data, AreWritable, IsWritable, IsWritableIfSome, IsErrorWritable};

use crate::body::Body;
use crate::message::{Message, Notification, Request, RequestId, Response, ResponseError};
use itoa::Buffer;
use plain::{Json, Text};
use std::alloc::{AllocError, Global};

/// A message's body, which reads as the message. No value of it is copied.
#[tactic(auto, unfolding(crate::specs::Written::body_of))]
pub fn encode(alloc: Global, message: Message) -> Result<Body, AllocError>
    requires { AreWritable message }
    ensures value { IfOk result (λ body. body ≡ body_of message) }
    ensures reads_back { OnOk result (message_of (body_of message) ≡ Some message) }
{
    let mut body = Body::new(alloc)?;
    write_body(message, &mut body)?;
    Ok(body)
}

fn write_body(message: Message, into: &mut Body) -> Result<(), AllocError>
    requires { AreWritable message }
    ensures text { OnOk result (into.new ≡ into.old ++ compact_text (data_of message)) }
    ensures exact { OnOk result (IsExact (data_of message)) }
    ensures reads_back { OnOk result (data_message (data_of message) ≡ Some message) }
{
    match message {
        Message::Request(request) => write_request(request, into),
        Message::Notification(notification) => write_notification(notification, into),
        Message::Response(response) => write_response(response, into),
    }
}

fn write_request(request: Request, into: &mut Body) -> Result<(), AllocError>
    requires { IsWritable request.params }
    ensures text { OnOk result (into.new ≡ into.old ++ compact_text (data_of (Message.Request request))) }
    ensures exact { OnOk result (IsExact (data_of (Message.Request request))) }
    ensures reads_back { OnOk result (data_message (data_of (Message.Request request))
        ≡ Some (Message.Request request)) }
{
    let Request { id, method, params } = request;
    write_id(b"{\"id\":", id, into)?;
    into.extend_from_slice(b",")?;
    write_call(method, params, into)?;
    Ok(())
}

fn write_notification(notification: Notification, into: &mut Body) -> Result<(), AllocError>
    requires { IsWritable notification.params }
    ensures text { OnOk result (into.new ≡ into.old ++ compact_text (data_of (Message.Notification notification))) }
    ensures exact { OnOk result (IsExact (data_of (Message.Notification notification))) }
    ensures reads_back { OnOk result (data_message (data_of (Message.Notification notification))
        ≡ Some (Message.Notification notification)) }
{
    let Notification { method, params } = notification;
    into.extend_from_slice(b"{")?;
    write_call(method, params, into)?;
    Ok(())
}

/// Appends the members of a call behind its id, and the end.
fn write_call(method: Text, params: Json, into: &mut Body) -> Result<(), AllocError>
    requires { IsWritable params }
    ensures text { OnOk result (into.new ≡ into.old ++ call_text method (params_data params)) }
    ensures method { OnOk result (IsExact (string method)) }
    ensures params { OnOk result (IfSome (params_data params) IsExact) }
{
    write_value(
        b"\"jsonrpc\":\"2.0\",\"method\":",
        Json::from_text(method),
        into,
    )?;
    write_some(b",\"params\":", params_json(params), into)?;
    into.extend_from_slice(b"}")?;
    Ok(())
}

fn write_response(response: Response, into: &mut Body) -> Result<(), AllocError>
    requires result { IsWritableIfSome response.result }
    requires error { IsErrorWritable response.error }
    ensures text { OnOk result (into.new ≡ into.old ++ compact_text (data_of (Message.Response response))) }
    ensures exact { OnOk result (IsExact (data_of (Message.Response response))) }
    ensures reads_back { OnOk result (data_message (data_of (Message.Response response))
        ≡ Some (Message.Response response)) }
{
    let Response { id, result, error } = response;
    into.extend_from_slice(b"{")?;
    write_first_error(error, into)?;
    write_optional_id(b"\"id\":", id, into)?;
    into.extend_from_slice(b",\"jsonrpc\":\"2.0\"")?;
    write_some(b",\"result\":", result, into)?;
    into.extend_from_slice(b"}")?;
    Ok(())
}

/// Appends an error before the other members of a response, if there is one.
fn write_first_error(error: Option<ResponseError>, into: &mut Body) -> Result<(), AllocError>
    requires { IsErrorWritable error }
    ensures text { OnOk result (into.new ≡ into.old ++ error_text (option_map error_data error)) }
    ensures exact { OnOk result (IfSome (option_map error_data error) IsExact) }
    ensures reads_back { OnOk result (error_of (option_map error_data error) ≡ Some error) }
{
    let Some(error) = error else {
        return Ok(());
    };
    into.extend_from_slice(b"\"error\":")?;
    write_error(error, into)?;
    into.extend_from_slice(b",")?;
    Ok(())
}

fn write_error(error: ResponseError, into: &mut Body) -> Result<(), AllocError>
    requires { IsWritableIfSome error.extra }
    ensures text { OnOk result (into.new ≡ into.old ++ compact_text (error_data error)) }
    ensures exact { OnOk result (IsExact (error_data error)) }
    ensures reads_back { OnOk result (optional_error (error_data error)
        ≡ Some (Some error)) }
{
    let ResponseError {
        code,
        message,
        extra,
    } = error;
    write_value(b"{\"code\":", Json::from_i32(code), into)?;
    write_some(b",\"data\":", extra, into)?;
    write_value(b",\"message\":", Json::from_text(message), into)?;
    into.extend_from_slice(b"}")?;
    Ok(())
}

/// Appends some bytes and a value's text.
fn write_value(before: &[u8], value: Json, into: &mut Body) -> Result<(), AllocError>
    requires { IsWritable value }
    ensures text { OnOk result (into.new ≡ into.old ++ (before.now ++ compact_text value)) }
    ensures exact { OnOk result (IsExact value) }
{
    let text = value.as_value().to_vec(into.alloc())?;
    into.extend_from_slice(before)?;
    into.push(text)?;
    Ok(())
}

/// The same where there is a value.
fn write_some(before: &[u8], value: Option<Json>, into: &mut Body) -> Result<(), AllocError>
    requires { IsWritableIfSome value }
    ensures text { OnOk result (into.new ≡ into.old ++ some_text before.now value) }
    ensures exact { OnOk result (IfSome value IsExact) }
{
    match value {
        Some(value) => write_value(before, value, into),
        None => Ok(()),
    }
}

/// Appends some bytes and an id.
#[tactic(auto, using(crate::proofs::Bodies::id_IsWritable))]
fn write_id(before: &[u8], id: RequestId, into: &mut Body) -> Result<(), AllocError>
    ensures text { OnOk result (into.new ≡ into.old ++ (before.now ++ compact_text (id_data id))) }
    ensures exact { OnOk result (IsExact (id_data id)) }
    ensures reads_back { id_of (id_data id) ≡ Some id }
{
    match id {
        RequestId::Number(number) => write_integer(before, number, into),
        RequestId::Text(text) => write_value(before, Json::from_text(text), into),
    }
}

/// The same where there is an id, else with null.
#[tactic(auto, using(crate::proofs::Bodies::optional_id_IsWritable))]
fn write_optional_id(
    before: &[u8],
    id: Option<RequestId>,
    into: &mut Body,
) -> Result<(), AllocError>
    ensures text { OnOk result (into.new ≡ into.old ++ (before.now ++ compact_text (optional_id_data id))) }
    ensures exact { OnOk result (IsExact (optional_id_data id)) }
    ensures reads_back { optional_id (optional_id_data id) ≡ Some id }
{
    match id {
        Some(id) => write_id(before, id, into),
        None => write_value(before, Json::null(), into),
    }
}

/// Appends some bytes and an integer, as it is.
fn write_integer(before: &[u8], integer: i32, into: &mut Body) -> Result<(), AllocError>
    ensures text { OnOk result (into.new ≡ into.old ++ (before.now ++ compact_text (number (of_integer integer)))) }
    ensures exact { OnOk result (IsExact (number (of_integer integer))) }
    ensures fits { as_i32 (number (of_integer integer)) ≡ Some integer }
{
    let mut digits = Buffer::new();
    into.extend_from_slice(before)?;
    into.extend_from_slice(digits.format(integer).as_bytes())?;
    Ok(())
}

/// Null params are left out.
fn params_json(params: Json) -> Option<Json>
    ensures value { result ≡ params_data params }
    ensures writable { IsWritable params → IsWritableIfSome result }
{
    if params.is_null() { None } else { Some(params) }
}
