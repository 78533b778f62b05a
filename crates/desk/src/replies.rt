// The responses that a session gives.
ghost use Rattle.std.specs.Prelude.{◌≡◌, true, IfOk, IfSome};
ghost use Rattle.lsp_frame.specs.Written.{AreWritable};
ghost use Rattle.lsp_frame.specs.declared.message.Message.TheVariants.{Response as ResponseMessage};
ghost use Rattle.session_port.specs.Jobs.{plain_result};
ghost use Rattle.desk.specs.Replies.{already_pending, shut_already, unknown_request, invalid_params, canceled_by_client, content_modified, retrigger_request, server_cancelled, outdated_reply, fault_reply, finished_reply};

use dispatch::{fault_code, refusal, response_with};
use lsp_frame::{RequestId, Response, ResponseError};
use method_table::Class;
use plain::{Json, JsonObject, Text};
use session_port::{JobResult, JobValue};
use std::alloc::{AllocError, Global};

/// The refusal of a request whose id is pending.
pub fn already_pending(alloc: Global, id: RequestId) -> Result<Response, AllocError>
    ensures value { IfOk result (λ response. response ≡ already_pending id) }
    ensures writable { IfOk result (λ response. AreWritable (ResponseMessage response)) }
{
    let message = Text::from_str(alloc, "Request id is already pending.")?;
    Ok(refusal(id, -32600, message))
}

/// The refusal of a request after a shutdown.
pub fn shut_already(alloc: Global, id: RequestId) -> Result<Response, AllocError>
    ensures value { IfOk result (λ response. response ≡ shut_already id) }
    ensures writable { IfOk result (λ response. AreWritable (ResponseMessage response)) }
{
    let message = Text::from_str(alloc, "Shutdown already requested.")?;
    Ok(refusal(id, -32600, message))
}

/// The refusal of a request of a method that is not in the table.
pub fn unknown_request(alloc: Global, id: RequestId) -> Result<Response, AllocError>
    ensures value { IfOk result (λ response. response ≡ unknown_request id) }
    ensures writable { IfOk result (λ response. AreWritable (ResponseMessage response)) }
{
    let message = Text::from_str(alloc, "unknown request")?;
    Ok(refusal(id, -32601, message))
}

/// The refusal of a request whose params can't be read.
pub fn invalid_params(alloc: Global, id: RequestId) -> Result<Response, AllocError>
    ensures value { IfOk result (λ response. response ≡ invalid_params id) }
    ensures writable { IfOk result (λ response. AreWritable (ResponseMessage response)) }
{
    let message = Text::from_str(alloc, "invalid params")?;
    Ok(refusal(id, -32602, message))
}

/// The answer to a request that the client cancelled.
pub fn canceled_by_client(alloc: Global, id: RequestId) -> Result<Response, AllocError>
    ensures value { IfOk result (λ response. response ≡ canceled_by_client id) }
    ensures writable { IfOk result (λ response. AreWritable (ResponseMessage response)) }
{
    let message = Text::from_str(alloc, "canceled by client")?;
    Ok(refusal(id, -32800, message))
}

// The answer to a request whose documents changed while it was worked on.
fn content_modified(alloc: Global, id: RequestId) -> Result<Response, AllocError>
    ensures value { IfOk result (λ response. response ≡ content_modified id) }
    ensures writable { IfOk result (λ response. AreWritable (ResponseMessage response)) }
{
    let message = Text::from_str(alloc, "content modified")?;
    Ok(refusal(id, -32801, message))
}

// That the client is to ask again.
fn retrigger_request(alloc: Global) -> Result<Json, AllocError>
    ensures { IfOk result (λ json. json ≡ retrigger_request) }
{
    let mut members = JsonObject::new(alloc);
    members.put(alloc, "retriggerRequest", Json::from_bool(true))?;
    Ok(members.into_json())
}

// The same of a request that the client is to ask again.
fn server_cancelled(alloc: Global, id: RequestId) -> Result<Response, AllocError>
    ensures value { IfOk result (λ response. response ≡ server_cancelled id) }
    ensures writable { IfOk result (λ response. AreWritable (ResponseMessage response)) }
{
    let message = Text::from_str(alloc, "server cancelled the request")?;
    let extra = retrigger_request(alloc)?;
    Ok(Response {
        id: Some(id),
        result: None,
        error: Some(ResponseError {
            code: -32802,
            message,
            extra: Some(extra),
        }),
    })
}

/// The answer to a request whose job stopped for a later revision, and that isn't tried again.
pub fn outdated_reply(alloc: Global, class: Class, id: RequestId) -> Result<Response, AllocError>
    ensures value { IfOk result (λ response. response ≡ outdated_reply class id) }
    ensures writable { IfOk result (λ response. AreWritable (ResponseMessage response)) }
{
    match class {
        Class::DocumentDiagnostic => server_cancelled(alloc, id),
        _ => content_modified(alloc, id),
    }
}

/// What the request of a fault is answered.
pub fn fault_reply(id: RequestId, code: Option<i32>, message: Text) -> Response
    ensures value { result ≡ fault_reply id code message }
    ensures writable { AreWritable (ResponseMessage result) }
{
    refusal(id, fault_code(code), message)
}

/// What the request of a finished job is answered. A job that stopped has not finished.
pub fn finished_reply(
    alloc: Global,
    id: RequestId,
    outcome: JobResult,
) -> Result<Option<Response>, AllocError>
    requires { plain_result outcome ≡ true }
    ensures value { IfOk result (λ response. response ≡ finished_reply id outcome) }
    ensures writable { IfOk result (λ response. IfSome response (λ r. AreWritable (ResponseMessage r))) }
{
    match outcome {
        JobResult::Value(JobValue::Json(value)) => Ok(Some(response_with(id, value))),
        JobResult::Value(_) => unreachable!(),
        JobResult::Fault { code, message } => Ok(Some(fault_reply(id, code, message))),
        JobResult::Cancelled { .. } => Ok(None),
        JobResult::NoMemory => {
            let message = Text::from_str(alloc, "out of memory")?;
            Ok(Some(refusal(id, -31000, message)))
        }
    }
}
