ghost use Rattle.std.specs.Prelude.{◌≡◌, true, IfOk, IsOk};
ghost use Rattle.analysis_host.specs.Answers.{IsPlainOutcome};
ghost use Rattle.lsp_frame.specs.Written.{AreWritable};
ghost use Rattle.lsp_frame.specs.declared.message.Message.TheVariants.{Response as ResponseMessage};
ghost use Rattle.plain.specs.Plain.{is_plain};
ghost use Rattle.dispatch.specs.Responses.{fault_code, refusal, response_of, response_with};

use crate::cancelled::HandlerCancelledError;
use analysis_host::{Answer, Outcome};
use lsp_frame::{RequestId, Response, ResponseError};
use plain::{Json, NoMemory, Text};

// What says that memory ran out, and no fault may say of itself.
const OUT_OF_MEMORY: i32 = -31000;

// What JSON-RPC answers where a request failed within the server.
const INTERNAL_ERROR: i32 = -32603;

/// The response that a request has this result.
pub fn response_with(id: RequestId, value: Json) -> Response
    requires { is_plain value ≡ true }
    ensures value { result ≡ response_with id value }
    ensures writable { AreWritable (ResponseMessage result) }
{
    Response {
        id: Some(id),
        result: Some(value),
        error: None,
    }
}

/// The response that a request failed.
pub fn refusal(id: RequestId, code: i32, message: Text) -> Response
    ensures value { result ≡ refusal id code message }
    ensures writable { AreWritable (ResponseMessage result) }
{
    Response {
        id: Some(id),
        result: None,
        error: Some(ResponseError {
            code,
            message,
            extra: None,
        }),
    }
}

/// A fault's own code, but for -31000, which says that memory ran out; else -32603.
pub fn fault_code(code: Option<i32>) -> i32
    ensures { result ≡ fault_code code }
{
    match code {
        Some(code) if code != OUT_OF_MEMORY => code,
        _ => INTERNAL_ERROR,
    }
}

/// The response that a query's outcome is, or that there is none, since the query stopped. It takes no memory.
pub fn result_to_response(
    id: RequestId,
    outcome: Outcome,
) -> Result<Result<Response, HandlerCancelledError>, NoMemory>
    requires { IsPlainOutcome outcome }
    ensures takes_no_memory { IsOk result }
    ensures value { IfOk result (λ response. response ≡ response_of id outcome) }
    ensures writable { IfOk result (λ response. IfOk response (λ r. AreWritable (ResponseMessage r))) }
{
    Ok(match outcome {
        Outcome::Value(Answer::Json(value)) => Ok(response_with(id, value)),
        Outcome::Value(
            Answer::Diagnostics(_) | Answer::Tests(_) | Answer::Roots(_) | Answer::Primed,
        ) => unreachable!(),
        Outcome::Fault { code, message } => Ok(refusal(id, fault_code(code), message)),
        Outcome::Cancelled { saw } => Err(HandlerCancelledError { saw }),
    })
}
