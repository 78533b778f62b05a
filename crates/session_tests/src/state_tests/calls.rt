// The calls of a session besides its turns, and its parts by themselves.
ghost use Rattle.std.specs.Prelude.{◌≡◌, None, IfSome};

use super::asking::{agree, settings};
use lsp_frame::{RequestId, Response, ResponseError};
use notify::{Outgo, Progress};
use plain::Text;
use session_model::{Client, ReqHandler, SessionFiles, WorkProgress};
use session_state::{GlobalState, TurnOut};
use std::alloc::Global;
use std::test::Fail;
use test_support::expect;
use workspaces::Workspaces;

/// A refusal under no id.
fn refusal(alloc: Global) -> Option<ResponseError>
    ensures { IfSome result (λ error. error.extra ≡ None) }
{
    Some(ResponseError {
        code: 1,
        message: Text::from_str(alloc, "no").ok()?,
        extra: None,
    })
}

/// Answers the request of ticket 1.
fn respond(alloc: Global, state: &mut GlobalState, out: &mut TurnOut) -> Option<bool> {
    let error = Some(refusal(alloc)?);
    let response = Response {
        id: None,
        result: None,
        error,
    };
    state.respond(1, response, out).ok()
}

/// The client answers the session's request 0, and says nothing.
fn complete(state: &mut GlobalState, out: &mut TurnOut) -> Option<bool> {
    let response = Response {
        id: Some(RequestId::Number(0)),
        result: None,
        error: None,
    };
    Some(state.complete_request(response, out).is_ok())
}

/// Some work begins, of which 29 of 100 are done.
fn report(alloc: Global, state: &mut GlobalState, out: &mut TurnOut) -> Option<bool> {
    let work = WorkProgress {
        title: Text::from_str(alloc, "X").ok()?,
        state: Progress::Begin,
        message: None,
        percentage: Some(29),
        cancel_token: None,
    };
    Some(state.report_progress(work, out).is_ok())
}

/// What a call answers, or that it went well: `respond`, and `completed` ask of ticket 1, `cancel` of id 5, `complete` of the session's
/// request 0; `request` and `notification` send one; `progress` tells of some work; and `quiescent` asks for rest.
pub fn answer_to(
    alloc: Global,
    state: &mut GlobalState,
    call: &str,
    out: &mut TurnOut,
) -> Option<bool> {
    match call {
        "respond" => respond(alloc, state, out),
        "cancel" => state.cancel(RequestId::Number(5), out).ok(),
        "completed" => Some(state.is_completed(1)),
        "request" => {
            let sent = state.send_request(Outgo::CodeLensRefresh, ReqHandler::Ignore, out);
            Some(sent.is_ok())
        }
        "notification" => Some(state.send_notification(Outgo::EndRunTest, out).is_ok()),
        "complete" => complete(state, out),
        "progress" => report(alloc, state, out),
        "quiescent" => Some(state.is_quiescent()),
        _ => None,
    }
}

// What each call answers and writes: to a request that waits and to one that doesn't; and a request and a notification of the session's own.
const CALLS: &str = r#"ask textDocument/hover {"a":1} then call completed > no
ask textDocument/hover {"a":1} then call respond > yes Content-Length: 58\r\n\r\n{"error":{"code":1,"message":"no"},"id":5,"jsonrpc":"2.0"}
ask textDocument/hover {"a":1} then call respond then call completed > yes
ask textDocument/hover {"a":1} then call respond then call respond > no
ask textDocument/hover {"a":1} then call cancel > yes Content-Length: 79\r\n\r\n{"error":{"code":-32800,"message":"canceled by client"},"id":5,"jsonrpc":"2.0"}
ask textDocument/hover {"a":1} then call cancel then call cancel > no
call request > yes Content-Length: 62\r\n\r\n{"id":0,"jsonrpc":"2.0","method":"workspace/codeLens/refresh"}
call request then call request > yes Content-Length: 62\r\n\r\n{"id":1,"jsonrpc":"2.0","method":"workspace/codeLens/refresh"}
call request then call complete > yes
call complete > yes log
call notification > yes Content-Length: 52\r\n\r\n{"jsonrpc":"2.0","method":"experimental/endRunTest"}
as progress then call progress > yes Content-Length: 102\r\n\r\n{"id":0,"jsonrpc":"2.0","method":"window/workDoneProgress/create","params":{"token":"rustAnalyzer/X"}}Content-Length: 148\r\n\r\n{"jsonrpc":"2.0","method":"$/progress","params":{"token":"rustAnalyzer/X","value":{"cancellable":false,"kind":"begin","percentage":29,"title":"X"}}}
as none then call progress > yes
call quiescent > yes
start then call quiescent > no
start then fetched then call quiescent > yes"#;

#[test]
fn calls_besides_turns(rt: HostRuntime) -> Result<(), Fail> {
    agree(rt.alloc(), CALLS)
}

/// Whether a client has the settings that it is made with.
fn is_client_made(alloc: Global) -> Option<bool> {
    let client = Client::new(alloc, settings(alloc, "")?).ok()?;
    let is = client.settings().threads() == 4;
    drop(client);
    Some(is)
}

fn are_files_made(alloc: Global) -> Option<bool> {
    let files = SessionFiles::new(alloc).ok()?;
    let are = files.revision() == 0 && !files.is_loading();
    drop(files);
    Some(are)
}

fn are_workspaces_made(alloc: Global) -> Option<bool> {
    let workspaces = Workspaces::new(alloc).ok()?;
    let are = workspaces.version() == 0 && workspaces.is_idle();
    drop(workspaces);
    Some(are)
}

#[test]
fn parts_by_themselves(rt: HostRuntime) -> Result<(), Fail> {
    expect("a client", is_client_made(rt.alloc()) == Some(true))?;
    expect("files", are_files_made(rt.alloc()) == Some(true))?;
    expect("workspaces", are_workspaces_made(rt.alloc()) == Some(true))
}
