// Messages of the client and of jobs: which is what.
ghost use Rattle.std.specs.Prelude.{◌≡◌, IfOk, IfSome};
ghost use Rattle.lsp_frame.specs.Pending.{IsAbove};
ghost use Rattle.session_port.specs.Refines.{Refines};
ghost use Rattle.session_model.specs.Meaning.{meaning_of};
ghost use Rattle.session_model.specs.Building.{is_rebuild, asks_to_rebuild};
ghost use Rattle.session_model.specs.Diagnosing.{opens_or_closes};
ghost use Rattle.session_model.specs.Fetching.{is_reload, reloads};
ghost use Rattle.session_model.specs.Inputs.{notice_in};
ghost use Rattle.session_model.specs.Machine.{request_answered, request_taken, batched, crates_settled_if, end_taken, load_taken, received, message_taken, work_followed, work_taken};
ghost use Rattle.session_model.specs.Testing.{run_asked_by, run_of_row};
ghost use Rattle.session_model.specs.WorkEnds.{IsPlainEnd};
ghost use Rattle.session_model.specs.declared.input.Event.TheVariants.{Lsp};
ghost use Rattle.session_model.specs.declared.input.Input.TheVariants.{Next};

use activities::{Telling, job_told};
use analysis_host::Analysis;
use lsp_frame::{Message, Request};
use method_table::{
    REBUILD_PROC_MACROS, RELOAD_WORKSPACE, RowId, RunTest, StateRequest, is_unit,
    read_state_request, row_of,
};
use plain::{Items, Json, NoMemory};
use session_activities::{renew_checks_if, run_tests, tell_all};
use session_diagnostics::{take_lists, take_tests};
use session_model::{Desk, LoadEnd, TurnError, WorkEnd};
use session_notices::{complete_request, on_notification, process_changes};
use session_port::{TaskMsg, TurnOut};
use session_renewal::{
    rebuild_macros_if, reload_if, take_build, take_check, take_fetch, take_macros,
};
use session_store::Store;
use std::alloc::Global;

// Whether this is the row of requests that ask for the workspaces anew.
fn is_reload(row: Option<RowId>) -> bool
    ensures { result ≡ is_reload row }
{
    match row {
        None => false,
        Some(row) => row == RELOAD_WORKSPACE,
    }
}

// Whether this is the row of requests that ask for the macros anew.
fn is_rebuild(row: Option<RowId>) -> bool
    ensures { result ≡ is_rebuild row }
{
    match row {
        None => false,
        Some(row) => row == REBUILD_PROC_MACROS,
    }
}

// Whether a request asks for the workspaces anew, and is taken.
fn reloads(desk: &Desk, request: &Request) -> bool
    ensures { result ≡ reloads request.now desk.now }
{
    is_unit(&request.params)
        && is_reload(row_of(request.method.as_str()))
        && desk.takes(&request.id)
}

// Whether a request asks for the macros anew, and is taken.
fn rebuilds(desk: &Desk, request: &Request) -> bool
    ensures { result ≡ asks_to_rebuild request.now desk.now }
{
    is_unit(&request.params)
        && is_rebuild(row_of(request.method.as_str()))
        && desk.takes(&request.id)
}

// A request. One to reload asks for a fetch, and one to rebuild macros for build data.
fn answer_request<A: Analysis>(
    store: &mut Store,
    request: Request,
    analysis: &A,
    out: &mut TurnOut,
) -> Result<(), TurnError>
    requires { IsAbove store.old.desk.turns store.old.desk.pending }
    ensures { Refines result (request_answered (meaning_of A.decodes A.answer) request (record { state = store.old; out = out.old })) store.new out.new }
{
    let reloads = reloads(&store.desk, &request);
    let rebuilds = rebuilds(&store.desk, &request);
    store.gather_fixes()?;
    store.ask(request, analysis, out)?;
    reload_if(&mut store.workspaces, reloads)?;
    rebuild_macros_if(&mut store.workspaces, rebuilds)?;
    Ok(())
}

fn run_of_row(alloc: Global, row: Option<RowId>, params: &Json) -> Result<Option<RunTest>, NoMemory>
    ensures { IfOk result (λ run. run ≡ run_of_row row params.now) }
{
    let Some(row) = row else {
        return Ok(None);
    };
    match read_state_request(alloc, row, params)? {
        Some(StateRequest::RunTest(run)) => Ok(Some(run)),
        _ => Ok(None),
    }
}

// The run of tests that a request asks for, where it asks for one and is taken.
fn run_asked_by(alloc: Global, request: &Request, desk: &Desk) -> Result<Option<RunTest>, NoMemory>
    ensures { IfOk result (λ run. run ≡ run_asked_by request.now desk.now) }
{
    if !desk.takes(&request.id) {
        return Ok(None);
    }
    run_of_row(alloc, row_of(request.method.as_str()), &request.params)
}

// A request. Before its answer, one to run tests is done.
fn on_request<A: Analysis>(
    store: &mut Store,
    request: Request,
    analysis: &A,
    out: &mut TurnOut,
) -> Result<(), TurnError>
    requires { IsAbove store.old.desk.turns store.old.desk.pending }
    ensures { Refines result (request_taken (meaning_of A.decodes A.answer) request (record { state = store.old; out = out.old })) store.new out.new }
{
    let run = run_asked_by(store.alloc, &request, &store.desk)?;
    run_tests(store, run, out)?;
    answer_request(store, request, analysis, out)
}

// A message of the client. Answers whether it opens or closes a document.
#[tactic(auto, unfolding(session_model::specs::Machine::received))]
pub(crate) fn on_message<A: Analysis>(
    store: &mut Store,
    message: Message,
    analysis: &A,
    out: &mut TurnOut,
) -> Result<bool, TurnError>
    requires { IsAbove store.old.desk.turns store.old.desk.pending }
    ensures meets { Refines result (received (meaning_of A.decodes A.answer) message (record { state = store.old; out = out.old })) store.new out.new }
    ensures came_or_went { IfOk result (λ came_or_went. came_or_went ≡ opens_or_closes (notice_in (Next (Lsp message)))) }
{
    match message {
        Message::Request(request) => {
            on_request(store, request, analysis, out)?;
            Ok(false)
        }
        Message::Notification(notification) => on_notification(store, notification, out),
        Message::Response(response) => {
            complete_request(store, response, out)?;
            Ok(false)
        }
    }
}

// Where this flag is set, the files are processed, and the checks are set.
#[tactic(auto, unfolding(session_model::specs::Machine::crates_settled_if))]
fn settle_crates_if(store: &mut Store, wanted: bool, out: &mut TurnOut) -> Result<(), TurnError>
    ensures { Refines result (crates_settled_if wanted (record { state = store.old; out = out.old })) store.new out.new }
{
    if !wanted {
        return Ok(());
    }
    process_changes(store, out)?;
    renew_checks_if(store, true, out)
}

// The end of a load of macros. Behind crate data that comes with them the files are processed, also while some are loading,
// and the checks are set.
#[tactic(auto, unfolding(session_model::specs::Machine::load_taken))]
fn take_load(store: &mut Store, told: LoadEnd, out: &mut TurnOut) -> Result<(), TurnError>
    ensures { Refines result (load_taken told (record { state = store.old; out = out.old })) store.new out.new }
{
    let came = take_macros(store, told, out)?;
    settle_crates_if(store, came, out)
}

// What a job ends of the session's own work: the workspaces, the board or the client are told.
#[tactic(auto, unfolding(session_model::specs::Machine::work_taken))]
fn take_work(store: &mut Store, end: WorkEnd, out: &mut TurnOut) -> Result<(), TurnError>
    requires { IsPlainEnd end }
    ensures { Refines result (work_taken end (record { state = store.old; out = out.old })) store.new out.new }
{
    match end {
        WorkEnd::Fetched(found) => take_fetch(store, found, out),
        WorkEnd::Built(made) => take_build(store, made, out),
        WorkEnd::Checked(roots) => {
            take_check(store, roots);
            Ok(())
        }
        WorkEnd::Loaded(told) => take_load(store, told, out),
        WorkEnd::Diagnosed {
            generation,
            pass,
            lists,
        } => {
            take_lists(&mut store.board, generation, pass, lists)?;
            Ok(())
        }
        WorkEnd::Tested { files, tests } => take_tests(store, files, tests, out),
    }
}

#[tactic(auto, unfolding(session_model::specs::Machine::end_taken))]
fn take_end(store: &mut Store, end: Option<WorkEnd>, out: &mut TurnOut) -> Result<(), TurnError>
    requires { IfSome end IsPlainEnd }
    ensures { Refines result (end_taken end (record { state = store.old; out = out.old })) store.new out.new }
{
    match end {
        None => Ok(()),
        Some(end) => take_work(store, end, out),
    }
}

// What a message ends of the session's own work is done, and then it is told how far that work is.
#[tactic(auto, unfolding(session_model::specs::Machine::work_followed))]
fn follow_work(
    store: &mut Store,
    end: Option<WorkEnd>,
    told: Items<Telling>,
    out: &mut TurnOut,
) -> Result<(), TurnError>
    requires { IfSome end IsPlainEnd }
    ensures { Refines result (work_followed end told (record { state = store.old; out = out.old })) store.new out.new }
{
    take_end(store, end, out)?;
    tell_all(store, told, out)
}

// A message of a job.
#[tactic(auto, unfolding(session_model::specs::Machine::message_taken))]
fn on_task<A: Analysis>(
    store: &mut Store,
    message: TaskMsg,
    analysis: &A,
    out: &mut TurnOut,
) -> Result<(), TurnError>
    ensures { Refines result (message_taken (meaning_of A.decodes A.answer) message (record { state = store.old; out = out.old })) store.new out.new }
{
    store.gather_fixes()?;
    let told = job_told(store.alloc, &message.body, store.desk.fitting(&message))?;
    let end = store.bring(message, analysis, out)?;
    follow_work(store, end, told, out)
}

// The messages of a batch, one after another.
pub(crate) fn on_batch<A: Analysis>(
    store: &mut Store,
    batch: Items<TaskMsg>,
    analysis: &A,
    out: &mut TurnOut,
) -> Result<(), TurnError>
    ensures { Refines result (batched (meaning_of A.decodes A.answer) batch (record { state = store.old; out = out.old })) store.new out.new }
{
    for message in batch.into_vec() {
        on_task(store, message, analysis, out)?;
    }
    Ok(())
}
