// What checks tell.
ghost use Rattle.std.specs.Prelude.{◌≡◌, Ok, IfOk, OnOk};
ghost use Rattle.std.specs.FinMap as map;
ghost use Rattle.op_board.specs.Acts.{step as after_act};
ghost use Rattle.session_port.specs.Refines.{Refines, RefinesTotal};
ghost use Rattle.session_model.specs.Diagnosing.{fix_in, outdated_act};
ghost use Rattle.session_model.specs.Machine.{check_told, checks_heard, checks_told, found_added, news_taken};

use activities::end_checks;
use docs_vfs::{FileExcluded, FileId, VfsPath};
use lsp_types::Diagnostic;
use notify::Outgo;
use op_board::{CheckFix, DiagnosticCollection};
use plain::{Items, Json, SharedJson, Text};
use session_activities::{hear_tests, take_progress};
use session_model::{News, TurnError};
use session_port::{FlycheckMsg, LogCode, TurnOut};
use session_store::{Store, log};
use std::alloc::{AllocError, Global};

// What is offered to mend a file.
fn fix_in(alloc: Global, file: FileId, fix: Option<Json>) -> Result<Option<CheckFix>, AllocError>
    ensures { IfOk result (λ found. found ≡ fix_in file fix) }
{
    match fix {
        None => Ok(None),
        Some(action) => Ok(Some(CheckFix {
            file,
            action: SharedJson::new(alloc, action)?,
        })),
    }
}

// What a check found in the file with this path. Of a path that is excluded nothing is kept, and one that isn't known is
// logged.
#[tactic(auto, unfolding(session_model::specs::Machine::found_added))]
fn add_found(
    store: &mut Store,
    id: u64,
    generation: u64,
    package: Option<Text>,
    path: VfsPath,
    diagnostic: Diagnostic,
    fix: Option<Json>,
    out: &mut TurnOut,
) -> Result<(), TurnError>
    ensures { RefinesTotal result (found_added id generation «package» path diagnostic fix (map.get store.old.files.ids path) (record { state = store.old; out = out.old })) store.new out.new }
{
    match store.files.file_id(&path) {
        None => log(
            LogCode::CheckUnknownFile,
            Text::from_str(store.alloc, path.as_str())?,
            out,
        ),
        Some((_, FileExcluded::Yes)) => Ok(()),
        Some((file, FileExcluded::No)) => {
            let fix = fix_in(store.alloc, file, fix)?;
            store
                .board
                .add_check_diagnostic(id, generation, package, file, diagnostic, fix)?;
            Ok(())
        }
    }
}

// Forgets what is out of date.
fn forget(
    board: &mut DiagnosticCollection,
    id: u64,
    package: Option<Option<Text>>,
    older_than: Option<u64>,
) -> Result<(), AllocError>
    ensures { OnOk result (board.new ≡ after_act (outdated_act id «package» older_than) board.old) }
{
    match (package, older_than) {
        (None, None) => board.clear_check(id),
        (Some(package), None) => board.clear_check_for_package(id, package),
        (None, Some(generation)) => board.clear_check_older_than(id, generation),
        (Some(package), Some(generation)) => {
            board.clear_check_older_than_for_package(id, package, generation)
        }
    }
}

// A message of a check.
#[tactic(auto, unfolding(session_model::specs::Machine::check_told))]
fn take_check_message(
    store: &mut Store,
    message: FlycheckMsg,
    out: &mut TurnOut,
) -> Result<(), TurnError>
    ensures { Refines result (check_told message (record { state = store.old; out = out.old })) store.new out.new }
{
    match message {
        FlycheckMsg::AddDiagnostic {
            id,
            generation,
            package,
            path,
            diagnostic,
            fix,
        } => add_found(store, id, generation, package, path, diagnostic, fix, out),
        FlycheckMsg::ClearDiagnostics {
            id,
            package,
            older_than,
        } => {
            forget(&mut store.board, id, package, older_than)?;
            Ok(())
        }
        FlycheckMsg::Progress { id, progress } => take_progress(store, id, progress, out),
    }
}

// Messages of checks, one after another.
#[tactic(auto, unfolding(session_model::specs::Machine::checks_told))]
fn take_check_messages(
    store: &mut Store,
    messages: Items<FlycheckMsg>,
    out: &mut TurnOut,
) -> Result<(), TurnError>
    ensures { Refines result (checks_told messages (record { state = store.old; out = out.old })) store.new out.new }
{
    for message in messages.into_vec() {
        take_check_message(store, message, out)?;
    }
    Ok(())
}

// Messages of checks. Behind one that ends a check the client is asked to ask anew for what is wrong in files.
#[tactic(auto, unfolding(session_model::specs::Machine::checks_heard))]
fn hear_checks(
    store: &mut Store,
    messages: Items<FlycheckMsg>,
    out: &mut TurnOut,
) -> Result<(), TurnError>
    ensures { Refines result (checks_heard messages (record { state = store.old; out = out.old })) store.new out.new }
{
    let refreshes = end_checks(messages.as_slice())
        && store.client.settings().diagnostics_refresh();
    take_check_messages(store, messages, out)?;
    store.ask_if(refreshes, Outgo::DiagnosticRefresh, out)
}

/// What checks, a test run or discoveries tell. Discoveries change nothing yet.
#[tactic(auto, unfolding(session_model::specs::Machine::news_taken))]
pub fn take_news(store: &mut Store, news: News, out: &mut TurnOut) -> Result<(), TurnError>
    ensures { Refines result (news_taken news (record { state = store.old; out = out.old })) store.new out.new }
{
    match news {
        News::Flycheck(messages) => hear_checks(store, messages, out),
        News::TestResult(messages) => hear_tests(store, messages, out),
        News::DiscoverProject(messages) => {
            drop(messages);
            Ok(())
        }
    }
}
