// Notifications.
ghost use Rattle.std.specs.Prelude.{◌≡◌, IfOk, Ok, Some};
ghost use Rattle.session_port.specs.Refines.{Refines};
ghost use Rattle.session_model.specs.DeskSteps.{cancelled};
ghost use Rattle.notify.specs.Reading.{FitsWorld as NoticeFitsWorld};
ghost use Rattle.session_model.specs.Diagnosing.{opens_or_closes};
ghost use Rattle.session_model.specs.Hearing.{heard_of, told_by, HeardFitsWorld};
ghost use Rattle.session_model.specs.Machine.{at_desk, noticed, told};

use crate::answering::answering;
use crate::asking::{ask_for_settings, on_folders};
use crate::checking::run_checks;
use crate::filing::{on_change, on_close, on_open};
use crate::hearing::heard_of;
use crate::saving::on_save;
use crate::watching::on_changes;
use lsp_frame::{Notification, RequestId};
use notify::Notice;
use plain::Text;
use session_activities::{abort_tests, cancel_check, cancel_checks};
use session_model::{Heard, TurnError};
use session_port::{LogCode, TurnOut};
use session_store::{Store, log};

// The request of an id is cancelled, where it is pending.
fn on_cancel(store: &mut Store, id: RequestId, out: &mut TurnOut) -> Result<(), TurnError>
    ensures { Refines result (at_desk (λ d. Ok (cancelled id d)) (record { state = store.old; out = out.old })) store.new out.new }
{
    store.desk.cancel(id, out)?;
    Ok(())
}

// What a notification tells. Answers whether it opens or closes a document.
#[tactic(auto, unfolding(session_model::specs::Machine::told))]
fn on_notice(store: &mut Store, notice: Notice, out: &mut TurnOut) -> Result<bool, TurnError>
    requires { NoticeFitsWorld notice }
    ensures meets { Refines result (told notice (record { state = store.old; out = out.old })) store.new out.new }
    ensures came_or_went { IfOk result (λ came_or_went. came_or_went ≡ opens_or_closes (Some notice)) }
{
    match notice {
        Notice::CancelRequest(id) => answering(on_cancel(store, id, out), false),
        Notice::DidOpen(document) => on_open(store, document, out),
        Notice::DidChange(change) => answering(on_change(store, change, out), false),
        Notice::DidClose { uri } => on_close(store, uri, out),
        Notice::DidSave { uri } => answering(on_save(store, uri, out), false),
        Notice::DidChangeConfiguration => answering(ask_for_settings(store, out), false),
        Notice::DidChangeWorkspaceFolders { added, removed } => {
            answering(on_folders(store, added, removed, out), false)
        }
        Notice::DidChangeWatchedFiles { changes } => {
            answering(on_changes(store, changes, out), false)
        }
        Notice::ClearFlycheck => {
            store.board.clear_check_all()?;
            Ok(false)
        }
        Notice::CancelProgress(token) => answering(cancel_check(store, &token, out), false),
        Notice::CancelFlycheck => answering(cancel_checks(store, out), false),
        Notice::RunFlycheck { uri } => answering(run_checks(store, uri, out), false),
        Notice::AbortRunTest => answering(abort_tests(store, out), false),
    }
}

// What is heard in a notification of this method. Answers whether it opens or closes a document.
#[tactic(auto, unfolding(session_model::specs::Machine::noticed))]
fn on_heard(
    store: &mut Store,
    heard: Heard,
    method: Text,
    out: &mut TurnOut,
) -> Result<bool, TurnError>
    requires { HeardFitsWorld heard }
    ensures meets { Refines result (noticed heard method (record { state = store.old; out = out.old })) store.new out.new }
    ensures came_or_went { IfOk result (λ came_or_went. came_or_went ≡ opens_or_closes (told_by heard)) }
{
    match heard {
        Heard::Told(notice) => on_notice(store, notice, out),
        Heard::Malformed => answering(log(LogCode::MalformedNotification, method, out), false),
        Heard::Unhandled => answering(log(LogCode::UnhandledNotification, method, out), false),
        Heard::Silent => Ok(false),
    }
}

/// A notification. Answers whether it opens or closes a document.
#[tactic(auto, using(crate::proofs::Heard::noticed_as))]
pub fn on_notification(
    store: &mut Store,
    notification: Notification,
    out: &mut TurnOut,
) -> Result<bool, TurnError>
    ensures meets { Refines result (noticed (heard_of notification) notification.method (record { state = store.old; out = out.old })) store.new out.new }
    ensures came_or_went { IfOk result (λ came_or_went. came_or_went ≡ opens_or_closes (told_by (heard_of notification))) }
{
    let Notification { method, params } = notification;
    let heard = heard_of(store.alloc, &method, params)?;
    on_heard(store, heard, method, out)
}
