// What is agreed with the client.
ghost use Rattle.std.specs.Prelude.{Ok};
ghost use Rattle.session_port.specs.Refines.{Refines};
ghost use Rattle.session_model.specs.ClientSteps.{answered, folders_changed};
ghost use Rattle.session_model.specs.Machine.{answer_taken, asked_for_settings, at_client, folders_taken};

use crate::causes::{tell_folders_if, tell_settings};
use lsp_frame::Response;
use notify::Outgo;
use plain::{Items, Text};
use session_activities::renew_checks_if;
use session_model::{ReqHandler, TurnError};
use session_port::TurnOut;
use session_store::{Store, goes_by_folders};
use std::sync::Arc;

// The client is asked for its settings.
pub(crate) fn ask_for_settings(store: &mut Store, out: &mut TurnOut) -> Result<(), TurnError>
    ensures { Refines result (at_client asked_for_settings (record { state = store.old; out = out.old })) store.new out.new }
{
    store.send_request(Outgo::Configuration, ReqHandler::Settings, out)
}

// An answer, to what is agreed with the client.
fn take_answer(store: &mut Store, response: Response, out: &mut TurnOut) -> Result<(), TurnError>
    ensures { Refines result (at_client (λ c. Ok (answered response c)) (record { state = store.old; out = out.old })) store.new out.new }
{
    store.client.complete(response, out)
}

/// The client answers what it was asked. Other settings than before ask for a fetch, or for the checks to be set anew. That no request has the answer's id
/// is logged. After an `Err` the state is poisoned.
pub fn complete_request(
    store: &mut Store,
    response: Response,
    out: &mut TurnOut,
) -> Result<(), TurnError>
    ensures { Refines result (answer_taken response (record { state = store.old; out = out.old })) store.new out.new }
{
    let before = Arc::try_clone(store.client.settings())?;
    take_answer(store, response, out)?;
    let other_checks = tell_settings(
        store.alloc,
        &before,
        store.client.settings(),
        &mut store.workspaces,
    )?;
    renew_checks_if(store, other_checks, out)
}

// The folders of the client's workspaces change, in what is agreed with it.
fn change_folders(
    store: &mut Store,
    added: Items<Text>,
    removed: Items<Text>,
    out: &mut TurnOut,
) -> Result<(), TurnError>
    ensures { Refines result (at_client (λ c. Ok (folders_changed added removed c)) (record { state = store.old; out = out.old })) store.new out.new }
{
    store.client.change_folders(added, removed, out)
}

// The folders of the client's workspaces change. Where they say what the workspaces are, that asks for a fetch.
pub(crate) fn on_folders(
    store: &mut Store,
    added: Items<Text>,
    removed: Items<Text>,
    out: &mut TurnOut,
) -> Result<(), TurnError>
    ensures { Refines result (folders_taken added removed (record { state = store.old; out = out.old })) store.new out.new }
{
    let counts = goes_by_folders(store.client.settings());
    change_folders(store, added, removed, out)?;
    tell_folders_if(store.alloc, counts, &mut store.workspaces)?;
    Ok(())
}
