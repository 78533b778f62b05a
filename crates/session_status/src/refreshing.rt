// What the client is asked to ask anew.
ghost use Rattle.std.specs.Prelude.{◌≡◌};
ghost use Rattle.session_port.specs.Refines.{Refines};
ghost use Rattle.session_model.specs.Asking.{is_refresh_due};
ghost use Rattle.session_model.specs.Machine.{client_refreshed, refreshes_done};
ghost use Rattle.session_model.specs.Status.{is_quiescent};

use notify::Outgo;
use session_model::{FactsBefore, SessionFiles, TurnError};
use session_port::TurnOut;
use session_store::{Store, is_quiescent};
use workspaces::Workspaces;

// The client is asked to ask anew for what it shows, for each thing where it can be asked.
#[tactic(auto, unfolding(session_model::specs::Machine::client_refreshed))]
fn ask_refreshes(store: &mut Store, out: &mut TurnOut) -> Result<(), TurnError>
    ensures { Refines result (client_refreshed store.old.client.settings.capabilities (record { state = store.old; out = out.old })) store.new out.new }
{
    let settings = store.client.settings();
    let tokens = settings.semantic_tokens_refresh();
    let lenses = settings.code_lens_refresh();
    let hints = settings.inlay_hints_refresh();
    let diagnostics = settings.diagnostics_refresh();
    store.ask_if(tokens, Outgo::SemanticTokensRefresh, out)?;
    store.ask_if(lenses, Outgo::CodeLensRefresh, out)?;
    store.ask_if(hints, Outgo::InlayHintRefresh, out)?;
    store.ask_if(diagnostics, Outgo::DiagnosticRefresh, out)
}

// Whether the session has come to be quiescent, or is and files were processed behind the event.
fn is_refresh_due(files: &SessionFiles, workspaces: &Workspaces, facts: FactsBefore) -> bool
    ensures { result ≡ is_refresh_due facts.quiescent (is_quiescent files.now workspaces.now) facts.processed }
{
    is_quiescent(files, workspaces) && (!facts.quiescent || facts.processed)
}

/// In a session that has come to be quiescent, and in one that is and whose files were processed behind the event.
#[tactic(auto, unfolding(session_model::specs::Machine::refreshes_done))]
pub fn refresh(store: &mut Store, facts: FactsBefore, out: &mut TurnOut) -> Result<(), TurnError>
    ensures { Refines result (refreshes_done facts (record { state = store.old; out = out.old })) store.new out.new }
{
    if is_refresh_due(&store.files, &store.workspaces, facts) {
        return ask_refreshes(store, out);
    }
    Ok(())
}
