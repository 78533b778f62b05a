// What follows from changed files, and fetches of workspaces that wait for a timer.
ghost use Rattle.std.specs.Prelude.{◌≡◌, IfOk};
ghost use Rattle.session_port.specs.Refines.{RefinesTotal};
ghost use Rattle.session_model.specs.Machine.{effects_done, sources_deferred, timer_set};
ghost use Rattle.session_model.specs.State.{State};
ghost use Rattle.session_model.specs.Timing.{effects_for, fetch_planned, renewed_if};

use crate::settings::file_settings;
use change_effects::{ChangeEffects, effects_of};
use docs_vfs::{ChangedFile, FileId};
use plain::{Items, NoMemory};
use ra_config::Config;
use session_model::TurnError;
use session_port::{Command, DeferredTask, TurnOut};
use session_store::{Store, order, watched_names};
use std::alloc::Global;
use workspaces::{FetchRequest, Workspaces};

// What follows from changed files.
pub(crate) fn effects_for(
    alloc: Global,
    settings: &Config,
    changed: &[ChangedFile],
    workspaces: &Workspaces,
) -> Result<ChangeEffects, NoMemory>
    ensures { IfOk result (λ effects. effects ≡ effects_for settings.now changed.now workspaces.now) }
{
    effects_of(alloc, changed, workspaces.asked(), watched_names(settings))
}

// A fetch that is asked for waits for a timer with this turn's number, unless one serves that is about to start.
fn plan_fetch(workspaces: &mut Workspaces, turn: u64, request: Option<FetchRequest>)
    ensures { workspaces.new ≡ fetch_planned turn request workspaces.old }
{
    if let Some(request) = request {
        workspaces.plan_fetch(turn, request);
    }
}

// The host is to ask for a check of these files as sources of macros, once there is nothing else to do.
#[tactic(auto, unfolding(session_model::specs::Machine::sources_deferred))]
fn defer_sources(sources: Option<Items<FileId>>, out: &mut TurnOut) -> Result<(), TurnError>
    ensures { (state : State) → RefinesTotal result (sources_deferred sources (record { state = state; out = out.old })) state out.new }
{
    match sources {
        None => Ok(()),
        Some(files) => {
            let task = DeferredTask::CheckProcMacroSources(files);
            order(Command::Defer(task), out)
        }
    }
}

// Changed files have this done: their settings are taken, the check of sources is put off, and the fetch that they ask
// for waits.
#[tactic(auto, unfolding(session_model::specs::Machine::effects_done, session_model::specs::Machine::fetch_waits))]
pub(crate) fn do_effects(
    store: &mut Store,
    effects: ChangeEffects,
    out: &mut TurnOut,
) -> Result<(), TurnError>
    ensures { RefinesTotal result (effects_done effects (record { state = store.old; out = out.old })) store.new out.new }
{
    let ChangeEffects {
        settings,
        macro_sources,
        fetch,
        ..
    } = effects;
    file_settings(store, settings, out)?;
    defer_sources(macro_sources, out)?;
    plan_fetch(&mut store.workspaces, store.desk.turns(), fetch);
    Ok(())
}

// Where this flag is set, a fetch that waits gets a timer with this turn's number.
pub(crate) fn renew_timer_if(workspaces: &mut Workspaces, brings: bool, turn: u64)
    ensures { workspaces.new ≡ renewed_if brings turn workspaces.old }
{
    if brings {
        workspaces.renew_timer(turn);
    }
}

/// A timer is ordered for a fetch that waits from this turn on.
#[tactic(auto, unfolding(session_model::specs::Machine::timer_set))]
pub fn set_timer(store: &Store, out: &mut TurnOut) -> Result<(), TurnError>
    ensures { RefinesTotal result (timer_set (record { state = store.now; out = out.old })) store.now out.new }
{
    let turn = store.desk.turns();
    if !store.workspaces.waits_for(turn) {
        return Ok(());
    }
    order(Command::Timer(turn), out)
}
