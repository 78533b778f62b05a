// Build data of workspaces.
ghost use Rattle.std.specs.Prelude.{◌≡◌, Some, IfOk, OnOk};
ghost use Rattle.session_model.specs.ClientSteps.{logged_if};
ghost use Rattle.session_port.specs.declared.command.LogCode.TheVariants.{BuildError};
ghost use Rattle.session_port.specs.Refines.{Refines, RefinesTotal};
ghost use Rattle.session_model.specs.Building.{build_due, build_kept, rebuilt_if};
ghost use Rattle.session_model.specs.Machine.{build_handed_over, build_started, build_taken, runs_started};
ghost use Rattle.session_model.specs.State.{State};
ghost use Rattle.session_model.specs.Status.{build_fault};

use crate::loading::start_load;
use plain::NoMemory;
use session_model::{BuildEnd, TurnError};
use session_port::{JobKind, LogCode, TurnOut};
use session_store::{Store, log_if};
use workspaces::Workspaces;

/// Asks for the macros anew, where this flag is set.
pub fn rebuild_macros_if(workspaces: &mut Workspaces, rebuilds: bool) -> Result<(), NoMemory>
    ensures { OnOk result (workspaces.new ≡ rebuilt_if rebuilds workspaces.old) }
{
    if rebuilds {
        workspaces.rebuild_macros()?;
    }
    Ok(())
}

// What a run of build data came to is kept, where one is in progress.
fn end_build(workspaces: &mut Workspaces, made: BuildEnd) -> Result<(), NoMemory>
    ensures { OnOk result (workspaces.new ≡ build_kept made workspaces.old) }
{
    if workspaces.is_building() {
        workspaces.end_build(made)?;
    }
    Ok(())
}

// The errors of the last run are logged.
fn log_build(workspaces: &Workspaces, out: &mut TurnOut) -> Result<(), TurnError>
    ensures { (state : State) → RefinesTotal result (logged_if BuildError (build_fault workspaces.now) (record { state = state; out = out.old })) state out.new }
{
    let errors = workspaces.build_error()?;
    log_if(LogCode::BuildError, errors, out)
}

/// What a run of build data came to is kept, where one is in progress, and its errors are logged.
#[tactic(auto, unfolding(session_model::specs::Machine::build_taken))]
pub fn take_build(store: &mut Store, made: BuildEnd, out: &mut TurnOut) -> Result<(), TurnError>
    ensures { RefinesTotal result (build_taken made (record { state = store.old; out = out.old })) store.new out.new }
{
    end_build(&mut store.workspaces, made)?;
    log_build(&store.workspaces, out)
}

// Hands over the job of a run of build data that is to start on workspaces of this version.
#[tactic(auto, unfolding(session_model::specs::Machine::build_handed_over))]
fn hand_over_build(
    store: &mut Store,
    version: Option<u64>,
    out: &mut TurnOut,
) -> Result<(), TurnError>
    ensures { Refines result (build_handed_over version (record { state = store.old; out = out.old })) store.new out.new }
{
    match version {
        None => Ok(()),
        Some(version) => store.hand_over(JobKind::FetchBuildData { version }, out),
    }
}

// Starts the run of build data that is asked for, where neither a fetch nor another run is in progress. Answers the version of the
// workspaces that it is on.
#[tactic(auto, unfolding(session_model::specs::Machine::build_started))]
fn start_build(store: &mut Store, out: &mut TurnOut) -> Result<Option<u64>, TurnError>
    ensures meets { Refines result (build_started (record { state = store.old; out = out.old })) store.new out.new }
    ensures value { IfOk result (λ version. version ≡ build_due store.old.workspaces) }
{
    let version = store.workspaces.start_build();
    hand_over_build(store, version, out)?;
    Ok(version)
}

/// Starts build data, else macros.
#[tactic(auto, unfolding(session_model::specs::Machine::runs_started))]
pub fn start_runs(store: &mut Store, out: &mut TurnOut) -> Result<(), TurnError>
    ensures { Refines result (runs_started (record { state = store.old; out = out.old })) store.new out.new }
{
    let build = start_build(store, out)?;
    start_load(store, build, out)
}
