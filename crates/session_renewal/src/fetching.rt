// Fetches of workspaces.
ghost use Rattle.std.specs.Prelude.{◌≡◌, Some, IfOk, OnOk};
ghost use Rattle.session_model.specs.ClientSteps.{logged_if};
ghost use Rattle.session_port.specs.declared.command.LogCode.TheVariants.{FetchError};
ghost use Rattle.session_port.specs.Refines.{Refines, RefinesTotal};
ghost use Rattle.session_model.specs.Fetching.{fetch_kept, reloaded_if, with_fetches};
ghost use Rattle.session_model.specs.Machine.{fetch_handed_over, fetch_started, fetch_taken};
ghost use Rattle.workspaces.specs.Fetches.{start_up};
ghost use Rattle.session_model.specs.State.{discovers, fetch_kind, State};
ghost use Rattle.session_model.specs.Status.{fetch_fault};

use docs_vfs::VfsPath;
use plain::{Items, NoMemory, Text};
use ra_config::Config;
use session_model::{FetchEnd, TurnError};
use session_port::{JobKind, LogCode, TurnOut};
use session_store::{Store, discovers, log_if};
use std::alloc::{AllocError, Global};
use workspaces::{FetchRequest, Workspaces};

// A copy of paths.
fn copied(alloc: Global, paths: &[VfsPath]) -> Result<Items<VfsPath>, AllocError>
    ensures { IfOk result (λ copy. copy ≡ paths.now) }
{
    let mut copy = Items::new(alloc);
    for path in paths {
        copy.push(path.clone()?)?;
    }
    Ok(copy)
}

/// The start asks for the first fetch, unless the projects are discovered.
pub fn begin_fetches(settings: &Config, workspaces: &mut Workspaces) -> Result<(), NoMemory>
    ensures { OnOk result (workspaces.new ≡ with_fetches (start_up (discovers settings.now)) workspaces.old) }
{
    workspaces.start_up(discovers(settings))
}

/// Asks for the workspaces anew, where this flag is set.
pub fn reload_if(workspaces: &mut Workspaces, reloads: bool) -> Result<(), NoMemory>
    ensures { OnOk result (workspaces.new ≡ reloaded_if reloads workspaces.old) }
{
    if reloads {
        workspaces.reload()?;
    }
    Ok(())
}

// What a fetch came to is kept, where one is in progress.
fn end_fetch(workspaces: &mut Workspaces, found: FetchEnd) -> Result<(), NoMemory>
    ensures { OnOk result (workspaces.new ≡ fetch_kept found workspaces.old) }
{
    if workspaces.is_fetching() {
        workspaces.end_fetch(found)?;
    }
    Ok(())
}

// The errors of the last fetch are logged.
fn log_fetch(settings: &Config, workspaces: &Workspaces, out: &mut TurnOut) -> Result<(), TurnError>
    ensures { (state : State) → RefinesTotal result (logged_if FetchError (fetch_fault settings.now workspaces.now) (record { state = state; out = out.old })) state out.new }
{
    let errors = workspaces.fetch_error(discovers(settings))?;
    log_if(LogCode::FetchError, errors, out)
}

/// What a fetch came to is kept, where one is in progress, and its errors are logged. What checks have found is forgotten.
#[tactic(auto, unfolding(session_model::specs::Machine::fetch_taken))]
pub fn take_fetch(store: &mut Store, found: FetchEnd, out: &mut TurnOut) -> Result<(), TurnError>
    ensures { RefinesTotal result (fetch_taken found (record { state = store.old; out = out.old })) store.new out.new }
{
    end_fetch(&mut store.workspaces, found)?;
    store.board.clear_check_all()?;
    log_fetch(store.client.settings(), &store.workspaces, out)
}

// What the job of a fetch is to find.
fn fetch_kind(
    alloc: Global,
    settings: &Config,
    request: FetchRequest,
) -> Result<JobKind, AllocError>
    ensures { IfOk result (λ kind. kind ≡ fetch_kind settings.now request) }
{
    Ok(JobKind::FetchWorkspaces {
        projects: settings.linked_or_discovered_projects(alloc)?,
        detached: copied(alloc, settings.detached_files())?,
        path: request.path,
        force: request.force,
    })
}

// Hands over the job of a fetch that is to start.
#[tactic(auto, unfolding(session_model::specs::Machine::fetch_handed_over))]
fn hand_over_fetch(
    store: &mut Store,
    started: Option<(Text, FetchRequest)>,
    out: &mut TurnOut,
) -> Result<(), TurnError>
    ensures { Refines result (fetch_handed_over started (record { state = store.old; out = out.old })) store.new out.new }
{
    match started {
        None => Ok(()),
        Some((_cause, request)) => {
            let kind = fetch_kind(store.alloc, store.client.settings(), request)?;
            store.hand_over(kind, out)
        }
    }
}

/// Starts the fetch that waits in the queue, where fetches may start and none is in progress.
#[tactic(auto, unfolding(session_model::specs::Machine::fetch_started))]
pub fn start_fetch(store: &mut Store, may: bool, out: &mut TurnOut) -> Result<(), TurnError>
    ensures { Refines result (fetch_started may (record { state = store.old; out = out.old })) store.new out.new }
{
    let started = store.workspaces.start_fetch(may);
    hand_over_fetch(store, started, out)
}
