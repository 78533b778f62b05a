// Checks: which are set, which restart and are cancelled, and how far they are.
ghost use Rattle.std.specs.Prelude.{◌≡◌, IfOk};
ghost use Rattle.activities.specs.Checks.{all_cancelled, progressed};
ghost use Rattle.session_port.specs.Refines.{Refines};
ghost use Rattle.session_model.specs.Machine.{checks_announced, checks_renewed_if, checks_restarted_if, file_checked_if, tellings_told};
ghost use Rattle.session_model.specs.Restarting.{cancelled_under, restarts_for};

use crate::telling::tell_all;
use activities::{Checks, Telling};
use docs_vfs::VfsPath;
use plain::{Items, Json, NoMemory};
use ra_config::Config;
use session_model::{SessionFiles, TurnError};
use session_port::{CheckProgress, TurnOut};
use session_store::{Store, is_loaded_file};
use std::alloc::Global;

/// Where this flag is set, the checks of the workspaces that are present are set.
#[tactic(auto, unfolding(session_model::specs::Machine::checks_renewed_if, session_model::specs::Machine::checks_announced))]
pub fn renew_checks_if(store: &mut Store, wanted: bool, out: &mut TurnOut) -> Result<(), TurnError>
    ensures { Refines result (checks_renewed_if wanted (record { state = store.old; out = out.old })) store.new out.new }
{
    if !wanted {
        return Ok(());
    }
    let told = store
        .activities
        .checks
        .set_for(store.client.settings(), store.workspaces.present())?;
    tell_all(store, told, out)
}

/// Where this flag is set, all checks restart.
#[tactic(auto, unfolding(session_model::specs::Machine::checks_restarted_if))]
pub fn restart_checks_if(
    store: &mut Store,
    wanted: bool,
    out: &mut TurnOut,
) -> Result<(), TurnError>
    ensures { Refines result (checks_restarted_if wanted (record { state = store.old; out = out.old })) store.new out.new }
{
    if !wanted {
        return Ok(());
    }
    let told = store.activities.checks.restart_all()?;
    tell_all(store, told, out)
}

// What restarts for a file that is to be checked.
fn restarts_for(
    alloc: Global,
    settings: &Config,
    files: &SessionFiles,
    path: VfsPath,
    checks: &Checks,
) -> Result<Items<Telling>, NoMemory>
    ensures { IfOk result (λ tellings. tellings ≡ restarts_for settings.now files.now path checks.now) }
{
    if !is_loaded_file(files, &path)? {
        return Ok(Items::new(alloc));
    }
    match checks.restart_for(settings, path)? {
        None => Ok(Items::new(alloc)),
        Some(tellings) => Ok(tellings),
    }
}

/// Where this flag is set, what checks a file restarts.
#[tactic(auto, unfolding(session_model::specs::Machine::file_checked_if))]
pub fn check_file_if(
    store: &mut Store,
    wanted: bool,
    path: VfsPath,
    out: &mut TurnOut,
) -> Result<(), TurnError>
    ensures { Refines result (file_checked_if wanted path (record { state = store.old; out = out.old })) store.new out.new }
{
    if !wanted {
        return Ok(());
    }
    let told = restarts_for(
        store.alloc,
        store.client.settings(),
        &store.files,
        path,
        &store.activities.checks,
    )?;
    tell_all(store, told, out)
}

/// All checks are cancelled.
pub fn cancel_checks(store: &mut Store, out: &mut TurnOut) -> Result<(), TurnError>
    ensures { Refines result (tellings_told (all_cancelled store.old.activities.checks) (record { state = store.old; out = out.old })) store.new out.new }
{
    let told = store.activities.checks.cancel_all()?;
    tell_all(store, told, out)
}

fn cancelled_under(alloc: Global, token: &Json, checks: &Checks) -> Result<Items<Telling>, NoMemory>
    ensures { IfOk result (λ tellings. tellings ≡ cancelled_under token.now checks.now) }
{
    match token.as_value().as_str() {
        None => Ok(Items::new(alloc)),
        Some(token) => checks.cancel(token),
    }
}

/// The check that is shown under this token is cancelled.
pub fn cancel_check(store: &mut Store, token: &Json, out: &mut TurnOut) -> Result<(), TurnError>
    ensures { Refines result (tellings_told (cancelled_under token.now store.old.activities.checks) (record { state = store.old; out = out.old })) store.new out.new }
{
    let told = cancelled_under(store.alloc, token, &store.activities.checks)?;
    tell_all(store, told, out)
}

/// A check says how far it is.
#[tactic(auto, unfolding(session_model::specs::Machine::checks_announced))]
pub fn take_progress(
    store: &mut Store,
    id: u64,
    progress: CheckProgress,
    out: &mut TurnOut,
) -> Result<(), TurnError>
    ensures { Refines result (checks_announced (progressed store.old.client.settings id progress store.old.activities.checks) (record { state = store.old; out = out.old })) store.new out.new }
{
    let told = store
        .activities
        .checks
        .take(store.client.settings(), id, progress)?;
    tell_all(store, told, out)
}
