// Whether there is anything to tell but whether the session is quiescent. In most turns there isn't, and then no status is made.
ghost use Rattle.std.specs.Prelude.{◌≡◌, IfOk, IsTrue, [], None, false, true};
ghost use Rattle.std.specs.List.{list_all};
ghost use Rattle.project_model.specs.Msrv.{msrv_texts};
ghost use Rattle.status.specs.Same.{is_same_status};
ghost use Rattle.client.specs.Texts.{errors_told};
ghost use Rattle.session_model.specs.Status.{facts_known, has_build_error, has_fetch_error, is_quiescent, lacks_projects, needs_reload, status_now};
ghost use Rattle.session_status.specs.Well.{IsWell, has_no_error, well_status};

use crate::failing::{has_build_error, has_fetch_error};
use crate::telling::{lacks_projects, needs_reload};
use activities::Checks;
use plain::NoMemory;
use project_model::{ProjectWorkspace, check_workspaces_msrv};
use ra_config::Config;
use session_model::{Client, SessionFiles};
use session_store::is_quiescent;
use status::{Health, Status};
use std::alloc::Global;
use workspaces::Workspaces;

fn has_no_error(workspace: &ProjectWorkspace) -> bool
    ensures { result ≡ has_no_error workspace.now }
{
    !workspace.error.is_some()
        && !workspace.sysroot_error.is_some()
        && !workspace.sysroot_metadata_error.is_some()
        && !workspace.rustc_error.is_some()
}

fn have_no_errors(workspaces: &[ProjectWorkspace]) -> bool
    ensures { result ≡ list_all has_no_error workspaces.now }
{
    workspaces.iter().all(|workspace| has_no_error(workspace))
}

// Whether no workspace has an error or an outdated toolchain.
fn are_workspaces_well(alloc: Global, workspaces: &[ProjectWorkspace]) -> Result<bool, NoMemory>
    ensures outdated { IfOk result (λ well. IsTrue well → msrv_texts workspaces.now ≡ []) }
    ensures errors { IfOk result (λ well. IsTrue well → list_all has_no_error workspaces.now ≡ true) }
{
    let outdated = check_workspaces_msrv(alloc, workspaces)?;
    Ok(outdated.is_empty() && have_no_errors(workspaces))
}

// Whether the settings have no errors, and name projects.
fn are_settings_well(alloc: Global, client: &Client) -> Result<bool, NoMemory>
    ensures errors { IfOk result (λ well. IsTrue well → errors_told client.now.errors ≡ None) }
    ensures projects { IfOk result (λ well. IsTrue well → lacks_projects client.now.settings ≡ false) }
{
    let errors = client.errors_text()?;
    let lacks = lacks_projects(alloc, client.settings())?;
    Ok(errors.is_none() && !lacks)
}

// Whether the last fetch and the last builds have no errors.
fn are_runs_well(settings: &Config, workspaces: &Workspaces) -> bool
    ensures builds { IsTrue result → has_build_error workspaces.now ≡ false }
    ensures fetch { IsTrue result → has_fetch_error settings.now workspaces.now ≡ false }
{
    !has_build_error(workspaces) && !has_fetch_error(settings, workspaces)
}

// Whether nothing has to be loaded or built anew.
fn is_up_to_date(settings: &Config, files: &SessionFiles, workspaces: &Workspaces) -> bool
    ensures reload { IsTrue result → needs_reload settings.now files.now workspaces.now ≡ false }
    ensures rebuild { IsTrue result → workspaces.now.build_deps_changed ≡ false }
{
    !needs_reload(settings, files, workspaces) && !workspaces.have_build_deps_changed()
}

// Whether no check has failed.
fn are_checks_well(checks: &Checks) -> bool
    ensures { IsTrue result → checks.now.error ≡ None }
{
    checks.error().is_none()
}

// Whether none of the facts of a status is told.
fn is_well(
    alloc: Global,
    client: &Client,
    files: &SessionFiles,
    workspaces: &Workspaces,
    checks: &Checks,
) -> Result<bool, NoMemory>
    ensures { IfOk result (λ well. IsTrue well → IsWell (facts_known client.now files.now workspaces.now checks.now)) }
{
    let settings = client.settings();
    if !is_up_to_date(settings, files, workspaces)
        || !are_runs_well(settings, workspaces)
        || !are_checks_well(checks)
    {
        return Ok(false);
    }
    let settings = are_settings_well(alloc, client)?;
    let workspaces = are_workspaces_well(alloc, workspaces.present())?;
    Ok(settings && workspaces)
}

/// Whether the status of the present is the one that was told last, and tells nothing; false where that isn't plain.
#[tactic(auto, using(crate::proofs::Told::same_where), unfolding(session_model::specs::Status::status_now))]
pub(crate) fn is_told(
    alloc: Global,
    client: &Client,
    files: &SessionFiles,
    workspaces: &Workspaces,
    checks: &Checks,
    last: &Status,
) -> Result<bool, NoMemory>
    ensures { IfOk result (λ told. IsTrue told → is_same_status last.now (status_now client.now files.now workspaces.now checks.now) ≡ true) }
{
    let well = Status {
        health: Health::Ok,
        quiescent: is_quiescent(files, workspaces),
        message: None,
    };
    if !last.is_same(&well) {
        return Ok(false);
    }
    is_well(alloc, client, files, workspaces, checks)
}
