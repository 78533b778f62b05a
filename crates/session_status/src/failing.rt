// Whether the last fetch or the last builds failed, asked without the texts that are told of it.
ghost use Rattle.std.specs.Prelude.{◌≡◌, Some, is_some};
ghost use Rattle.std.specs.List.{list_any};
ghost use Rattle.reload.specs.Errors.{build_error, fetch_error};
ghost use Rattle.session_model.specs.Status.{has_build_error, has_fetch_error};
ghost use Rattle.session_status.specs.Failures.{has_failed, has_failed_build};

use plain::Text;
use project_model::{BuildScripts, ProjectWorkspace};
use ra_config::Config;
use session_store::discovers;
use workspaces::Workspaces;

fn has_failed(fetched: &Result<ProjectWorkspace, Text>) -> bool
    ensures { result ≡ has_failed fetched.now }
{
    fetched.is_err()
}

// Whether one of these couldn't be fetched.
fn have_failed(found: &[Result<ProjectWorkspace, Text>]) -> bool
    ensures { result ≡ list_any has_failed found.now }
{
    found.iter().any(|fetched| has_failed(fetched))
}

// Whether a fetch that found these failed.
#[tactic(auto, using(crate::proofs::Failures::nothing_found))]
fn fetch_fails(found: &[Result<ProjectWorkspace, Text>], discovers: bool) -> bool
    ensures { result ≡ is_some (fetch_error (Some found.now) discovers) }
{
    if found.is_empty() {
        return !discovers;
    }
    have_failed(found)
}

/// Whether the last fetch failed.
pub(crate) fn has_fetch_error(settings: &Config, workspaces: &Workspaces) -> bool
    ensures { result ≡ has_fetch_error settings.now workspaces.now }
{
    match workspaces.last_fetch() {
        None => false,
        Some(last) => fetch_fails(last.workspaces.as_slice(), discovers(settings)),
    }
}

fn has_failed_build(run: &Result<BuildScripts, Text>) -> bool
    ensures { result ≡ has_failed_build run.now }
{
    match run {
        Ok(scripts) => scripts.error.is_some(),
        Err(_) => true,
    }
}

// Whether one of these failed.
fn have_failed_builds(runs: &[Result<BuildScripts, Text>]) -> bool
    ensures { result ≡ list_any has_failed_build runs.now }
{
    runs.iter().any(|run| has_failed_build(run))
}

// Whether a run of build data that made these failed.
fn builds_fail(runs: &[Result<BuildScripts, Text>]) -> bool
    ensures { result ≡ is_some (build_error (Some runs.now)) }
{
    have_failed_builds(runs)
}

/// Whether some of the last builds failed.
pub(crate) fn has_build_error(workspaces: &Workspaces) -> bool
    ensures { result ≡ has_build_error workspaces.now }
{
    match workspaces.last_build() {
        None => false,
        Some(last) => builds_fail(last.runs.as_slice()),
    }
}
