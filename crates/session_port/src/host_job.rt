// What a job of the host's own comes to where no build system is run.
ghost use Rattle.std.specs.Prelude.{◌≡◌, Ok, Some, map, true, false, IfOk};
ghost use Rattle.analysis_host.specs.Answers.{OutcomeSpec};
ghost use Rattle.analysis_host.specs.SnapshotData.{SnapshotData};
ghost use Rattle.analysis_host.specs.declared.ask.Ask.{Ask};
ghost use Rattle.session_port.specs.Honest.{IsResultOf};
ghost use Rattle.session_port.specs.Jobs.{fits_kind};
ghost use Rattle.session_port.specs.Kinds.{asks_analysis};
ghost use Rattle.session_port.specs.Runs.{IsUncancelled};
ghost use Rattle.session_port.specs.SmallProject.{IsSmall, small_value};

use crate::job::{Job, JobKind, JobResult, JobValue};
use plain::{Items, NoMemory, Text};
use small_project::{macros_of, scripts_of, workspaces_of};
use std::alloc::Global;

/// What a job of the host's own comes to for a project of which nothing is known but where it lies: one workspace for each manifest or
/// inline project, no output of a build script for each of so many workspaces, no proc macro.
pub fn small_project(alloc: Global, job: &Job, workspaces: usize) -> JobResult
    requires { asks_analysis job.now.kind ≡ false }
    ensures is { IsSmall job.now.kind workspaces result }
    // It is a result that the job may have, whatever the analysis answers.
    ensures honest { (answer : SnapshotData → Ask → OutcomeSpec) → IsResultOf answer job.now result }
    ensures fits { fits_kind job.now.kind result ≡ true }
    ensures uncancelled { IsUncancelled result }
{
    match value_of(alloc, &job.kind, workspaces) {
        Ok(value) => JobResult::Value(value),
        Err(NoMemory) => JobResult::NoMemory,
    }
}

fn value_of(alloc: Global, kind: &JobKind, workspaces: usize) -> Result<JobValue, NoMemory>
    requires { asks_analysis kind.now ≡ false }
    ensures { IfOk result (λ value. small_value kind.now workspaces ≡ Some value) }
{
    match kind {
        JobKind::FetchWorkspaces { projects, .. } => Ok(JobValue::Workspaces(each_ok(
            alloc,
            workspaces_of(alloc, projects.as_slice())?,
        )?)),
        JobKind::FetchBuildData { .. } => Ok(JobValue::BuildData(each_ok(
            alloc,
            scripts_of(alloc, workspaces)?,
        )?)),
        JobKind::LoadProcMacros { .. } => Ok(JobValue::ProcMacros(macros_of(alloc))),
        _ => unreachable!(),
    }
}

/// The items as results, none of which failed.
fn each_ok<T: Drop>(alloc: Global, items: Items<T>) -> Result<Items<Result<T, Text>>, NoMemory>
    ensures { IfOk result (λ results. results ≡ map Ok items) }
{
    let mut results = Items::new(alloc);
    for item in items.into_vec() {
        results.push(Ok(item))?;
    }
    Ok(results)
}
