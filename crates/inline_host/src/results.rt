// What a job comes to where nothing cancels it.
ghost use Rattle.std.specs.Prelude.{◌≡◌, true, false, length};
ghost use Rattle.session_port.specs.Jobs.{fits_kind};
ghost use Rattle.session_port.specs.Kinds.{asks_analysis};
ghost use Rattle.session_port.specs.Honest.{IsResultOf};
ghost use Rattle.session_port.specs.Runs.{IsUncancelled};
ghost use Rattle.session_port.specs.SmallProject.{IsSmall};

use analysis_host::{Analysis, Never};
use session_port::{Job, JobResult, run_job, small_project};
use std::alloc::Global;

/// The result of a job that nothing cancels. One of the host's own is of a project of which nothing is known but where it lies.
pub fn result_of<A: Analysis>(alloc: Global, job: &Job, analysis: &A) -> JobResult
    ensures is { IsResultOf A.answer job.now result }
    ensures uncancelled { IsUncancelled result }
    ensures fits { fits_kind job.now.kind result ≡ true }
    ensures project { asks_analysis job.now.kind ≡ false → IsSmall job.now.kind (length job.now.snapshot.workspaces) result }
{
    if !job.kind.asks_analysis() {
        return small_project(alloc, job, job.snapshot.workspaces().len());
    }
    // A revision fits 64 bits.
    let _revision = job.snapshot.revision();
    run_job(alloc, job, analysis, &mut Never::new())
}
