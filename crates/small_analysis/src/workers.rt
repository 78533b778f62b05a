// Jobs of the small analysis, answered in threads.
ghost use Rattle.std.specs.Prelude.{IfOk};
ghost use Rattle.task_pool.specs.Starts.{IsStarted};

use crate::analysis::SmallAnalysis;
use analysis_host::Analysis;
use plain::NoMemory;
use std::alloc::Global;
use std::sync::{Arc, Wait};
use std::thread::Threads;
use task_pool::{Assignment, StartsWorkers, Worker, start};

impl<R: Threads + Wait + 'static> StartsWorkers<R> for SmallAnalysis {
    fn start_worker(
        rt: &R,
        alloc: Global,
        analysis: Arc<SmallAnalysis, Global>,
        assignment: Assignment,
    ) -> Result<Worker, NoMemory>
        ensures { IfOk result (IsStarted ⟦<SmallAnalysis as Analysis>⟧.answer assignment) }
    {
        start(rt, alloc, analysis, assignment)
    }
}
