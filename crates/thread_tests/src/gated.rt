// An analysis whose queries wait.
ghost use Rattle.std.specs.Prelude.{◌≡◌, None, IfOk};
ghost use Rattle.analysis_host.specs.Polls.{HasPolled};
ghost use Rattle.task_pool.specs.Starts.{IsStarted};

use crate::flags::{Flag, LOOKS};
use analysis_host::{
    Analysis, Answer, Ask, Cancel, GlobalStateSnapshot, Outcome, RowId, ServerInfo,
};
use method_table::{CODE_LENS_RESOLVE, HOVER};
use plain::{Items, Json};
use std::alloc::{AllocError, Global};
use std::sync::{Arc, Wait};
use std::thread;
use std::thread::Threads;
use task_pool::{Assignment, StartsWorkers, Worker, start};

/// Answers null to all. A hover waits for the flag first, and to resolve a code lens it polls until
/// a later revision is there.
#[derive(Drop)]
pub struct Gated {
    pub alloc: Global,
    pub flag: Flag,
}

/// Polls until a later revision is there, and answers it.
fn outdated_by<C: Cancel>(cancel: &mut C) -> Option<u64>
    requires usable { C.held cancel.old ≡ None }
    ensures held { C.held cancel.new ≡ result }
    ensures polled { HasPolled (C.polls cancel.old) (C.polls cancel.new) }
    ensures key { C.key cancel.new ≡ C.key cancel.old }
    ensures floor { C.floor cancel.new ≡ C.floor cancel.old }
{
    if let Some(saw) = cancel.poll() {
        return Some(saw);
    }
    for _ in 0..LOOKS {
        thread::yield_now();
        if let Some(saw) = cancel.poll() {
            return Some(saw);
        }
    }
    None
}

/// Waits or polls as the question's row wants it, and answers the revision that a poll gave.
fn waited_for<C: Cancel>(flag: &Flag, ask: &Ask, cancel: &mut C) -> Option<u64>
    requires usable { C.held cancel.old ≡ None }
    ensures held { C.held cancel.new ≡ result }
    ensures polled { HasPolled (C.polls cancel.old) (C.polls cancel.new) }
    ensures key { C.key cancel.new ≡ C.key cancel.old }
    ensures floor { C.floor cancel.new ≡ C.floor cancel.old }
{
    match ask {
        Ask::Request { row, .. } if *row == CODE_LENS_RESOLVE => outdated_by(cancel),
        Ask::Request { row, .. } if *row == HOVER => {
            flag.wait();
            cancel.poll()
        }
        _ => cancel.poll(),
    }
}

impl Analysis for Gated {
    ghost use Rattle.std.specs.Prelude.{true};
    ghost use Rattle.host_fakes.specs.Null.{null_answer, null_info};

    ghost decodes = { λ _ _. true };

    ghost answer = { λ _ ask. null_answer ask };

    ghost server_info = { null_info };

    fn decodes(&self, _row: RowId, _params: &Json) -> bool {
        true
    }

    #[tactic(auto, unfolding(plain::specs::Plain::most_levels))]
    fn server_info(alloc: Global) -> Result<ServerInfo, AllocError> {
        ServerInfo::new(alloc, "null", "1")
    }

    fn query<C: Cancel>(
        &self,
        _snapshot: &GlobalStateSnapshot,
        ask: &Ask,
        cancel: &mut C,
    ) -> Result<Outcome, AllocError> {
        if let Some(saw) = waited_for(&self.flag, ask, cancel) {
            return Ok(Outcome::Cancelled { saw });
        }
        Ok(Outcome::Value(match ask {
            Ask::Request { .. } | Ask::Part { .. } => Answer::Json(Json::null()),
            Ask::Syntax(_) | Ask::Semantic(_) => Answer::Diagnostics(Items::new(self.alloc)),
            Ask::Tests(_) => Answer::Tests(Items::new(self.alloc)),
            Ask::CratesOf(_) => Answer::Roots(Items::new(self.alloc)),
            Ask::Prime => Answer::Primed,
        }))
    }
}

impl<R: Threads + Wait + 'static> StartsWorkers<R> for Gated {
    fn start_worker(
        rt: &R,
        alloc: Global,
        analysis: Arc<Gated, Global>,
        assignment: Assignment,
    ) -> Result<Worker, AllocError>
        ensures { IfOk result (IsStarted ⟦<Gated as Analysis>⟧.answer assignment) }
    {
        start(rt, alloc, analysis, assignment)
    }
}
