// What a job comes to.
ghost use Rattle.std.specs.Prelude.{◌≡◌, ◌≤◌, ◌<◌, true, None, Some, map, IfOk, IfErr, MatchResult};
ghost use Rattle.std.specs.List.{AllZip};
ghost use Rattle.analysis_host.specs.Answers.{answer, IsAnswerTo};
ghost use Rattle.analysis_host.specs.Polls.{HasPolled};
ghost use Rattle.session_port.specs.Jobs.{fits_kind};
ghost use Rattle.session_port.specs.Kinds.{asks_analysis};
ghost use Rattle.session_port.specs.Honest.{IsResultOf};
ghost use Rattle.session_port.specs.Runs.{IfCancelled, StopsAsking, UnlessNoMemory};

use crate::asking::{ask_all, ask_alone, asks_of};
use crate::job::{Job, JobResult};
use crate::joining::joined;
use analysis_host::{Analysis, Answer, Ask, Cancel, GlobalStateSnapshot};
use plain::Items;
use std::alloc::Global;

/// The answers to a job's questions, in order, or else how it ends. A job that asks one question stops within it alone.
fn answers_to<A: Analysis, C: Cancel>(
    alloc: Global,
    snapshot: &GlobalStateSnapshot,
    asks: Items<Ask>,
    analysis: &A,
    cancel: &mut C,
) -> Result<Items<Answer>, JobResult>
    requires floor { snapshot.now.revision ≤ C.floor cancel.old }
    requires usable { C.held cancel.old ≡ None }
    ensures found { IfOk result (λ answers. map (A.answer snapshot.now) asks ≡ map answer answers) }
    ensures kinds { IfOk result (AllZip IsAnswerTo asks) }
    ensures stops { IfErr result (StopsAsking (map (A.answer snapshot.now) asks)) }
    ensures held { IfErr result (λ end. IfCancelled end (λ saw. C.held cancel.new ≡ Some saw)) }
    ensures above { IfErr result (λ end. IfCancelled end (λ saw. C.floor cancel.old < saw)) }
    ensures polled { MatchResult result (λ _. HasPolled (C.polls cancel.old) (C.polls cancel.new)) (λ end. UnlessNoMemory end (HasPolled (C.polls cancel.old) (C.polls cancel.new))) }
    ensures key { C.key cancel.new ≡ C.key cancel.old }
    ensures floor_stays { C.floor cancel.new ≡ C.floor cancel.old }
{
    match asks.as_slice() {
        [ask] => ask_alone(alloc, snapshot, ask, analysis, cancel),
        _ => ask_all(alloc, snapshot, asks, analysis, cancel),
    }
}

/// Runs a job for which the analysis is asked: its result on its snapshot, unless a poll says that it is out of date, within a question
/// or between two of them.
#[tactic(auto, using(crate::proofs::Questions::value_is, crate::proofs::Questions::end_is, crate::proofs::Questions::end_fits, crate::proofs::Joined::joined_fits))]
pub fn run_job<A: Analysis, C: Cancel>(
    alloc: Global,
    job: &Job,
    analysis: &A,
    cancel: &mut C,
) -> JobResult
    requires asked { asks_analysis job.now.kind ≡ true }
    requires floor { job.now.snapshot.revision ≤ C.floor cancel.old }
    requires usable { C.held cancel.old ≡ None }

    // The value or the fault of its questions; cancelled only with the number that a poll of this call gave.
    ensures is { IsResultOf A.answer job.now result }
    ensures held { IfCancelled result (λ saw. C.held cancel.new ≡ Some saw) }
    ensures above { IfCancelled result (λ saw. C.floor cancel.old < saw) }
    // Its value is of the job's kind, its JSON is plain, and its lists are those of the job's files.
    ensures fits { fits_kind job.now.kind result ≡ true }

    ensures polled { UnlessNoMemory result (HasPolled (C.polls cancel.old) (C.polls cancel.new)) }
    ensures key { C.key cancel.new ≡ C.key cancel.old }
    ensures floor_stays { C.floor cancel.new ≡ C.floor cancel.old }
{
    let Ok(asks) = asks_of(alloc, &job.kind) else {
        return JobResult::NoMemory;
    };
    match answers_to(alloc, &job.snapshot, asks, analysis, cancel) {
        Ok(answers) => match joined(alloc, &job.kind, answers) {
            Ok(value) => JobResult::Value(value),
            Err(_) => JobResult::NoMemory,
        },
        Err(end) => end,
    }
}
