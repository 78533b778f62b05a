//! A worker: a thread that answers one job.
ghost use Rattle.std.specs.Prelude.{◌≡◌, ◌≤◌, ◌<◌, true, false, None, Some, IfOk};
ghost use Rattle.std.specs.Arc.{arc_value};
ghost use Rattle.analysis_host.specs.Polls.{HasPolled};
ghost use Rattle.session_port.specs.Jobs.{fits_kind};
ghost use Rattle.session_port.specs.Kinds.{asks_analysis};
ghost use Rattle.session_port.specs.Honest.{IsResultOf};
ghost use Rattle.session_port.specs.Runs.{IfCancelled, UnlessNoMemory};
ghost use Rattle.task_pool.specs.Ends.{end_of};
ghost use Rattle.task_pool.specs.Kept.{IsReport};
ghost use Rattle.task_pool.specs.Starts.{IsStarted, IsWorkerOf};

use crate::assignment::Assignment;
use crate::expected::{Token, expect};
use crate::leave::Leave;
use analysis_host::{Analysis, Cancel};
use atomic_revision::RevisionCancel;
use inbox::{Inbox, Refusal, WorkerEnd};
use plain::NoMemory;
use session_port::{Job, JobResult, run_job, small_project};
use std::alloc::{AllocError, Global};
use std::snapshot::Snapshot;
use std::sync::{Arc, Wait};
use std::thread;
use std::thread::{Promise, PromisedHandle, Threads};

/// What a worker gives back: the result of its job, with the seat and the end that it was lent.
#[derive(Drop)]
pub struct Report {
    pub result: JobResult,
    pub cancel: RevisionCancel,
    pub end: WorkerEnd,
}

/// What a worker promises: a result of this job, whose questions come to this, with the seat of this job and an end of this inbox.
#[derive(Drop)]
pub struct Promised {
    pub expected: Snapshot<Token>,
    pub job: Snapshot<Job>,
    pub cancel: Snapshot<RevisionCancel>,
    pub inbox: Snapshot<Arc<Inbox, Global>>,
}

impl Promise<Report> for Promised {
    ghost use Rattle.std.specs.Arc.{arc_value};
    ghost use Rattle.task_pool.specs.Kept.{IsReport};

    ghost kept_by = { λ p r. IsReport p.expected.value.me.0.end p.job.value p.cancel.value (arc_value p.inbox.value).queue r };
}

/// A worker as it was started: in a thread, or, where no thread could be made, on the caller.
#[derive(Drop)]
pub enum Worker {
    Running(PromisedHandle<Report, Promised>),
    Ended(Report),
}

/// An analysis whose jobs may be answered in threads of their own. A trait's method can't start a thread whose analysis is a type parameter,
/// so each analysis says by itself how that is done: by one call of `start`.
pub trait StartsWorkers<R: Threads + Wait + 'static>: Analysis {
    /// Starts a worker.
    fn start_worker(
        rt: &R,
        alloc: Global,
        analysis: Arc<Self, Global>,
        assignment: Assignment,
    ) -> Result<Worker, NoMemory>
        ensures { IfOk result (IsStarted Self.answer assignment) };
}

/// What a job comes to: one for which the analysis is asked by the analysis, one of the host's own by the small project.
fn result_of<A: Analysis, C: Cancel>(
    alloc: Global,
    job: &Job,
    analysis: &A,
    cancel: &mut C,
) -> JobResult
    requires floor { job.now.snapshot.revision ≤ C.floor cancel.old }
    requires usable { C.held cancel.old ≡ None }
    ensures is { IsResultOf A.answer job.now result }
    ensures fits { fits_kind job.now.kind result ≡ true }
    ensures held { IfCancelled result (λ saw. C.held cancel.new ≡ Some saw) }
    ensures polled { asks_analysis job.now.kind ≡ true → UnlessNoMemory result (HasPolled (C.polls cancel.old) (C.polls cancel.new)) }
    ensures key { C.key cancel.new ≡ C.key cancel.old }
{
    if job.kind.asks_analysis() {
        run_job(alloc, job, analysis, cancel)
    } else {
        small_project(alloc, job, job.snapshot.workspaces().len())
    }
}

/// Answers a job, and posts its number; on the caller, of which `refusal` tells, it leaves the posting to the caller.
fn work<R: Wait, A: Analysis>(
    leave: Leave<R>,
    alloc: Global,
    analysis: Arc<A, Global>,
    job: Job,
    mut cancel: RevisionCancel,
    mut end: WorkerEnd,
    refusal: Refusal,
) -> Report
    requires floor { job.snapshot.revision ≤ cancel.floor }
    requires fresh { (cancel.seen ≡ None) × (cancel.seat.me.0.loads ≡ 0) }
    ensures { IsReport (end_of A.answer job) job cancel (arc_value end.inbox).queue result }
{
    let number = job.number;
    let result = result_of(alloc, &job, &*analysis, &mut cancel);
    // What it holds of the session's world is let go before the host is told.
    drop(job);
    drop(analysis);
    if !refusal.is_noted() {
        end.report_surely(&leave, number);
    }
    Report {
        result,
        cancel,
        end,
    }
}

/// Starts a worker. Where no thread can be made, the job is answered on the caller, before this returns.
pub fn start<R: Threads + Wait + 'static, A: Analysis + Send + Sync + 'static>(
    rt: &R,
    alloc: Global,
    analysis: Arc<A, Global>,
    assignment: Assignment,
) -> Result<Worker, NoMemory>
    ensures { IfOk result (IsStarted A.answer assignment) }
{
    let Assignment { job, cancel, end } = assignment;
    let expected = expect::<A>(alloc, &job)?;
    let promise = Promised {
        expected: Snapshot::of(&expected),
        job: Snapshot::of(&job),
        cancel: Snapshot::of(&cancel),
        inbox: Snapshot::of(&end.inbox),
    };
    let number = job.number;
    let refusal = Refusal::new(alloc)?;
    let theirs = refusal.again()?;
    let leave = Leave::of(rt);
    match thread::spawn_with(rt, promise, move || {
        work(leave, alloc, analysis, job, cancel, end, theirs)
    }) {
        Ok(handle) => Ok(Worker::Running(handle)),
        Err(refused) => {
            refusal.note();
            let mut report = (refused.value)();
            match report.end.report(rt, number) {
                Ok(()) => Ok(Worker::Ended(report)),
                Err(_) => Err(AllocError),
            }
        }
    }
}

/// What a worker came to.
pub fn join<R: Threads, A: Analysis>(
    rt: &R,
    worker: Worker,
    job: Snapshot<Job>,
    cancel: Snapshot<RevisionCancel>,
    inbox: &Inbox,
) -> Report
    requires { IsWorkerOf A.answer job.value cancel.value inbox.now.queue worker }
    ensures { IsReport (end_of A.answer job.value) job.value cancel.value inbox.now.queue result }
{
    match worker {
        Worker::Running(handle) => handle.join(rt),
        Worker::Ended(report) => report,
    }
}
