//! A worker with the job that it was started for, and what becomes of it.
ghost use Rattle.std.specs.Prelude.{◌≡◌, ◌≤◌, ℕ, true, Some, IfOk, IfSome, OnOk, OnErr};
ghost use Rattle.std.specs.Arc.{arc_value};
ghost use Rattle.std.specs.FinMap as map;
ghost use Rattle.session_port.specs.Jobs.{fits_kind};
ghost use Rattle.session_port.specs.Honest.{IsResultOf};
ghost use Rattle.session_port.specs.Runs.{IfCancelled};
ghost use Rattle.task_pool.specs.Employs.{EndsAs, Hires, IsAtWork, IsEmployed};
ghost use Rattle.task_pool.specs.declared.employed.Employed.{Employed as Hired};

use crate::assignment::Assignment;
use crate::worker;
use crate::worker::{Report, StartsWorkers, Worker};
use analysis_host::Analysis;
use atomic_revision::{RevisionCancel, Writer};
use inbox::HostEnd;
use method_table::PoolClass;
use plain::{ByNumber, NoMemory};
use session_port::{Job, JobResult};
use std::alloc::Global;
use std::snapshot::Snapshot;
use std::sync::{Arc, Wait};
use std::thread::Threads;

/// A worker with the job that it was started for.
#[derive(Drop)]
pub struct Employed {
    pub class: PoolClass,
    pub job: Snapshot<Job>,
    pub cancel: Snapshot<RevisionCancel>,
    pub worker: Worker,
}

/// Starts a worker on a job, with a seat at the word and an end of the inbox.
pub fn employ<R: Threads + Wait + 'static, A: StartsWorkers<R>>(
    rt: &R,
    alloc: Global,
    inbox: &mut HostEnd,
    word: &mut Writer,
    analysis: &Arc<A, Global>,
    job: Job,
) -> Result<Employed, NoMemory>
    ensures employed { IfOk result (IsEmployed A.answer (arc_value inbox.old.inbox).queue (arc_value word.old.word).table.shared.table_id job) }
    ensures inbox { (inbox.new.pass.me.view.client ≡ inbox.old.pass.me.view.client) × (inbox.new.inbox ≡ inbox.old.inbox) }
    ensures word { (word.new.word ≡ word.old.word) × (word.new.number ≡ word.old.number) }
{
    let class = job.class;
    let its = Snapshot::of(&job);
    let cancel = word.cancel(job.snapshot.revision())?;
    let looks = Snapshot::of(&cancel);
    let end = inbox.worker()?;
    let assignment = Assignment { job, cancel, end };
    let worker = A::start_worker(rt, alloc, Arc::try_clone(analysis)?, assignment)?;
    Ok(Employed {
        class,
        job: its,
        cancel: looks,
        worker,
    })
}

/// Joins a worker, and takes its seat and its end in.
pub fn collect<R: Threads, A: Analysis>(
    rt: &R,
    inbox: &mut HostEnd,
    word: &mut Writer,
    employed: Employed,
) -> JobResult
    requires { IsEmployed A.answer (arc_value inbox.old.inbox).queue (arc_value word.old.word).table.shared.table_id employed.job.value employed }
    ensures is { IsResultOf A.answer employed.job.value result }
    ensures fits { fits_kind employed.job.value.kind result ≡ true }
    // It saw no revision that the word did not hold.
    ensures saw { IfCancelled result (λ saw. saw ≤ word.old.number) }
    ensures inbox { (inbox.new.pass.me.view.client ≡ inbox.old.pass.me.view.client) × (inbox.new.inbox ≡ inbox.old.inbox) }
    ensures word { (word.new.word ≡ word.old.word) × (word.new.number ≡ word.old.number) }
{
    let Employed {
        class: _,
        job,
        cancel,
        worker,
    } = employed;
    let Report {
        result,
        cancel,
        end,
    } = worker::join::<R, A>(rt, worker, job, cancel, &inbox.inbox);
    inbox.close(end);
    word.join(cancel);
    result
}

/// Starts a worker on a job, and keeps it by this number: the job's class.
pub fn hire<R: Threads + Wait + 'static, A: StartsWorkers<R>>(
    rt: &R,
    alloc: Global,
    inbox: &mut HostEnd,
    word: &mut Writer,
    analysis: &Arc<A, Global>,
    running: &mut ByNumber<Employed>,
    number: u64,
    job: &Job,
) -> Result<PoolClass, NoMemory>
    ensures ok { OnOk result (Hires A.answer (arc_value inbox.old.inbox).queue (arc_value word.old.word).table.shared.table_id number job.now running.old running.new) }
    ensures err { OnErr result (running.new ≡ running.old) }
    ensures inbox { (inbox.new.pass.me.view.client ≡ inbox.old.pass.me.view.client) × (inbox.new.inbox ≡ inbox.old.inbox) }
    ensures word { (word.new.word ≡ word.old.word) × (word.new.number ≡ word.old.number) }
{
    let job = job.clone()?;
    let employed = employ(rt, alloc, inbox, word, analysis, job)?;
    let class = employed.class;
    running.insert(number, employed)?;
    Ok(class)
}

/// Joins the worker that is kept by this number, if there is one: its job's class and result.
pub fn dismiss<R: Threads, A: Analysis>(
    rt: &R,
    inbox: &mut HostEnd,
    word: &mut Writer,
    running: &mut ByNumber<Employed>,
    number: u64,
) -> Option<(PoolClass, JobResult)>
    requires at_work { (e : Hired) → map.get running.old number ≡ Some e → IsAtWork A.answer (arc_value inbox.old.inbox).queue (arc_value word.old.word).table.shared.table_id e }
    ensures running { running.new ≡ map.remove running.old number }
    ensures end { IfSome result (λ r. (e : Hired) × (map.get running.old number ≡ Some e) × EndsAs A.answer word.old.number e.job.value r.1) }
    ensures inbox { (inbox.new.pass.me.view.client ≡ inbox.old.pass.me.view.client) × (inbox.new.inbox ≡ inbox.old.inbox) }
    ensures word { (word.new.word ≡ word.old.word) × (word.new.number ≡ word.old.number) }
{
    let Some(employed) = running.remove(number) else {
        return None;
    };
    let class = employed.class;
    let result = collect::<R, A>(rt, inbox, word, employed);
    Some((class, result))
}

/// Joins a worker of which nothing is asked.
pub fn let_go<R: Threads>(rt: &R, employed: Employed) {
    let Employed {
        class: _,
        job: _,
        cancel: _,
        worker,
    } = employed;
    match worker {
        Worker::Running(handle) => drop(handle.join(rt)),
        Worker::Ended(report) => drop(report),
    }
}
