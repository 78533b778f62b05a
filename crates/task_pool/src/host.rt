//! The host.
ghost use Rattle.std.specs.Prelude.{◌≡◌, ◌≤◌, ◌<◌, List, true, false, None, [], IsTrue, IfOk, IfErr, IfNone, IfSome, OnOk, OnErr, length, option_copied};
ghost use Rattle.std.specs.FinMap as map;
ghost use Rattle.inline_host.specs.Inline.{started};
ghost use Rattle.inline_host.specs.Orders.{after_commands, next_answer};
ghost use Rattle.session_port.specs.Events.{batch_in};
ghost use Rattle.session_port.specs.Honest.{IsHonest};
ghost use Rattle.session_port.specs.Record.{HasCause, AreRising, UnlessEnded, added, after_event, after_given, after_ok, after_order, gave, last_number, spawned, took};
ghost use Rattle.session_port.specs.declared.event.TaskMsg.{TaskMsg as Message};
ghost use Rattle.task_pool.specs.Finishing.{IsFinished};
ghost use Rattle.task_pool.specs.Revising.{after_revisions};
ghost use Rattle.inbox.specs.Given.{BeginsWith};
ghost use Rattle.task_pool.specs.Threaded.{Comes, IsOneResult, after_coming, after_giving};
ghost use Rattle.task_pool.specs.Waiting.{all_waiting, none_waiting};

use crate::crew::{Crew, Finished};
use crate::leave::Leave;
use crate::reading;
use crate::waiting::Waiting;
use crate::worker::StartsWorkers;
use analysis_host::Analysis;
use atomic_revision::Writer;
use host_orders::HostOrders;
use inbox::{Entry, HostEnd, open_inbox};
use inline_host::{NumberedJobs, RecordedCall, keep_orders, next_answer, record_event};
use method_table::PoolClass;
use plain::{ByNumber, Items, NoMemory};
use session_port::{
    Command, DeferredTask, Host, HostError, HostEvent, Job, Source, TaskBody, TaskMsg,
};
use std::alloc::Global;
use std::marker::{Model, PhantomData};
use std::sync::{Arc, Wait};
use std::thread::Threads;

/// The most threads beside the one for formatting.
pub const MOST_THREADS: u32 = 64;

/// It reads its source in a thread of its own, and answers each job in one that it starts for the job and joins by its number. Before
/// what comes from these it gives the answers to the settings of a loader, one event each, then the deferred tasks, then the newest timer.
pub struct ThreadedHost<R, S, A: Analysis> {
    alloc: Global,
    crew: Crew<R, A>,
    waiting: Waiting,
    // How many threads there may be, and how many of them are at work; and whether the one for formatting is.
    threads: u32,
    busy: u32,
    is_formatting: bool,
    orders: HostOrders<DeferredTask>,
    calls: Option<Items<RecordedCall>>,
    faults: u64,
    poisoned: bool,
    marker: PhantomData<S>,
}

impl<R: Drop, S, A: Analysis> Drop for ThreadedHost<R, S, A> {
    fn drop(self) {
        let ThreadedHost {
            alloc: _,
            crew: _,
            waiting: _,
            threads: _,
            busy: _,
            is_formatting: _,
            orders: _,
            calls: _,
            faults: _,
            poisoned: _,
            marker: _,
        } = self;
    }
}

impl<R, S, A: Analysis> Model for ThreadedHost<R, S, A> {
    ghost use Rattle.inline_host.specs.Codes.{call_code};
    ghost use Rattle.session_port.specs.contracts.command.Command as command;
    ghost use Rattle.session_port.specs.contracts.command.DeferredTask as task;
    ghost use Rattle.session_port.specs.contracts.event.HostEvent as event;
    ghost use Rattle.session_port.specs.contracts.job.Job as job;
    ghost use Rattle.task_pool.specs.Codes.{threaded_code};
    ghost use Rattle.task_pool.specs.Threaded.{ThreadedData};

    ghost Value = { ThreadedData };

    ghost coded = { threaded_code job.the_row.coded task.the_row.coded (call_code event.the_row.coded command.the_row.coded) };

    ghost view = { λ h. record { out = h.crew.out; last_job = h.crew.last_job; waiting = h.waiting; orders = h.orders; held = h.crew.held; taken = h.crew.taken; revision = h.crew.revision; calls = h.calls; faults = h.faults; poisoned = h.poisoned } };
}

/// Has the jobs wait that commands hand over.
fn queue_jobs(waiting: &mut Waiting, commands: &[Command]) -> Result<(), NoMemory> {
    for command in commands {
        if let Command::Spawn(job) = command {
            waiting.push(job.class, job.number)?;
        }
    }
    Ok(())
}

impl<R: Threads + Wait + Drop + 'static, S: Source + Send + 'static, A: Analysis> ThreadedHost<
    R,
    S,
    A,
> {
    /// A host that reads this source, and answers jobs by this analysis in so many threads and one more for formatting. It keeps a record
    /// of what it gives and takes if `keep` says so. Where the reader's thread can't be started, all is read before this returns.
    pub fn new(
        rt: R,
        alloc: Global,
        threads: u32,
        source: S,
        analysis: Arc<A, Global>,
        keep: bool,
    ) -> Result<Self, NoMemory>
        requires some { 1 ≤ threads }
        requires most { threads ≤ 64 }
        requires usable { S.poisoned source ≡ false }
        ensures jobs { IfOk result (λ h. (h.out ≡ map.empty) × (h.last_job ≡ 0) × (h.waiting ≡ none_waiting)) }
        ensures source { IfOk result (λ h. (h.held ≡ S.left source) × (h.taken ≡ [])) }
        ensures calls { IfOk result (λ h. h.calls ≡ started keep) }
        ensures rest { IfOk result (λ h. (h.revision ≡ 0) × (h.faults ≡ 0) × (h.poisoned ≡ false)) }
    {
        let (inbox, end) = open_inbox(&rt, alloc, &source)?;
        let word = Writer::new(alloc)?;
        let reader = reading::start(&rt, alloc, end, source)?;
        Ok(ThreadedHost {
            alloc,
            crew: Crew::new(rt, alloc, analysis, inbox, word, reader),
            waiting: Waiting::new(alloc),
            threads,
            busy: 0,
            is_formatting: false,
            orders: HostOrders::new(alloc),
            calls: keep.then(|| Items::new(alloc)),
            faults: 0,
            poisoned: false,
            marker: PhantomData,
        })
    }
}

impl<R: Threads + Wait + 'static, S, A: StartsWorkers<R>> ThreadedHost<R, S, A> {
    /// Takes a job, and starts it if a thread is free for its class.
    pub fn spawn(&mut self, job: Job) -> Result<(), NoMemory>
        requires { self.old.last_job < job.number }
        ensures out { OnOk result (self.new.out ≡ map.insert self.old.out job.number job) }
        ensures last_job { OnOk result (self.new.last_job ≡ job.number) }
        ensures same { (self.new.calls ≡ self.old.calls) × (self.new.faults ≡ self.old.faults) × (self.new.poisoned ≡ self.old.poisoned) }
    {
        self.waiting.push(job.class, job.number)?;
        self.crew.push(job)?;
        self.start_waiting()
    }

    /// How many jobs wait for a thread.
    pub fn len(&self) -> usize
        ensures { result ≡ length (all_waiting self.now.waiting) }
    {
        self.waiting.len()
    }

    pub fn is_empty(&self) -> bool
        ensures { result ≡ true → all_waiting self.now.waiting ≡ [] }
    {
        self.waiting.len() == 0
    }

    /// Starts the jobs that wait, as far as threads are free.
    fn start_waiting(&mut self) -> Result<(), NoMemory>
        ensures { self.new ≡ record self.old { waiting = self.new.waiting } }
    {
        for _ in 0..=MOST_THREADS {
            let has_thread = self.busy < self.threads;
            let Some(number) = self.waiting.take(has_thread, !self.is_formatting) else {
                break;
            };
            self.start(number)?;
        }
        Ok(())
    }

    /// Starts a worker for the job out with this number.
    fn start(&mut self, number: u64) -> Result<(), NoMemory>
        ensures { self.new ≡ self.old }
    {
        let class = self.crew.start(number)?;
        self.begin(class);
        Ok(())
    }

    /// Notes that a thread is at work on a job of this class, if there is one.
    fn begin(&mut self, class: Option<PoolClass>)
        ensures { self.new ≡ self.old }
    {
        match class {
            Some(PoolClass::Formatting) => self.is_formatting = true,
            Some(PoolClass::Latency | PoolClass::Worker) => self.busy = self.busy.saturating_add(1),
            None => {}
        }
    }

    /// Notes that the thread of a job of this class is free.
    fn end(&mut self, class: PoolClass)
        ensures { self.new ≡ self.old }
    {
        match class {
            PoolClass::Formatting => self.is_formatting = false,
            PoolClass::Latency | PoolClass::Worker => self.busy = self.busy.saturating_sub(1),
        }
    }

    /// Joins the worker that is done with the job of this number: its result, if there is such a worker.
    fn finish_job(&mut self, number: u64) -> Result<Option<HostEvent>, NoMemory>
        ensures result { IfOk result (λ event. IfSome event (λ e. (batch : List Message) × (e ≡ HostEvent.Tasks batch) × IsOneResult A.answer self.old.out self.old.revision batch)) }
        ensures same { self.new ≡ record self.old { waiting = self.new.waiting } }
    {
        let Some((class, result)) = self.crew.collect(number) else {
            return Ok(None);
        };
        self.end(class);
        self.start_waiting()?;
        let mut batch = Items::new(self.alloc);
        batch.push(TaskMsg {
            job: number,
            body: TaskBody::Final(result),
        })?;
        Ok(Some(HostEvent::Tasks(batch)))
    }

    /// What the oldest entry of the inbox comes to; none where it is no event.
    fn step(&mut self) -> Result<Option<HostEvent>, HostError>
        requires answered { next_answer self.old.orders ≡ None }
        requires usable { self.old.poisoned ≡ false }
        ensures none { IfOk result (λ event. IfNone event (self.new ≡ record self.old { waiting = self.new.waiting })) }
        ensures event { IfOk result (λ event. IfSome event (λ e. Comes A.answer self.old e × (self.new ≡ record (after_coming e self.old) { waiting = self.new.waiting }))) }
        ensures err { OnErr result (self.new ≡ record self.old { waiting = self.new.waiting; faults = self.new.faults; poisoned = self.new.poisoned }) }
        ensures cause { HasCause self.old.faults self.new.faults result }
    {
        match self.crew.wait() {
            Entry::Piece(bytes) => Ok(Some(HostEvent::Bytes(bytes))),
            Entry::Ended => {
                self.poisoned = true;
                Ok(Some(HostEvent::Ended))
            }
            Entry::Failed(_) => {
                self.faults = self.faults.saturating_add(1);
                self.poisoned = true;
                Err(HostError::Failed)
            }
            Entry::NoMemory => {
                self.poisoned = true;
                Err(HostError::NoMemory)
            }
            Entry::Done(number) => Ok(self.finish_job(number)?),
            Entry::Opened(_) => Ok(None),
        }
    }

    /// The event that comes next.
    fn coming(&mut self) -> Result<HostEvent, HostError>
        requires usable { self.old.poisoned ≡ false }
        ensures event { IfOk result (λ e. Comes A.answer self.old e × (self.new ≡ record (after_coming e self.old) { waiting = self.new.waiting })) }
        ensures err { OnErr result (self.new ≡ record self.old { orders = self.new.orders; waiting = self.new.waiting; faults = self.new.faults; poisoned = self.new.poisoned }) }
        ensures cause { HasCause self.old.faults self.new.faults result }
    {
        if let Some(event) = next_answer(self.alloc, &mut self.orders)? {
            return Ok(event);
        }
        let leave = self.crew.leave();
        for _ in leave.forever() {
            if let Some(event) = self.step()? {
                return Ok(event);
            }
        }
        unreachable!()
    }
}

impl<R, S, A: Analysis> ThreadedHost<R, S, A> {
    /// The calls so far that did not fail, if a record is kept.
    pub fn calls(&self) -> Option<&Items<RecordedCall>>
        ensures { option_copied result ≡ self.now.calls }
    {
        self.calls.as_ref()
    }

    /// The same, which are the caller's from now on. No record is kept any more.
    pub fn take_calls(&mut self) -> Option<Items<RecordedCall>>
        ensures calls { result ≡ self.old.calls }
        ensures left { self.new ≡ record self.old { calls = None } }
    {
        self.calls.take()
    }

    /// How often the source failed.
    pub fn faults(&self) -> u64
        ensures { result ≡ self.now.faults }
    {
        self.faults
    }
}

impl<R: Threads + Wait + Drop, S, A: Analysis> ThreadedHost<R, S, A> {
    /// Joins the reader and all workers, and says how many bytes were posted and given. It waits until the source has ended.
    pub fn finish(self) -> Finished
        ensures finished { IsFinished self.held self.taken result }
        ensures order { result.taken ≤ result.posted }
    {
        let ThreadedHost {
            alloc: _,
            crew,
            waiting: _,
            threads: _,
            busy: _,
            is_formatting: _,
            orders: _,
            calls: _,
            faults: _,
            poisoned: _,
            marker: _,
        } = self;
        crew.finish()
    }
}

impl<R: Threads + Wait + 'static, S, A: StartsWorkers<R>> Host<A> for ThreadedHost<R, S, A> {
    ghost out = { λ h. h.out };

    ghost last_job = { λ h. h.last_job };

    ghost honest = { λ _. true };

    ghost faults = { λ h. h.faults };

    ghost calls = { λ h. h.calls };

    ghost poisoned = { λ h. h.poisoned };

    ghost origin = { λ _. tt };

    fn next(&mut self) -> Result<HostEvent, HostError>
        requires usable { self.old.poisoned ≡ false }
        ensures usable { IfOk result (λ event. UnlessEnded event (self.new.poisoned ≡ false)) }
        ensures out { self.new.out ≡ after_given result self.old.out }
        ensures last_job { self.new.last_job ≡ self.old.last_job }
        ensures honest { IfOk result (λ event. IsTrue true → IsHonest A.answer self.old.out event) }
        ensures calls { self.new.calls
            ≡ after_ok result (λ event. added self.old.calls (gave event)) self.old.calls }
        ensures cause { HasCause self.old.faults self.new.faults result }

        // One take from the inbox, or one answer to an order that is due, is one event.
        ensures comes { IfOk result (Comes A.answer self.old) }
        ensures after { IfOk result (λ event. self.new ≡ after_giving event self.new.waiting self.old) }
        // What was given are the first of the bytes that the source held.
        ensures first { BeginsWith self.new.held self.new.taken }
        ensures held { self.new.held ≡ self.old.held }
        ensures revision { self.new.revision ≡ self.old.revision }
    {
        self.crew.begins();
        let event = self.coming()?;
        self.crew.begins();
        record_event(&mut self.calls, &event)?;
        self.crew.let_go(&event);
        Ok(event)
    }

    fn order(&mut self, commands: Items<Command>) -> Result<(), HostError>
        requires usable { self.old.poisoned ≡ false }
        requires rising { AreRising self.old.last_job (spawned commands) }
        ensures usable { IfOk result (λ _. self.new.poisoned ≡ false) }
        ensures out { IfOk result (λ _. self.new.out ≡ after_order commands self.old.out) }
        ensures last_job { IfOk result (λ _. self.new.last_job
            ≡ last_number self.old.last_job (spawned commands)) }
        ensures calls { self.new.calls
            ≡ after_ok result (λ _. added self.old.calls (took commands)) self.old.calls }
        ensures cause { HasCause self.old.faults self.new.faults result }

        ensures orders { IfOk result (λ _. self.new.orders ≡ after_commands commands self.old.orders) }
        ensures revision { IfOk result (λ _. self.new.revision ≡ after_revisions commands self.old.revision) }
        ensures source { (self.new.held ≡ self.old.held) × (self.new.taken ≡ self.old.taken) }
        ensures memory { IfErr result (λ e. e ≡ HostError.NoMemory) }
    {
        keep_orders(&mut self.orders, commands.as_slice())?;
        self.crew.revise(commands.as_slice());
        self.crew.take(commands.as_slice())?;
        queue_jobs(&mut self.waiting, commands.as_slice())?;
        self.start_waiting()?;
        if let Some(calls) = &mut self.calls {
            calls.push(RecordedCall::of_commands(commands))?;
        }
        Ok(())
    }
}
