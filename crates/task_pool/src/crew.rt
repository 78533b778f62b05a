//! The threads of a host, with the jobs out: the inbox, the revision word, the reader and the workers.
ghost use Rattle.std.specs.Prelude.{◌≡◌, ◌≤◌, ◌<◌, [], IfOk, IfSome, OnOk, OnErr};
ghost use Rattle.std.specs.Arc.{arc_value};
ghost use Rattle.std.specs.FinMap as map;
ghost use Rattle.inbox.specs.Given.{BeginsWith};
ghost use Rattle.session_port.specs.Events.{batch_in};
ghost use Rattle.session_port.specs.Record.{AreRising, after_event, after_order, last_number, spawned};
ghost use Rattle.task_pool.specs.Crews.{IsEnd, Shows, after_entry, without_jobs};
ghost use Rattle.task_pool.specs.Finishing.{IsFinished};
ghost use Rattle.task_pool.specs.Reading.{IsReader};
ghost use Rattle.task_pool.specs.Revising.{after_revisions};

use crate::employed::{Employed, dismiss, hire, let_go};
use crate::leave::Leave;
use crate::reading;
use crate::reading::Reader;
use crate::worker::StartsWorkers;
use analysis_host::Analysis;
use atomic_revision::Writer;
use inbox::{Entry, HostEnd};
use inline_host::NumberedJobs;
use method_table::PoolClass;
use plain::{ByNumber, NoMemory};
use session_port::{Command, HostEvent, Job, JobResult, TaskMsg};
use std::alloc::Global;
use std::marker::Model;
use std::sync::{Arc, Wait};
use std::thread::Threads;

/// How many bytes the reader posted, and how many of them were given, each up to the greatest number of 64 bits; and whether the
/// reader came to the source's end.
#[derive(Clone, Copy, Debug)]
pub struct Finished {
    pub posted: u64,
    pub taken: u64,
    pub ended: bool,
}

/// The reader and the workers that run, each found by the number of its job, with what they share with the host.
pub struct Crew<R, A: Analysis> {
    rt: R,
    alloc: Global,
    analysis: Arc<A, Global>,
    inbox: HostEnd,
    word: Writer,
    reader: Reader,
    jobs: NumberedJobs,
    running: ByNumber<Employed>,
    taken: u64,
}

impl<R: Drop, A: Analysis> Drop for Crew<R, A> {
    fn drop(self) {
        let Crew {
            rt: _,
            alloc: _,
            analysis: _,
            inbox: _,
            word: _,
            reader: _,
            jobs: _,
            running: _,
            taken: _,
        } = self;
    }
}

impl<R, A: Analysis> Model for Crew<R, A> {
    ghost use Rattle.std.specs.Prelude.{◌≡◌};
    ghost use Rattle.std.specs.Arc.{arc_value};
    ghost use Rattle.inbox.specs.Counts.{counted};
    ghost use Rattle.inbox.specs.Given.{HasTaken};
    ghost use Rattle.inbox.specs.Posting.{bytes_of};
    ghost use Rattle.session_port.specs.contracts.job.Job as job;
    ghost use Rattle.task_pool.specs.Codes.{crew_code};
    ghost use Rattle.task_pool.specs.Crews.{CrewData};
    ghost use Rattle.task_pool.specs.Employs.{AreEmployed};
    ghost use Rattle.task_pool.specs.Reading.{IsReader};

    ghost Value = { CrewData };

    ghost coded = { crew_code job.the_row.coded };

    ghost view = { λ c. record { out = c.jobs.out; last_job = c.jobs.last_job; held = c.inbox.pass.me.view.client.held; taken = bytes_of c.inbox.pass.me.view.client.taken; revision = c.word.number } };

    ghost invariant = { λ c. HasTaken c.inbox.pass.me.view.client × IsReader (arc_value c.inbox.inbox).queue c.reader × (c.taken ≡ counted (bytes_of c.inbox.pass.me.view.client.taken)) × AreEmployed A.answer (arc_value c.inbox.inbox).queue (arc_value c.word.word).table.shared.table_id c.jobs.out c.jobs.last_job c.running };
}

/// Raises the word to the revisions that commands tell.
fn revise(word: &mut Writer, commands: &[Command])
    ensures number { word.new.number ≡ after_revisions commands.now word.old.number }
    ensures same { word.new.word ≡ word.old.word }
{
    for command in commands {
        if let Command::Revise(revision) = command {
            word.raise(*revision);
        }
    }
}

/// The messages of jobs that an event brings.
fn messages_of(event: &HostEvent) -> &[TaskMsg]
    ensures { result.now ≡ batch_in event.now }
{
    match event {
        HostEvent::Tasks(batch) => batch.as_slice(),
        _ => &[],
    }
}

/// Takes off what stands at the numbers of the jobs of messages.
fn remove_jobs(running: &mut ByNumber<Employed>, messages: &[TaskMsg])
    ensures { running.new ≡ without_jobs messages.now running.old }
{
    for message in messages {
        running.remove(message.job);
    }
}

/// Joins workers of which nothing is asked.
fn let_all_go<R: Threads + Wait>(rt: &R, mut running: ByNumber<Employed>) {
    for _ in rt.forever() {
        let Some((_, employed)) = running.pop_first() else {
            return;
        };
        let_go(rt, employed);
    }
}

/// Takes a job.
fn put(jobs: &mut NumberedJobs, job: Job) -> Result<(), NoMemory>
    ensures ok { OnOk result (jobs.new ≡ record { out = map.insert jobs.old.out job.number job; last_job = job.number }) }
    ensures err { OnErr result (jobs.new ≡ jobs.old) }
{
    let number = job.number;
    jobs.out.insert(number, job)?;
    jobs.last_job = number;
    Ok(())
}

impl<R, A: Analysis> Crew<R, A> {
    /// No job is out.
    pub fn new(
        rt: R,
        alloc: Global,
        analysis: Arc<A, Global>,
        inbox: HostEnd,
        word: Writer,
        reader: Reader,
    ) -> Self
        requires none { inbox.pass.me.view.client.taken ≡ [] }
        requires reader { IsReader (arc_value inbox.inbox).queue reader }
        ensures { result ≡ record { out = map.empty; last_job = 0; held = inbox.pass.me.view.client.held; taken = []; revision = word.number } }
    {
        Crew {
            rt,
            alloc,
            analysis,
            inbox,
            word,
            reader,
            jobs: NumberedJobs::new(alloc),
            running: ByNumber::new(alloc),
            taken: 0,
        }
    }

    /// What was taken are the first of the bytes that the source held. It does nothing.
    pub fn begins(&self)
        ensures { BeginsWith self.now.held self.now.taken }
    {
        let _taken = &self.taken;
    }

    /// Takes a job.
    pub fn push(&mut self, job: Job) -> Result<(), NoMemory>
        requires { self.old.last_job < job.number }
        ensures ok { OnOk result (self.new ≡ record self.old { out = map.insert self.old.out job.number job; last_job = job.number }) }
        ensures same { self.new ≡ record self.old { out = self.new.out; last_job = self.new.last_job } }
    {
        put(&mut self.jobs, job)
    }

    /// Takes copies of the jobs that commands hand over, which share their params and snapshots.
    pub fn take(&mut self, commands: &[Command]) -> Result<(), NoMemory>
        requires { AreRising self.old.last_job (spawned commands.now) }
        ensures out { OnOk result (self.new.out ≡ after_order commands.now self.old.out) }
        ensures last_job { OnOk result (self.new.last_job ≡ last_number self.old.last_job (spawned commands.now)) }
        ensures same { self.new ≡ record self.old { out = self.new.out; last_job = self.new.last_job } }
    {
        for command in commands {
            if let Command::Spawn(job) = command {
                self.push(job.clone()?)?;
            }
        }
        Ok(())
    }

    /// Takes off the jobs that an event ends. Their workers are gone already.
    pub fn let_go(&mut self, event: &HostEvent)
        ensures { self.new ≡ record self.old { out = after_event event.now self.old.out } }
    {
        remove_jobs(&mut self.running, messages_of(event));
        self.jobs.let_go(event);
    }

    /// Raises the revision to those that commands tell.
    pub fn revise(&mut self, commands: &[Command])
        ensures { self.new ≡ record self.old { revision = after_revisions commands.now self.old.revision } }
    {
        revise(&mut self.word, commands);
    }
}

impl<R: Threads + Wait, A: Analysis> Crew<R, A> {
    /// A leave to wait.
    pub fn leave(&self) -> Leave<R> {
        Leave::of(&self.rt)
    }

    /// The oldest entry of the inbox, once there is one.
    pub fn wait(&mut self) -> Entry
        ensures shows { Shows result self.old }
        ensures after { self.new ≡ after_entry result self.old }
    {
        let entry = self.inbox.wait(&self.rt);
        self.taken = self.taken.saturating_add(entry.len());
        entry
    }

    /// Joins the worker that was started for the job out with this number, if there is one: its class and its result.
    pub fn collect(&mut self, number: u64) -> Option<(PoolClass, JobResult)>
        ensures end { IfSome result (λ r. IsEnd A.answer self.old.out self.old.revision number r.1) }
        ensures same { self.new ≡ self.old }
    {
        dismiss::<R, A>(
            &self.rt,
            &mut self.inbox,
            &mut self.word,
            &mut self.running,
            number,
        )
    }
}

impl<R: Threads + Wait + 'static, A: StartsWorkers<R>> Crew<R, A> {
    /// Starts a worker for the job out with this number, if there is one: the job's class.
    pub fn start(&mut self, number: u64) -> Result<Option<PoolClass>, NoMemory>
        ensures { self.new ≡ self.old }
    {
        // No job out has a greater number than the last one that came.
        if number > self.jobs.last_job {
            return Ok(None);
        }
        let Some(job) = self.jobs.out.get(number) else {
            return Ok(None);
        };
        let class = hire(
            &self.rt,
            self.alloc,
            &mut self.inbox,
            &mut self.word,
            &self.analysis,
            &mut self.running,
            number,
            job,
        )?;
        Ok(Some(class))
    }
}

impl<R: Threads + Wait + Drop, A: Analysis> Crew<R, A> {
    /// Joins the reader and all workers, and says how many bytes were posted and given. It waits until the source has ended.
    pub fn finish(self) -> Finished
        ensures finished { IsFinished self.held self.taken result }
        ensures order { result.taken ≤ result.posted }
    {
        let Crew {
            rt,
            alloc: _,
            analysis: _,
            inbox,
            mut word,
            reader,
            jobs: _,
            running,
            taken,
        } = self;
        // What is still asked is out of date.
        word.raise(u64::MAX);
        let_all_go(&rt, running);
        // The reader waits no more for entries to be taken.
        inbox.inbox.make_room_for_all();
        let out = reading::join(&rt, reader, &inbox.inbox);
        let posted = out.posted;
        let ended = out.ended;
        inbox.settle(&rt, out.end);
        Finished {
            posted,
            taken,
            ended,
        }
    }
}
