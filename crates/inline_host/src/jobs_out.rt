// The jobs that a host holds.
ghost use Rattle.std.specs.Prelude.{◌≡◌, ◌<◌, ◌↔◌, map, IsTrue, IfOk, OnOk, OnErr};
ghost use Rattle.std.specs.List.{AllZip};
ghost use Rattle.std.specs.FinMap as map;
ghost use Rattle.session_port.specs.Honest.{AreHonest};
ghost use Rattle.session_port.specs.Jobs.{after_batch};
ghost use Rattle.session_port.specs.Record.{AreRising, after_order, last_number, spawned};
ghost use Rattle.inline_host.specs.Results.{Finishes, IsOfProject};
ghost use Rattle.session_port.specs.Runs.{AreUncancelled};

use crate::results::result_of;
use analysis_host::Analysis;
use plain::Items;
use session_port::{Command, Job, TaskBody, TaskMsg};
use std::alloc::{AllocError, Global};
use std::marker::Model;

/// The jobs out, which came in the order of their numbers.
pub(crate) struct JobsOut {
    jobs: Vec<Job>,
    last_job: u64,
}

impl Drop for JobsOut {
    fn drop(self) {
        let JobsOut {
            jobs: _,
            last_job: _,
        } = self;
    }
}

impl Model for JobsOut {
    ghost use Rattle.std.specs.Prelude.{ℕ, ◌≤◌, refl};
    ghost use Rattle.std.specs.Coded.{code_by, coded×, coded_ℕ};
    ghost use Rattle.std.specs.FinMap as map;
    ghost use Rattle.session_port.specs.Jobs.{Jobs};
    ghost use Rattle.session_port.specs.Record.{AreRising, last_number, with_jobs};
    ghost use Rattle.inline_host.specs.Results.{JobsData};
    ghost use Rattle.session_port.specs.contracts.job.Job as job;

    ghost Value = { JobsData };

    ghost coded = { code_by (Jobs × ℕ) (coded× (map.code coded_ℕ job.the_row.coded) coded_ℕ)
        (λ j. (j.out, j.last_job)) (λ p. record { out = p.0; last_job = p.1 }) (λ _. refl) };

    ghost view = { λ j. record { out = with_jobs j.jobs.items map.empty; last_job = j.last_job } };

    ghost invariant = { λ j. AreRising 0 j.jobs.items × (last_number 0 j.jobs.items ≤ j.last_job) };
}

/// The results of some jobs, in their order.
fn results_of<A: Analysis>(
    alloc: Global,
    jobs: &[Job],
    analysis: &A,
) -> Result<Vec<TaskMsg>, AllocError>
    ensures { IfOk result (λ batch. AllZip (Finishes A.answer) jobs.now batch.items) }
{
    let mut batch = Vec::with_capacity(alloc, jobs.len())?;
    for job in jobs {
        batch.push(TaskMsg {
            job: job.number,
            body: TaskBody::Final(result_of(alloc, job, analysis)),
        })?;
    }
    Ok(batch)
}

impl JobsOut {
    pub fn new(alloc: Global) -> Self
        ensures { result ≡ record { out = map.empty; last_job = 0 } }
    {
        JobsOut {
            jobs: Vec::new(alloc),
            last_job: 0,
        }
    }

    pub fn is_empty(&self) -> bool
        ensures { IsTrue result ↔ (self.now.out ≡ map.empty) }
    {
        self.jobs.is_empty()
    }

    /// Forgets all jobs.
    pub fn clear(&mut self)
        ensures { self.new ≡ record self.old { out = map.empty } }
    {
        self.jobs.clear();
    }

    fn push(&mut self, job: Job) -> Result<(), AllocError>
        requires { self.old.last_job < job.number }
        ensures ok { OnOk result (self.new
            ≡ record { out = map.insert self.old.out job.number job; last_job = job.number }) }
        ensures err { OnErr result (self.new ≡ self.old) }
    {
        let number = job.number;
        self.jobs.push(job)?;
        self.last_job = number;
        Ok(())
    }

    /// Takes the jobs that commands hand over.
    pub fn take(&mut self, commands: Items<Command>) -> Result<(), AllocError>
        requires { AreRising self.old.last_job (spawned commands) }
        ensures out { OnOk result (self.new.out ≡ after_order commands self.old.out) }
        ensures last_job { OnOk result (self.new.last_job
            ≡ last_number self.old.last_job (spawned commands)) }
    {
        for command in commands.into_vec() {
            match command {
                Command::Spawn(job) => self.push(job)?,
                other => drop(other),
            }
        }
        Ok(())
    }

    /// Takes copies of the jobs that commands hand over, which share their params and snapshots.
    pub fn take_copies(&mut self, commands: &[Command]) -> Result<(), AllocError>
        requires { AreRising self.old.last_job (spawned commands.now) }
        ensures out { OnOk result (self.new.out ≡ after_order commands.now self.old.out) }
        ensures last_job { OnOk result (self.new.last_job
            ≡ last_number self.old.last_job (spawned commands.now)) }
    {
        for command in commands {
            if let Command::Spawn(job) = command {
                self.push(job.clone()?)?;
            }
        }
        Ok(())
    }

    /// The results of all jobs out.
    pub fn results<A: Analysis>(
        &self,
        alloc: Global,
        analysis: &A,
    ) -> Result<Items<TaskMsg>, AllocError>
        ensures honest { IfOk result (AreHonest A.answer self.now.out) }
        ensures all { IfOk result (λ batch. after_batch batch self.now.out ≡ map.empty) }
        ensures numbers { IfOk result (λ batch.
            map (λ message. message.job) batch ≡ map.keys self.now.out) }
        ensures uncancelled { IfOk result AreUncancelled }
        ensures project { IfOk result (AllZip IsOfProject (map.values self.now.out)) }
    {
        Ok(Items::from_vec(results_of(alloc, &self.jobs, analysis)?))
    }
}
