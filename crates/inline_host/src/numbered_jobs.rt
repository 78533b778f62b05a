// Jobs out, found by their numbers.
ghost use Rattle.std.specs.Prelude.{◌≡◌, OnOk};
ghost use Rattle.std.specs.FinMap as map;
ghost use Rattle.session_port.specs.Jobs.{after_batch, jobs_after};
ghost use Rattle.session_port.specs.Record.{after_event, after_order, last_number, spawned};

use plain::ByNumber;
use session_port::{Command, HostEvent, Job, TaskMsg};
use std::alloc::{AllocError, Global};

/// The jobs out by their numbers, and the number of the last one that came.
pub struct NumberedJobs {
    pub out: ByNumber<Job>,
    pub last_job: u64,
}

impl Drop for NumberedJobs {
    fn drop(self) {
        let NumberedJobs {
            out: _,
            last_job: _,
        } = self;
    }
}

/// Takes off the job that a message ends, where it fits one.
fn end_job(out: &mut ByNumber<Job>, message: &TaskMsg)
    ensures { out.new ≡ jobs_after message.now out.old }
{
    let Some(job) = out.get(message.job) else {
        return;
    };
    if message.body.is_final() && message.body.fits(job) {
        out.remove(message.job);
    }
}

/// Takes off the jobs that messages end.
fn end_jobs(out: &mut ByNumber<Job>, batch: &[TaskMsg])
    ensures { out.new ≡ after_batch batch.now out.old }
{
    for message in batch {
        end_job(out, message);
    }
}

impl NumberedJobs {
    pub fn new(alloc: Global) -> Self
        ensures { result ≡ record { out = map.empty; last_job = 0 } }
    {
        NumberedJobs {
            out: ByNumber::new(alloc),
            last_job: 0,
        }
    }

    /// Takes off the jobs that an event ends.
    pub fn let_go(&mut self, event: &HostEvent)
        ensures { self.new ≡ record self.old { out = after_event event.now self.old.out } }
    {
        if let HostEvent::Tasks(batch) = event {
            end_jobs(&mut self.out, batch.as_slice());
        }
    }

    /// Takes a job.
    pub fn push(&mut self, job: Job) -> Result<(), AllocError>
        ensures { OnOk result (self.new
            ≡ record { out = map.insert self.old.out job.number job; last_job = job.number }) }
    {
        let number = job.number;
        self.out.insert(number, job)?;
        self.last_job = number;
        Ok(())
    }

    /// Takes copies of the jobs that commands hand over, which share their params and snapshots.
    pub fn take(&mut self, commands: &[Command]) -> Result<(), AllocError>
        ensures out { OnOk result (self.new.out ≡ after_order commands.now self.old.out) }
        ensures last_job { OnOk result (self.new.last_job
            ≡ last_number self.old.last_job (spawned commands.now)) }
    {
        for command in commands {
            if let Command::Spawn(job) = command {
                self.push(job.clone()?)?;
            }
        }
        Ok(())
    }
}
