// Hosts with threads, and what they are asked and answer, in calls that claim no more than the next
// call needs.
ghost use Rattle.std.specs.Prelude.{◌≡◌, ◌≤◌, ◌<◌, false, None, IfOk, OnOk};
ghost use Rattle.std.specs.FinMap as map;
ghost use Rattle.session_port.specs.Events.{job_of};
ghost use Rattle.session_port.specs.Record.{UnlessEnded};

use crate::flags::Flag;
use crate::gated::Gated;
use plain::Items;
use session_port::{
    Command, Host, HostError, HostEvent, Job, JobResult, Source, TaskBody, TaskMsg,
};
use std::alloc::Global;
use std::sync::{Arc, Wait};
use std::test::Fail;
use std::thread::Threads;
use task_pool::ThreadedHost;

/// An analysis whose hovers wait for the flag.
pub fn gated(alloc: Global, flag: &Flag) -> Result<Gated, Fail> {
    Ok(Gated {
        alloc,
        flag: flag.again()?,
    })
}

/// A host over this source, with so many threads, whose hovers wait for the flag. It keeps a
/// record.
pub fn host<R: Threads + Wait + Drop + 'static, S: Source + Send + 'static>(
    rt: R,
    alloc: Global,
    threads: u32,
    source: S,
    flag: &Flag,
) -> Result<ThreadedHost<R, S, Gated>, Fail>
    requires some { 1 ≤ threads }
    requires most { threads ≤ 64 }
    requires usable { S.poisoned source ≡ false }
    ensures out { IfOk result (λ h. h.out ≡ map.empty) }
    ensures idle { IfOk result (λ h. (h.last_job ≡ 0) × (h.poisoned ≡ false)) }
{
    let analysis = Arc::new(alloc, gated(alloc, flag)?)?;
    Ok(ThreadedHost::new(rt, alloc, threads, source, analysis, true)?)
}

/// Hands over a job.
pub fn spawn<R: Threads + Wait + 'static, S>(
    host: &mut ThreadedHost<R, S, Gated>,
    job: Job,
) -> Result<(), Fail>
    requires above { host.old.last_job < job.number }
    ensures last_job { OnOk result (host.new.last_job ≡ job.number) }
    ensures usable { host.new.poisoned ≡ host.old.poisoned }
{
    Ok(host.spawn(job)?)
}

/// Hands over one command, which is no job.
pub fn order<R: Threads + Wait + 'static, S>(
    host: &mut ThreadedHost<R, S, Gated>,
    alloc: Global,
    command: Command,
) -> Result<(), Fail>
    requires usable { host.old.poisoned ≡ false }
    requires idle { job_of command ≡ None }
    ensures usable { OnOk result (host.new.poisoned ≡ false) }
    ensures last_job { OnOk result (host.new.last_job ≡ host.old.last_job) }
{
    let mut commands = Items::new(alloc);
    commands.push(command)?;
    match host.order(commands) {
        Ok(()) => Ok(()),
        Err(_) => Err(Fail::from("an order was refused")),
    }
}

/// The next event.
pub fn next<R: Threads + Wait + 'static, S>(
    host: &mut ThreadedHost<R, S, Gated>,
) -> Result<HostEvent, Fail>
    requires usable { host.old.poisoned ≡ false }
    ensures usable { IfOk result (λ event. UnlessEnded event (host.new.poisoned ≡ false)) }
    ensures last_job { host.new.last_job ≡ host.old.last_job }
{
    match host.next() {
        Ok(event) => Ok(event),
        Err(HostError::Failed) => Err(Fail::from("the host failed")),
        Err(HostError::NoMemory) => Err(Fail::from("no memory")),
    }
}

fn word_of(ended: &JobResult) -> &'static str {
    match ended {
        JobResult::Value(_) => "value",
        JobResult::Fault { .. } => "fault",
        JobResult::Cancelled { .. } => "cancelled",
        JobResult::NoMemory => "no memory",
    }
}

/// An event in words: of a batch of results the first, with the number of its job.
fn words_of(alloc: Global, event: &HostEvent) -> Result<String, Fail> {
    match event {
        HostEvent::Tasks(batch) => match batch.get(0) {
            Some(
                TaskMsg {
                    job,
                    body: TaskBody::Final(ended),
                },
            ) => Ok(format!(in alloc; "{job} {}", word_of(ended))?),
            _ => Err(Fail::from("no result")),
        },
        HostEvent::Bytes(piece) => Ok(format!(in alloc; "{} bytes", piece.len())?),
        HostEvent::Ended => Ok(format!(in alloc; "ended")?),
        HostEvent::Vfs(_) => Ok(format!(in alloc; "loader")?),
        HostEvent::Timer(ticket) => Ok(format!(in alloc; "timer {ticket}")?),
        _ => Err(Fail::from("another event")),
    }
}

/// The next event, which is not the end, in words.
pub fn told<R: Threads + Wait + 'static, S>(
    host: &mut ThreadedHost<R, S, Gated>,
    alloc: Global,
) -> Result<String, Fail>
    requires usable { host.old.poisoned ≡ false }
    ensures usable { OnOk result (host.new.poisoned ≡ false) }
    ensures last_job { host.new.last_job ≡ host.old.last_job }
{
    let event = next(host)?;
    if matches!(event, HostEvent::Ended) {
        return Err(Fail::from("the end"));
    }
    words_of(alloc, &event)
}
