// The desk: the requests that wait, and the jobs that work on them.
ghost use Rattle.std.specs.Prelude.{◌≡◌, ◌+◌, IfOk, OnOk, MatchResult, drop};
ghost use Rattle.std.specs.FinMap as map;
ghost use Rattle.session_port.specs.Record.{after_order};
ghost use Rattle.session_port.specs.Refines.{Refines, RefinesTotal};
ghost use Rattle.session_port.specs.TurnState.{next_number, replied, ordered, logged};
ghost use Rattle.session_port.specs.declared.fault.TurnError.TheVariants.{Exhausted};
ghost use Rattle.desk.specs.Desk.{new_desk, new_desk_at};
ghost use Rattle.desk.specs.Steps.{counted, jobs_kept, responded};
ghost use Rattle.lsp_frame.specs.Pending.{IsAbove};
ghost use Rattle.lsp_frame.specs.Written.{AreWritable};
ghost use Rattle.lsp_frame.specs.declared.message.Message.TheVariants.{Response as ResponseMessage};

mod ends;
mod pending;
mod requests;
mod results;

pub use ends::{BuildEnd, FetchEnd, LoadEnd, WorkEnd};
use lsp_frame::{Incoming, Response};
use plain::{ByNumber, Text};
use session_port::{Command, Counter, Job, LogCode, TurnError, TurnOut};
use std::alloc::{AllocError, Global};
use std::marker::Model;

/// The requests that wait for an answer, and the jobs that were handed over. A request's ticket is the number of the
/// turn that read it.
pub struct Desk {
    alloc: Global,
    turns: u64,
    pending: Incoming,
    jobs: ByNumber<Job>,
    last_job: u64,
    shutdown: bool,
}

impl Drop for Desk {
    fn drop(self) {
        let Desk {
            alloc: _,
            turns: _,
            pending: _,
            jobs: _,
            last_job: _,
            shutdown: _,
        } = self;
    }
}

impl Model for Desk {
    ghost use Rattle.std.specs.Prelude.{◌+◌};
    ghost use Rattle.lsp_frame.specs.Pending.{IsAbove};
    ghost use Rattle.session_port.specs.contracts.job.Job as job;
    ghost use Rattle.desk.specs.Codes.{desk_code};
    ghost use Rattle.desk.specs.Desk.{Desk};

    ghost Value = { Desk };

    ghost coded = { desk_code job.the_row.coded };

    ghost view = { λ d. record { turns = d.turns; pending = d.pending; jobs = d.jobs; last_job = d.last_job; shutdown = d.shutdown } };

    ghost invariant = { λ d. IsAbove (d.turns + 1) d.pending };
}

// The next number after those that were used.
fn next_number(used: u64, counter: Counter) -> Result<u64, TurnError>
    ensures meets { MatchResult result (λ n. next_number used counter ≡ Ok n) (λ e. (e ≡ Exhausted counter) × (next_number used counter ≡ Err counter)) }
    ensures value { IfOk result (λ n. n ≡ used + 1) }
{
    if used == u64::MAX {
        return Err(TurnError::Exhausted { counter });
    }
    Ok(used + 1)
}

// What stands behind so many.
fn behind<T>(items: &[T], at: usize) -> &[T]
    ensures { result.now ≡ drop at items.now }
{
    if at <= items.len() { &items[at..] } else { &[] }
}

// A job is out. Large values are let go of by calls here: a `drop(..)` spells out nothing of them in the proof.
fn put_job(jobs: &mut ByNumber<Job>, job: &Job) -> Result<(), AllocError>
    ensures { OnOk result (jobs.new ≡ map.insert jobs.old job.now.number job.now) }
{
    drop(jobs.insert(job.number, job.clone()?)?);
    Ok(())
}

// The jobs that commands hand over are out.
fn put_jobs(jobs: &mut ByNumber<Job>, commands: &[Command]) -> Result<(), AllocError>
    ensures { IfOk result (λ _. jobs.new ≡ after_order commands.now jobs.old) }
{
    for command in commands {
        if let Command::Spawn(job) = command {
            put_job(jobs, job)?;
        }
    }
    Ok(())
}

impl Desk {
    /// The desk before any turn.
    pub fn new(alloc: Global) -> Self
        ensures { result ≡ new_desk }
    {
        Desk::new_at(alloc, 0, 0)
    }

    /// The same, where so many turns were counted and so many jobs handed over.
    #[tactic(auto, using(lsp_frame::proofs::Above::none_above))]
    pub fn new_at(alloc: Global, turns: u64, last_job: u64) -> Self
        ensures { result ≡ new_desk_at turns last_job }
    {
        Desk {
            alloc,
            turns,
            pending: Incoming::new(alloc),
            jobs: ByNumber::new(alloc),
            last_job,
            shutdown: false,
        }
    }

    /// How many turns were counted.
    pub fn turns(&self) -> u64
        ensures { result ≡ self.now.turns }
    {
        self.turns
    }

    /// How many jobs were handed over.
    pub fn last_job(&self) -> u64
        ensures { result ≡ self.now.last_job }
    {
        self.last_job
    }

    /// The turn is counted. After an `Err` the desk is poisoned.
    #[tactic(auto, using(lsp_frame::proofs::Above::counted_above, lsp_frame::proofs::Above::later_above), unfolding(crate::specs::Steps::counted))]
    pub fn count(&mut self, out: &mut TurnOut) -> Result<(), TurnError>
        ensures above { OnOk result (IsAbove self.new.turns self.new.pending) }
        ensures meets { Refines result (counted (record { state = self.old; out = out.old })) self.new out.new }
    {
        self.turns = next_number(self.turns, Counter::Turns)?;
        Ok(())
    }

    /// The jobs that this turn hands over, behind so many commands, are out.
    #[tactic(auto, unfolding(crate::specs::Steps::jobs_kept))]
    pub fn keep_jobs(&mut self, before: usize, out: &mut TurnOut) -> Result<(), TurnError>
        ensures { RefinesTotal result (jobs_kept before (record { state = self.old; out = out.old })) self.new out.new }
    {
        put_jobs(&mut self.jobs, behind(out.commands(), before))?;
        Ok(())
    }
}

// What is written and ordered.
impl Desk {
    #[tactic(auto, unfolding(session_port::specs::TurnState::ordered))]
    fn order(&mut self, command: Command, out: &mut TurnOut) -> Result<(), TurnError>
        ensures gives { RefinesTotal result (ordered command (record { state = self.old; out = out.old })) self.new out.new }
        ensures same { self.new ≡ self.old }
    {
        out.order(command)?;
        Ok(())
    }

    #[tactic(auto, unfolding(session_port::specs::TurnState::logged))]
    fn log(&mut self, code: LogCode, text: Text, out: &mut TurnOut) -> Result<(), TurnError>
        ensures gives { RefinesTotal result (logged code text (record { state = self.old; out = out.old })) self.new out.new }
        ensures same { self.new ≡ self.old }
    {
        self.order(Command::Log(code, text), out)
    }

    #[tactic(auto, unfolding(session_port::specs::TurnState::replied))]
    fn reply(&mut self, response: Response, out: &mut TurnOut) -> Result<(), TurnError>
        requires { AreWritable (ResponseMessage response) }
        ensures { RefinesTotal result (replied response (record { state = self.old; out = out.old })) self.new out.new }
    {
        out.reply(response)?;
        Ok(())
    }
}
