// Priming.
ghost use Rattle.std.specs.Prelude.{◌≡◌, ◌++◌, IfOk, OnOk};
ghost use Rattle.activities.specs.Priming.{no_priming, asked, is_due, started, ended, title, token, share, more_text, crates_text, reported, tellings_of, prime_told, is_report, behind, keep};
ghost use Rattle.activities.specs.Announced.{Announces};

use crate::telling::{Telling, one};
use notify::Progress;
use op_board::OpQueue;
use plain::{Items, NoMemory, Text};
use std::alloc::Global;
use std::marker::Model;

/// What is told of a job that primes.
#[derive(Drop)]
pub enum PrimeMsg {
    Begin,
    /// So many crates of so many are done, and these are worked on.
    Report {
        done: u64,
        total: u64,
        crates: Items<Text>,
    },
    /// It has ended, or was cancelled.
    End {
        cancelled: bool,
    },
}

/// The jobs that prime: whether one is asked for, and whether one is in progress.
pub struct Priming {
    alloc: Global,
    queue: OpQueue<(), ()>,
}

impl Drop for Priming {
    fn drop(self) {
        let Priming { alloc: _, queue: _ } = self;
    }
}

impl Model for Priming {
    ghost use Rattle.std.specs.Coded.{codes};
    ghost use Rattle.activities.specs.Priming.{Priming};

    ghost Value = { Priming };

    ghost coded = { Prim.hlevel codes };

    ghost view = { λ p. p.queue };
}

impl PrimeMsg {
    fn is_report(&self) -> bool
        ensures { result ≡ is_report self.now }
    {
        match self {
            PrimeMsg::Report { .. } => true,
            PrimeMsg::Begin | PrimeMsg::End { .. } => false,
        }
    }
}

fn title(alloc: Global) -> Result<Text, NoMemory>
    ensures { IfOk result (λ text. text ≡ title) }
{
    Text::from_str(alloc, "Indexing")
}

fn token(alloc: Global) -> Result<Option<Text>, NoMemory>
    ensures { IfOk result (λ text. text ≡ token) }
{
    Ok(Some(Text::from_str(alloc, "rustAnalyzer/cachePriming")?))
}

// How many crates are done, of how many, and the first of those that are worked on.
fn share(alloc: Global, done: u64, total: u64, name: &str) -> Result<Text, NoMemory>
    ensures { IfOk result (λ text. text ≡ share done total name.now) }
{
    Ok(Text::from_string(format!(in alloc; "{done}/{total} ({name}")?))
}

fn more_text(alloc: Global, count: usize) -> Result<Text, NoMemory>
    ensures { IfOk result (λ text. text ≡ more_text count) }
{
    if count == 0 {
        return Text::from_str(alloc, ")");
    }
    Ok(Text::from_string(format!(in alloc; " + {count} more)")?))
}

// How many crates are done, of how many, and those that are worked on.
fn crates_text(
    alloc: Global,
    done: u64,
    total: u64,
    crates: &[Text],
) -> Result<Option<Text>, NoMemory>
    ensures { IfOk result (λ text. text ≡ crates_text done total crates.now) }
{
    match crates {
        [] => Ok(None),
        [name, more @ ..] => {
            let mut text = share(alloc, done, total, name.as_str())?;
            let rest = more_text(alloc, more.len())?;
            text.push_str(rest.as_str())?;
            Ok(Some(text))
        }
    }
}

fn reported(alloc: Global, done: u64, total: u64, crates: &[Text]) -> Result<Telling, NoMemory>
    ensures { IfOk result (λ told. told ≡ reported done total crates.now) }
{
    let done = done.min(total);
    Ok(Telling::Report {
        title: title(alloc)?,
        token: token(alloc)?,
        message: crates_text(alloc, done, total, crates)?,
        percentage: Some(Progress::fraction(done, total)),
    })
}

fn tellings_of(alloc: Global, message: &PrimeMsg) -> Result<Items<Telling>, NoMemory>
    ensures { IfOk result (λ tellings. tellings ≡ tellings_of message.now) }
{
    match message {
        PrimeMsg::Begin => one(
            alloc,
            Telling::Begin {
                title: title(alloc)?,
                token: token(alloc)?,
                message: None,
                percentage: Some(0),
            },
        ),
        PrimeMsg::Report {
            done,
            total,
            crates,
        } => one(alloc, reported(alloc, *done, *total, crates.as_slice())?),
        PrimeMsg::End { cancelled: _ } => one(
            alloc,
            Telling::End {
                title: title(alloc)?,
                token: token(alloc)?,
                message: None,
            },
        ),
    }
}

// Puts the last message back and then this one: a report right behind a report takes its place.
fn push_behind(
    kept: &mut Items<PrimeMsg>,
    last: PrimeMsg,
    message: PrimeMsg,
) -> Result<(), NoMemory>
    ensures { OnOk result (kept.new ≡ kept.old ++ behind last message) }
{
    if !(last.is_report() && message.is_report()) {
        kept.push(last)?;
    }
    kept.push(message)?;
    Ok(())
}

/// Keeps a message of a batch behind those that are kept: a report right behind a report takes its place.
#[tactic(auto, using(crate::proofs::Kept::keep_last))]
pub fn keep_prime_msg(kept: &mut Items<PrimeMsg>, message: PrimeMsg) -> Result<(), NoMemory>
    ensures { OnOk result (kept.new ≡ keep message kept.old) }
{
    match kept.pop() {
        None => {
            kept.push(message)?;
            Ok(())
        }
        Some(last) => push_behind(kept, last, message),
    }
}

impl Priming {
    /// No job is asked for, and none is in progress.
    pub fn new(alloc: Global) -> Priming
        ensures { result ≡ no_priming }
    {
        Priming {
            alloc,
            queue: OpQueue::new(),
        }
    }

    /// Whether a job is in progress.
    pub fn is_running(&self) -> bool
        ensures { result ≡ self.now.in_progress }
    {
        self.queue.op_in_progress()
    }

    /// Asks for a job, in a session that has come to be quiescent.
    pub fn ask(&mut self) -> Result<(), NoMemory>
        ensures { OnOk result (self.new ≡ asked self.old) }
    {
        let cause = Text::from_str(self.alloc, "became quiescent")?;
        self.queue.request_op(cause, ());
        Ok(())
    }

    /// Starts the job that is asked for, unless one is in progress. Answers whether it does.
    pub fn start(&mut self) -> bool
        ensures value { result ≡ is_due self.old }
        ensures after { self.new ≡ started self.old }
    {
        self.queue.should_start_op().is_some()
    }

    // The job in progress has ended; one that was cancelled is asked for anew.
    fn end(&mut self, cancelled: bool) -> Result<(), NoMemory>
        ensures { OnOk result (self.new ≡ ended cancelled self.old) }
    {
        if !self.queue.op_in_progress() {
            return Ok(());
        }
        self.queue.op_completed(());
        if cancelled {
            let cause = Text::from_str(self.alloc, "restart after cancellation")?;
            self.queue.request_op(cause, ());
        }
        Ok(())
    }

    /// A message of a job that primes.
    pub fn take(&mut self, message: &PrimeMsg) -> Result<Items<Telling>, NoMemory>
        ensures { Announces result (prime_told message.now self.old) self.new }
    {
        if let PrimeMsg::End { cancelled } = message {
            self.end(*cancelled)?;
        }
        tellings_of(self.alloc, message)
    }
}
