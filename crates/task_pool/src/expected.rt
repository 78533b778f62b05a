//! What the analysis says of a job, in a token whose type doesn't name the analysis.
ghost use Rattle.std.specs.Prelude.{◌≡◌, IfOk};
ghost use Rattle.task_pool.specs.Ends.{end_of};

use analysis_host::Analysis;
use atomic_table::{Table, TableRule};
use session_port::{Job, JobResult};
use std::alloc::{AllocError, Global};
use std::marker::PhantomData;
use std::snapshot::Snapshot;

/// What the questions of a job come to. No value of it is made.
pub struct Expected {
    pub end: JobResult,
}

/// It has no bytes, and its view is what the analysis says.
pub type Token = atomic_table::Seat<u8, Expected>;

#[derive(Drop)]
struct Question<A> {
    job: Snapshot<Job>,
    marker: PhantomData<A>,
}

struct Tells;

impl<A: Analysis> TableRule<u8, Expected, Question<A>> for Tells {
    ghost use Rattle.task_pool.specs.Ends.{end_of};

    ghost holds = { λ key state. Unit {0} };

    ghost first = { λ key. record { end = end_of A.answer key.job.value } };
}

/// What the questions of a job come to by this analysis.
pub fn expect<A: Analysis>(alloc: Global, job: &Job) -> Result<Token, AllocError>
    ensures { IfOk result (λ t. t.me.0.end ≡ end_of A.answer job.now) }
{
    let question = Question::<A> {
        job: Snapshot::of(job),
        marker: PhantomData,
    };
    let (_table, token) = Table::<u8, Expected, Question<A>, Tells, Global>::of_words(
        alloc,
        &[],
        &question,
    )?;
    Ok(token)
}
