// The steps of a script.
ghost use Rattle.std.specs.Prelude.{◌≡◌, [], ◌∷◌, IfOk, option_copied};
ghost use Rattle.std.specs.FinMap as map;
ghost use Rattle.std.specs.List.{AllZip};
ghost use Rattle.host_fakes.specs.Script.{FinishesAt, IsGiven, IsNext, asked_at, can_end, can_see, ended, gift_of, left_out, named, next_gift, without_found};

use crate::queue::Queue;
use analysis_host::Analysis;
use inline_host::result_of;
use plain::{ByNumber, Items};
use session_port::{HostEvent, Job, JobResult, TaskBody, TaskMsg};
use std::alloc::{AllocError, Global};

/// A step of a script.
#[derive(Drop)]
pub enum ScriptStep {
    /// Gives this event, a loader's messages too. Messages of jobs are not given so, since a script is honest: the
    /// step gives nothing then.
    Give(HostEvent),
    /// Gives one batch, with the results of those jobs out that have these numbers and are not the host's own, in this order and
    /// each once. It is empty where none has.
    Finish(Items<u64>),
    /// Gives the message that the job with the first number stopped, since it saw the second one. It gives nothing
    /// where the job isn't out, or that revision isn't above its snapshot's.
    Cancel(u64, u64),
    /// Gives the message that the host's own job with this number has ended so. It gives nothing where no such job is
    /// out, where the result doesn't fit it, or says that it saw a revision that isn't above its snapshot's.
    Supply(u64, JobResult),
}

/// Finds a job out, where it is not the host's own.
fn asked_at(out: &ByNumber<Job>, number: u64) -> Option<&Job>
    ensures { option_copied result ≡ asked_at number out.now }
{
    let job = out.get(number)?;
    if job.kind.asks_analysis() {
        Some(job)
    } else {
        None
    }
}

/// Finds a job out that is not the host's own and was not done, and notes that it is.
fn job_to_do<'a>(
    out: &'a ByNumber<Job>,
    done: &mut ByNumber<bool>,
    number: u64,
) -> Result<Option<&'a Job>, AllocError>
    ensures found { IfOk result (λ job. option_copied job ≡ asked_at number (left_out out.now done.old)) }
    ensures done { IfOk result (λ job. left_out out.now done.new
        ≡ without_found (option_copied job) number (left_out out.now done.old)) }
{
    let Some(job) = asked_at(out, number) else {
        return Ok(None);
    };
    match done.insert(number, true)? {
        Some(_) => Ok(None),
        None => Ok(Some(job)),
    }
}

/// The results of the jobs out with these numbers that are not the host's own.
fn results_at<A: Analysis>(
    alloc: Global,
    numbers: &[u64],
    out: &ByNumber<Job>,
    analysis: &A,
) -> Result<Vec<TaskMsg>, AllocError>
    ensures { IfOk result (λ batch. AllZip (FinishesAt A.answer) (named numbers.now out.now) batch.items) }
{
    let mut done = ByNumber::new(alloc);
    let mut batch = Vec::new(alloc);
    for number in numbers {
        if let Some(job) = job_to_do(out, &mut done, *number)? {
            batch.push(TaskMsg {
                job: *number,
                body: TaskBody::Final(result_of(alloc, job, analysis)),
            })?;
        }
    }
    Ok(batch)
}

/// Whether a job that is out may see a later revision.
fn can_see(job: Option<&Job>, saw: u64) -> bool
    ensures { result ≡ can_see (option_copied job.entry) saw }
{
    match job {
        None => false,
        Some(job) => job.snapshot.revision() < saw,
    }
}

/// Whether a job of the host's own that is out may end so.
fn can_end(job: Option<&Job>, outcome: &JobResult) -> bool
    ensures { result ≡ can_end (option_copied job.entry) outcome.now }
{
    let Some(job) = job else {
        return false;
    };
    if job.kind.asks_analysis() || !outcome.fits(&job.kind) {
        return false;
    }
    match outcome {
        JobResult::Cancelled { saw } => job.snapshot.revision() < *saw,
        JobResult::Value(_) | JobResult::Fault { .. } | JobResult::NoMemory => true,
    }
}

/// The message that a job has ended so.
fn ended(alloc: Global, number: u64, outcome: JobResult) -> Result<HostEvent, AllocError>
    ensures { IfOk result (λ event. event ≡ HostEvent.Tasks (ended number outcome ∷ [])) }
{
    let mut batch = Items::new(alloc);
    batch.push(TaskMsg {
        job: number,
        body: TaskBody::Final(outcome),
    })?;
    Ok(HostEvent::Tasks(batch))
}

/// What a step gives, if anything.
fn event_of<A: Analysis>(
    alloc: Global,
    out: &ByNumber<Job>,
    step: ScriptStep,
    analysis: &A,
) -> Result<Option<HostEvent>, AllocError>
    ensures { IfOk result (IsGiven A.answer (gift_of out.now step)) }
{
    match step {
        ScriptStep::Give(HostEvent::Tasks(_)) => Ok(None),
        ScriptStep::Give(event) => Ok(Some(event)),
        ScriptStep::Finish(numbers) => {
            let batch = results_at(alloc, numbers.as_slice(), out, analysis)?;
            Ok(Some(HostEvent::Tasks(Items::from_vec(batch))))
        }
        ScriptStep::Cancel(number, saw) => {
            if can_see(out.get(number), saw) {
                Ok(Some(ended(alloc, number, JobResult::Cancelled { saw })?))
            } else {
                Ok(None)
            }
        }
        ScriptStep::Supply(number, outcome) => {
            if can_end(out.get(number), &outcome) {
                Ok(Some(ended(alloc, number, outcome)?))
            } else {
                Ok(None)
            }
        }
    }
}

/// The first that the script gives.
pub(crate) fn coming<A: Analysis>(
    alloc: Global,
    out: &ByNumber<Job>,
    steps: &mut Queue<ScriptStep>,
    analysis: &A,
) -> Result<HostEvent, AllocError>
    ensures { IfOk result (λ event. IsNext A.answer (next_gift out.now steps.old) event steps.new) }
{
    'steps: while let Some(step) = steps.take_first() {
        if let Some(event) = event_of(alloc, out, step, analysis)? {
            return Ok(event);
        }
    }
    Ok(HostEvent::Ended)
}
