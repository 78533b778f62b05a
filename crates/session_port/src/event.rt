// What a host gives.
ghost use Rattle.std.specs.Prelude.{◌≡◌, is_some};
ghost use Rattle.session_port.specs.Jobs.{final_of, fits_job, is_told};
ghost use Rattle.session_port.specs.Kinds.{is_priming};

use crate::command::DeferredTask;
use crate::job::{Job, JobResult};
use crate::kinds::{JobFacts, JobGroup};
use crate::news::{DiscoverMsg, FlycheckMsg, TestMsg};
use docs_vfs::VfsPath;
use plain::{Bytes, ExactClone, Items, Text};
use std::alloc::AllocError;

/// What a message says of its job.
#[derive(Drop)]
pub enum TaskBody {
    /// The work has begun: of a job of the host's own, or of one that finds out beforehand what later questions need.
    Begin,
    /// How far a job of the host's own is, as the client is to read it.
    Report(Text),
    /// So many crates of so many are done, and these are worked on.
    PrimeReport {
        done: u64,
        total: u64,
        crates: Items<Text>,
    },
    /// The job has ended.
    Final(JobResult),
}

/// A message of a job.
#[derive(Clone, Drop)]
pub struct TaskMsg {
    pub job: u64,
    pub body: TaskBody,
}

/// A file that a loader tells of: its bytes, or that it has none.
#[derive(Clone, Drop)]
pub struct LoadedFile {
    pub path: VfsPath,
    pub contents: Option<Bytes>,
}

/// How far a loader is.
#[derive(Clone, Copy, PartialEq, Eq, PartialOrd, Ord, Hash)]
pub enum LoadingProgress {
    Started,
    /// So many files are done.
    Progress(u64),
    Finished,
}

/// A message of a loader.
#[derive(Clone, Drop)]
pub enum LoaderMsg {
    /// Files that have changed.
    Changed {
        files: Items<LoadedFile>,
    },
    /// Files that were read for the first time.
    Loaded {
        files: Items<LoadedFile>,
    },
    /// How far it is with the files of these settings.
    Progress {
        n_total: u64,
        n_done: LoadingProgress,
        /// The folder that is read.
        dir: Option<VfsPath>,
        config_version: u32,
    },
}

/// What a host gives.
#[derive(Clone, Drop)]
pub enum HostEvent {
    /// Bytes from the client, cut anywhere.
    Bytes(Bytes),
    /// The client has gone.
    Ended,
    /// Messages of jobs, in the order in which they came.
    Tasks(Items<TaskMsg>),
    /// Tasks that were deferred, in the order in which they were.
    DeferredTask(Items<DeferredTask>),
    /// Messages of a loader, in the order in which they came.
    Vfs(Items<LoaderMsg>),
    /// Messages of checks, in the order in which they came.
    Flycheck(Items<FlycheckMsg>),
    /// Messages of a test run, in the order in which they came.
    TestResult(Items<TestMsg>),
    /// Messages of projects' discoveries, in the order in which they came.
    DiscoverProject(Items<DiscoverMsg>),
    /// The time of the timer with this ticket has passed.
    Timer(u64),
}

impl TaskBody {
    /// Whether it is the end of its job.
    pub fn is_final(&self) -> bool
        ensures { result ≡ is_some (final_of self.now) }
    {
        match self {
            TaskBody::Final(_) => true,
            _ => false,
        }
    }

    /// Whether a job may say so: `Begin` and `Report` fit a job of the host's own, `Begin` and `PrimeReport` one that primes; an end with
    /// a value fits where the value is of the job's kind, the JSON in it is plain, and its files are the job's, in order.
    pub fn fits(&self, job: &Job) -> bool
        ensures { result ≡ fits_job job.now self.now }
    {
        match self {
            TaskBody::Begin => is_told(job.kind.facts()),
            TaskBody::Report(_) => !job.kind.facts().asks_analysis,
            TaskBody::PrimeReport { .. } => is_priming(job.kind.facts().group),
            TaskBody::Final(result) => result.fits(&job.kind),
        }
    }
}

// Whether a job of this group finds out beforehand what later questions need.
fn is_priming(group: JobGroup) -> bool
    ensures { result ≡ is_priming group }
{
    match group {
        JobGroup::Priming => true,
        _ => false,
    }
}

// Whether a job with these facts says how far it is.
fn is_told(facts: JobFacts) -> bool
    ensures { result ≡ is_told facts }
{
    !facts.asks_analysis || is_priming(facts.group)
}

impl Clone for TaskBody {
    ghost is_clone = { λ body copy. copy ≡ body };

    fn clone(&self) -> Result<TaskBody, AllocError> {
        match self {
            TaskBody::Begin => Ok(TaskBody::Begin),
            TaskBody::Report(text) => Ok(TaskBody::Report(text.clone()?)),
            TaskBody::PrimeReport {
                done,
                total,
                crates,
            } => Ok(TaskBody::PrimeReport {
                done: *done,
                total: *total,
                crates: crates.clone()?,
            }),
            TaskBody::Final(result) => Ok(TaskBody::Final(result.clone()?)),
        }
    }
}

impl ExactClone for TaskBody {
    ghost copies = { λ x y h. h };
}

impl ExactClone for LoadedFile {
    ghost use Rattle.std.proofs.Common.{rules};

    ghost copies = { λ x y h. Prim.search rules };
}

impl ExactClone for LoaderMsg {
    ghost use Rattle.std.proofs.Common.{rules};

    ghost copies = { λ x y h. Prim.search rules };
}

impl ExactClone for TaskMsg {
    ghost use Rattle.std.proofs.Common.{rules};

    ghost copies = { λ x y h. Prim.search rules };
}

impl ExactClone for HostEvent {
    ghost use Rattle.std.proofs.Common.{rules};

    ghost copies = { λ x y h. Prim.search rules };
}
