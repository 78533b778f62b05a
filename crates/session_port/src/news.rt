// What checks, a test run and discoveries of projects tell.
ghost use Rattle.std.specs.Prelude.{◌≡◌, IfOk};

use crate::copies::copy_of;
use docs_vfs::VfsPath;
use lsp_types::Diagnostic;
use plain::{ExactClone, Json, Text};
use std::alloc::AllocError;

/// How far a check is.
#[derive(Drop)]
pub enum CheckProgress {
    /// It was started by this command.
    DidStart { command: Text },
    /// It is done with this crate.
    DidCheckCrate(Text),
    DidCancel,
    /// It could not be started, for this reason.
    DidFailToRestart(Text),
    /// It has ended, well or for this reason.
    DidFinish(Result<(), Text>),
}

/// A message of a check, which is named by its id.
#[derive(Drop)]
pub enum FlycheckMsg {
    /// What is wrong in a file, found in this package, where it is known.
    AddDiagnostic {
        id: u64,
        /// That of the check's run.
        generation: u64,
        package: Option<Text>,
        path: VfsPath,
        diagnostic: Diagnostic,
        /// What is offered to mend it, JSON of the Language Server Protocol.
        fix: Option<Json>,
    },
    /// What was found is out of date: in a package, or in the whole workspace; of all runs, or of those before this generation.
    ClearDiagnostics {
        id: u64,
        package: Option<Option<Text>>,
        older_than: Option<u64>,
    },
    Progress {
        id: u64,
        progress: CheckProgress,
    },
}

/// How a test is.
#[derive(Drop)]
pub enum TestState {
    Started,
    Ignored,
    Ok,
    Failed { stdout: Text },
}

/// What a test run tells.
#[derive(Drop)]
pub enum TestOutput {
    /// How the test of this name is.
    Test { name: Text, state: TestState },
    /// A group of tests has begun or ended.
    Suite,
    /// One of the run's programs has ended.
    Finished,
    /// A line of output.
    Custom { text: Text },
}

/// A message of a test run.
#[derive(Drop)]
pub struct TestMsg {
    /// The target whose tests they are.
    pub target: Text,
    pub output: TestOutput,
}

/// A message of a discovery of a project.
#[derive(Drop)]
pub enum DiscoverMsg {
    /// The project that was found, as JSON, and the file that describes it.
    Finished { project: Json, buildfile: Text },
    Progress { message: Text },
    Error { error: Text, source: Option<Text> },
}

// A copy of how a check ended.
fn copy_of_end(end: &Result<(), Text>) -> Result<Result<(), Text>, AllocError>
    ensures { IfOk result (λ copy. copy ≡ end.now) }
{
    match end {
        Ok(()) => Ok(Ok(())),
        Err(reason) => Ok(Err(reason.clone()?)),
    }
}

impl Clone for CheckProgress {
    ghost is_clone = { λ progress copy. copy ≡ progress };

    fn clone(&self) -> Result<CheckProgress, AllocError> {
        match self {
            CheckProgress::DidStart { command } => Ok(CheckProgress::DidStart {
                command: command.clone()?,
            }),
            CheckProgress::DidCheckCrate(name) => Ok(CheckProgress::DidCheckCrate(name.clone()?)),
            CheckProgress::DidCancel => Ok(CheckProgress::DidCancel),
            CheckProgress::DidFailToRestart(reason) => {
                Ok(CheckProgress::DidFailToRestart(reason.clone()?))
            }
            CheckProgress::DidFinish(end) => Ok(CheckProgress::DidFinish(copy_of_end(end)?)),
        }
    }
}

impl Clone for FlycheckMsg {
    ghost is_clone = { λ message copy. copy ≡ message };

    fn clone(&self) -> Result<FlycheckMsg, AllocError> {
        match self {
            FlycheckMsg::AddDiagnostic {
                id,
                generation,
                package,
                path,
                diagnostic,
                fix,
            } => Ok(FlycheckMsg::AddDiagnostic {
                id: *id,
                generation: *generation,
                package: copy_of(package)?,
                path: path.clone()?,
                diagnostic: diagnostic.clone()?,
                fix: copy_of(fix)?,
            }),
            FlycheckMsg::ClearDiagnostics {
                id,
                package,
                older_than,
            } => Ok(FlycheckMsg::ClearDiagnostics {
                id: *id,
                package: copy_of(package)?,
                older_than: *older_than,
            }),
            FlycheckMsg::Progress { id, progress } => Ok(FlycheckMsg::Progress {
                id: *id,
                progress: progress.clone()?,
            }),
        }
    }
}

impl ExactClone for FlycheckMsg {
    ghost copies = { λ x y h. h };
}

impl Clone for TestState {
    ghost is_clone = { λ state copy. copy ≡ state };

    fn clone(&self) -> Result<TestState, AllocError> {
        match self {
            TestState::Started => Ok(TestState::Started),
            TestState::Ignored => Ok(TestState::Ignored),
            TestState::Ok => Ok(TestState::Ok),
            TestState::Failed { stdout } => Ok(TestState::Failed {
                stdout: stdout.clone()?,
            }),
        }
    }
}

impl Clone for TestOutput {
    ghost is_clone = { λ output copy. copy ≡ output };

    fn clone(&self) -> Result<TestOutput, AllocError> {
        match self {
            TestOutput::Test { name, state } => Ok(TestOutput::Test {
                name: name.clone()?,
                state: state.clone()?,
            }),
            TestOutput::Suite => Ok(TestOutput::Suite),
            TestOutput::Finished => Ok(TestOutput::Finished),
            TestOutput::Custom { text } => Ok(TestOutput::Custom {
                text: text.clone()?,
            }),
        }
    }
}

impl Clone for TestMsg {
    ghost is_clone = { λ message copy. copy ≡ message };

    fn clone(&self) -> Result<TestMsg, AllocError> {
        Ok(TestMsg {
            target: self.target.clone()?,
            output: self.output.clone()?,
        })
    }
}

impl ExactClone for TestMsg {
    ghost copies = { λ x y h. h };
}

impl Clone for DiscoverMsg {
    ghost is_clone = { λ message copy. copy ≡ message };

    fn clone(&self) -> Result<DiscoverMsg, AllocError> {
        match self {
            DiscoverMsg::Finished { project, buildfile } => Ok(DiscoverMsg::Finished {
                project: project.clone()?,
                buildfile: buildfile.clone()?,
            }),
            DiscoverMsg::Progress { message } => Ok(DiscoverMsg::Progress {
                message: message.clone()?,
            }),
            DiscoverMsg::Error { error, source } => Ok(DiscoverMsg::Error {
                error: error.clone()?,
                source: copy_of(source)?,
            }),
        }
    }
}

impl ExactClone for DiscoverMsg {
    ghost copies = { λ x y h. h };
}
