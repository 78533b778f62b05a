// What a session orders of its host.
ghost use Rattle.std.specs.Prelude.{◌≡◌};

use crate::copies::copy_of;
use crate::job::Job;
use docs_vfs::{FileId, Root, VfsPath};
use plain::{ExactClone, Items, Text};
use project_model::CheckScope;
use std::alloc::AllocError;

/// What a log line speaks of.
#[derive(Clone, Copy, Debug, PartialEq, Eq, PartialOrd, Ord, Hash)]
pub enum LogCode {
    /// A notification whose params can't be read. The text is its method.
    MalformedNotification,
    /// A notification that nobody handles. The text is its method.
    UnhandledNotification,
    /// A request of a method that is not in the table. The text is its method.
    UnknownRequest,
    /// A response to no request. The text is its id.
    UnknownResponse,
    /// A document that is open already. The text is its path.
    DuplicateOpen,
    /// A change of a document that is not open. The text is its path.
    UnexpectedChange,
    /// A document that is closed and was not open. The text is its path.
    OrphanClose,
    /// A file that was saved and is not in the table. The text is its path.
    UnknownSave,
    /// A change of which some edit has no place in the text, or would leave too long a one. The text is the path.
    SkippedChange,
    /// A URL that names no file. The text is the URL.
    BadPath,
    /// A message that fits no job out. The text is the job's number.
    StrangeResult,
    /// The client did not answer with its settings. The text is the message of its error; `empty` where it has neither an error nor a
    /// result; `not plain` for a value that isn't plain.
    SettingsError,
    /// A project is to be discovered, and no settings say how. The text is empty.
    DiscoverWithoutSettings,
    /// Checks are to run for a file that is not in the table. The text is its path.
    CheckUnknownFile,
    /// A fetch of workspaces that failed. The text has a line for each error.
    FetchError,
    /// A run of build data of which some failed. The text has a line for each error.
    BuildError,
    /// A further changed settings file of a root and kind, of which another holds. The text is its path.
    SecondSettingsFile,
    /// A project that was not discovered. The text is the error, and on a second line its source where it has one.
    DiscoverError,
}

/// What a session does once there is nothing else to do.
#[derive(Drop)]
pub enum DeferredTask {
    /// Whether this file is part of some crate.
    CheckIfIndexed(VfsPath),
    /// Whether some of these files are the sources of proc macros.
    CheckProcMacroSources(Items<FileId>),
}

/// What a project is to be discovered for.
#[derive(Drop)]
pub enum DiscoverArg {
    /// A file that describes it.
    Buildfile(VfsPath),
    /// A file of it.
    Path(VfsPath),
}

/// What a session orders of its host.
#[derive(Drop)]
pub enum Command {
    /// Do this job.
    Spawn(Job),
    /// The present revision.
    Revise(u64),
    /// Give this task back as an event.
    Defer(DeferredTask),
    /// Read the files of these roots, and watch them if that is asked; what is told of them names this version.
    SetLoader {
        load: Items<Root>,
        watch: bool,
        version: u32,
    },
    /// What was read of this file is out of date: read it anew.
    Invalidate(VfsPath),
    /// Give an event with this ticket once some time has passed. It takes the place of a timer that was ordered before.
    Timer(u64),
    /// The checks that may run are these, each with its id and the folder that it is for.
    SetChecks(Items<(u64, VfsPath)>),
    /// Run this check anew, on this.
    RestartCheck {
        id: u64,
        scope: CheckScope,
    },
    /// End the run of this check.
    CancelCheck(u64),
    /// Run tests: those of these names or all, but for those of these names.
    RunTest {
        include: Option<Items<Text>>,
        exclude: Option<Items<Text>>,
    },
    /// End the test run.
    StopTest,
    /// Find out which project this is of.
    Discover(DiscoverArg),
    Log(LogCode, Text),
    /// The session has ended.
    Stop,
}

impl Clone for DiscoverArg {
    ghost is_clone = { λ arg copy. copy ≡ arg };

    fn clone(&self) -> Result<DiscoverArg, AllocError> {
        match self {
            DiscoverArg::Buildfile(path) => Ok(DiscoverArg::Buildfile(path.clone()?)),
            DiscoverArg::Path(path) => Ok(DiscoverArg::Path(path.clone()?)),
        }
    }
}

impl Clone for DeferredTask {
    ghost is_clone = { λ task copy. copy ≡ task };

    fn clone(&self) -> Result<DeferredTask, AllocError> {
        match self {
            DeferredTask::CheckIfIndexed(path) => Ok(DeferredTask::CheckIfIndexed(path.clone()?)),
            DeferredTask::CheckProcMacroSources(files) => {
                Ok(DeferredTask::CheckProcMacroSources(files.clone()?))
            }
        }
    }
}

impl ExactClone for DeferredTask {
    ghost copies = { λ x y h. h };
}

impl Clone for Command {
    ghost is_clone = { λ command copy. copy ≡ command };

    fn clone(&self) -> Result<Command, AllocError> {
        match self {
            Command::Spawn(job) => Ok(Command::Spawn(job.clone()?)),
            Command::Revise(revision) => Ok(Command::Revise(*revision)),
            Command::Defer(task) => Ok(Command::Defer(task.clone()?)),
            Command::SetLoader {
                load,
                watch,
                version,
            } => Ok(Command::SetLoader {
                load: load.clone()?,
                watch: *watch,
                version: *version,
            }),
            Command::Invalidate(path) => Ok(Command::Invalidate(path.clone()?)),
            Command::Timer(ticket) => Ok(Command::Timer(*ticket)),
            Command::SetChecks(checks) => Ok(Command::SetChecks(checks.clone()?)),
            Command::RestartCheck { id, scope } => Ok(Command::RestartCheck {
                id: *id,
                scope: scope.clone()?,
            }),
            Command::CancelCheck(id) => Ok(Command::CancelCheck(*id)),
            Command::RunTest { include, exclude } => Ok(Command::RunTest {
                include: copy_of(include)?,
                exclude: copy_of(exclude)?,
            }),
            Command::StopTest => Ok(Command::StopTest),
            Command::Discover(arg) => Ok(Command::Discover(arg.clone()?)),
            Command::Log(code, text) => Ok(Command::Log(*code, text.clone()?)),
            Command::Stop => Ok(Command::Stop),
        }
    }
}

impl ExactClone for Command {
    ghost copies = { λ x y h. h };
}
