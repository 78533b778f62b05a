// What the messages of jobs end of the session's own work.
ghost use Rattle.std.specs.Prelude.{◌≡◌, IfOk};
ghost use Rattle.desk.specs.WorkEnds.{build_end, check_end, empty_lists, end_in, fetch_end, lists_end, load_end, tests_end, value_or_reason, work_end_of};

use docs_vfs::{FileId, VfsPath};
use lsp_types::Diagnostic;
use op_board::NativePass;
use plain::{Items, Json, NoMemory, Text};
use project_model::{BuildScripts, MacroState, ProjectWorkspace};
use session_port::{JobGroup, JobKind, JobResult, JobValue};
use std::alloc::Global;

/// What a fetch of workspaces came to: each workspace, found or not; or why there are none at all.
pub type FetchEnd = Result<Items<Result<ProjectWorkspace, Text>>, Text>;

/// What a run of build data came to: what the scripts of each workspace made, or why they made nothing; or why there is none at all.
pub type BuildEnd = Result<Items<Result<BuildScripts, Text>>, Text>;

/// What a load of macros came to: what became of those of each crate, by the crate's number; or why none were loaded at all.
pub type LoadEnd = Result<Items<(u32, MacroState)>, Text>;

/// What a message of a job ends of the session's own work, and what it came to.
#[derive(Drop)]
pub enum WorkEnd {
    /// A fetch of workspaces.
    Fetched(FetchEnd),
    /// A run of build data.
    Built(BuildEnd),
    /// A check of sources, which found these root files of crates.
    Checked(Items<VfsPath>),
    /// A load of macros.
    Loaded(LoadEnd),
    /// A part of a batch: what this pass found wrong in files, file by file.
    Diagnosed {
        generation: u64,
        pass: NativePass,
        lists: Items<(FileId, Items<Diagnostic>)>,
    },
    /// A search for the tests of these files, each test as the client is to read it.
    Tested {
        files: Items<FileId>,
        tests: Items<Json>,
    },
}

// The value of a job, or why there is none.
fn value_or_reason(alloc: Global, outcome: JobResult) -> Result<Result<JobValue, Text>, NoMemory>
    ensures { IfOk result (λ came. came ≡ value_or_reason outcome) }
{
    match outcome {
        JobResult::Value(value) => Ok(Ok(value)),
        JobResult::Fault { message, .. } => Ok(Err(message)),
        JobResult::Cancelled { .. } => Ok(Err(Text::from_str(alloc, "cancelled")?)),
        JobResult::NoMemory => Ok(Err(Text::from_str(alloc, "out of memory")?)),
    }
}

fn fetch_end(came: Result<JobValue, Text>) -> Option<WorkEnd>
    ensures { result ≡ fetch_end came }
{
    match came {
        Ok(JobValue::Workspaces(results)) => Some(WorkEnd::Fetched(Ok(results))),
        Ok(_) => None,
        Err(reason) => Some(WorkEnd::Fetched(Err(reason))),
    }
}

fn build_end(came: Result<JobValue, Text>) -> Option<WorkEnd>
    ensures { result ≡ build_end came }
{
    match came {
        Ok(JobValue::BuildData(results)) => Some(WorkEnd::Built(Ok(results))),
        Ok(_) => None,
        Err(reason) => Some(WorkEnd::Built(Err(reason))),
    }
}

fn load_end(came: Result<JobValue, Text>) -> Option<WorkEnd>
    ensures { result ≡ load_end came }
{
    match came {
        Ok(JobValue::ProcMacros(macros)) => Some(WorkEnd::Loaded(Ok(macros))),
        Ok(_) => None,
        Err(reason) => Some(WorkEnd::Loaded(Err(reason))),
    }
}

fn check_end(came: Result<JobValue, Text>) -> Option<WorkEnd>
    ensures { result ≡ check_end came }
{
    match came {
        Ok(JobValue::Roots(paths)) => Some(WorkEnd::Checked(paths)),
        Ok(_) | Err(_) => None,
    }
}

// What a job of this group ends that came to this.
fn end_in(group: JobGroup, came: Result<JobValue, Text>) -> Option<WorkEnd>
    ensures { result ≡ end_in group came }
{
    match group {
        JobGroup::Fetches => fetch_end(came),
        JobGroup::Builds => build_end(came),
        JobGroup::Loads => load_end(came),
        JobGroup::SourceChecks => check_end(came),
        _ => {
            drop(came);
            None
        }
    }
}

// An empty list for each of these files.
fn empty_lists(
    alloc: Global,
    files: &[FileId],
) -> Result<Items<(FileId, Items<Diagnostic>)>, NoMemory>
    ensures { IfOk result (λ lists. lists ≡ empty_lists files.now) }
{
    let mut lists = Items::new(alloc);
    for file in files {
        lists.push((*file, Items::new(alloc)))?;
    }
    Ok(lists)
}

// What a part of a batch comes to.
fn lists_end(
    alloc: Global,
    generation: u64,
    pass: NativePass,
    files: &[FileId],
    outcome: JobResult,
) -> Result<Option<WorkEnd>, NoMemory>
    ensures { IfOk result (λ end. end ≡ lists_end generation pass files.now outcome) }
{
    match outcome {
        JobResult::Value(JobValue::Diagnostics(lists)) => Ok(Some(WorkEnd::Diagnosed {
            generation,
            pass,
            lists,
        })),
        JobResult::Fault { .. } => Ok(Some(WorkEnd::Diagnosed {
            generation,
            pass,
            lists: empty_lists(alloc, files)?,
        })),
        _ => Ok(None),
    }
}

// What a search for tests comes to.
fn tests_end(files: &Items<FileId>, outcome: JobResult) -> Result<Option<WorkEnd>, NoMemory>
    ensures { IfOk result (λ end. end ≡ tests_end files.now outcome) }
{
    match outcome {
        JobResult::Value(JobValue::Tests(tests)) => Ok(Some(WorkEnd::Tested {
            files: files.clone()?,
            tests,
        })),
        _ => Ok(None),
    }
}

// What a job of this kind ends that came to this.
pub(super) fn work_end(
    alloc: Global,
    kind: &JobKind,
    outcome: JobResult,
) -> Result<Option<WorkEnd>, NoMemory>
    ensures { IfOk result (λ end. end ≡ work_end_of kind.now outcome) }
{
    match kind {
        JobKind::Diagnostics {
            generation,
            pass,
            files,
        } => lists_end(alloc, *generation, *pass, files.as_slice(), outcome),
        JobKind::Tests { files } => tests_end(files, outcome),
        kind => {
            let came = value_or_reason(alloc, outcome)?;
            Ok(end_in(kind.facts().group, came))
        }
    }
}
