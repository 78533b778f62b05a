// Jobs, and what they come to.
ghost use Rattle.std.specs.Prelude.{◌≡◌};
ghost use Rattle.std.specs.List.{list_all};
ghost use Rattle.plain.specs.Plain.{is_plain};
ghost use Rattle.session_port.specs.Jobs.{fits_kind, fits_value, has_files, is_sound};
ghost use Rattle.session_port.specs.Kinds.{kind_of, listed_files};

use crate::copies::copy_of;
use crate::kinds::ValueKind;
use analysis_host::GlobalStateSnapshot;
use docs_vfs::{FileId, VfsPath};
use lsp_types::Diagnostic;
use method_table::{PoolClass, RowId};
use op_board::NativePass;
use plain::{ExactClone, Items, Json, SharedJson, Text};
use project_model::{BuildScripts, MacroPath, MacroState, ProjectWorkspace};
use ra_settings::LinkedProject;
use std::alloc::AllocError;

/// What a job is to find out: by the analysis, or, from `FetchWorkspaces` on, by the host itself.
#[derive(Drop)]
pub enum JobKind {
    /// The answer to the request with this ticket.
    Request {
        ticket: u64,
        row: RowId,
        params: SharedJson,
    },
    /// What these files add to the answer to the request with this ticket. The parts of a request are numbered from 0.
    Part {
        ticket: u64,
        part: u64,
        row: RowId,
        params: SharedJson,
        files: Items<FileId>,
    },
    /// What is wrong in these files, file by file, by this part of the analysis. The generation is that of the batch.
    Diagnostics {
        generation: u64,
        pass: NativePass,
        files: Items<FileId>,
    },
    /// The tests of these files.
    Tests {
        files: Items<FileId>,
    },
    /// Where the root files of the crates are that this file is part of, to know whether there is any.
    Indexed {
        file: FileId,
        path: VfsPath,
    },
    /// Where the root files of the crates are that these files are part of, file by file.
    ProcMacroSources {
        files: Items<FileId>,
    },
    /// The same of a file that was saved, to know what is to be checked for it.
    CheckScope {
        file: FileId,
        path: VfsPath,
    },
    /// What later questions need is to be found out beforehand.
    Prime,
    /// The workspaces of these projects and of these files that stand alone; `path` is the file for which they are fetched, and `force`
    /// says that crate data is built anew even where they are the same as before.
    FetchWorkspaces {
        projects: Items<LinkedProject>,
        detached: Items<VfsPath>,
        path: Option<VfsPath>,
        force: bool,
    },
    /// What the build scripts of the workspaces with this version make.
    FetchBuildData {
        version: u64,
    },
    /// The proc macros of the crates with these numbers, workspace by workspace. By the name of a crate, the macros that are not to be
    /// expanded.
    LoadProcMacros {
        paths: Items<Items<(u32, MacroPath)>>,
        ignored: Items<(Text, Items<Text>)>,
    },
}

/// A piece of work that is handed to the host.
#[derive(Drop)]
pub struct Job {
    pub number: u64,
    pub class: PoolClass,
    pub kind: JobKind,
    pub snapshot: GlobalStateSnapshot,
}

/// The value of a job, of the job's kind.
#[derive(Clone, Drop)]
pub enum JobValue {
    /// The result of a request, or of a part of one.
    Json(Json),
    /// What is wrong in files, file by file.
    Diagnostics(Items<(FileId, Items<Diagnostic>)>),
    /// The tests of files, each as the client is to read it.
    Tests(Items<Json>),
    /// Where the root files of crates are.
    Roots(Items<VfsPath>),
    /// What later questions need is found out.
    Primed,
    /// The workspaces of the projects, one after another.
    Workspaces(Items<Result<ProjectWorkspace, Text>>),
    /// What the build scripts made, workspace by workspace.
    BuildData(Items<Result<BuildScripts, Text>>),
    /// The proc macros of crates, by their numbers.
    ProcMacros(Items<(u32, MacroState)>),
}

/// How a job ended.
#[derive(Clone, Drop)]
pub enum JobResult {
    Value(JobValue),
    Fault { code: Option<i32>, message: Text },
    /// The job stopped, since it saw this revision, which is above its snapshot's.
    Cancelled { saw: u64 },
    NoMemory,
}

impl JobKind {
    /// The files for which its value has lists.
    pub(crate) fn listed_files(&self) -> &[FileId]
        ensures { result.now ≡ listed_files self.now }
    {
        match self {
            JobKind::Diagnostics { files, .. } => files.as_slice(),
            _ => &[],
        }
    }
}

// Whether there is a list for each of these files, in order, and no other.
fn has_files(files: &[FileId], lists: &[(FileId, Items<Diagnostic>)]) -> bool
    ensures { result ≡ has_files files.now lists.now }
{
    let mut remaining = files;
    for list in lists {
        match remaining.split_first() {
            Some((file, later)) if file.0 == list.0.0 => remaining = later,
            _ => return false,
        }
    }
    remaining.is_empty()
}

// Whether each is plain.
fn are_plain(values: &[Json]) -> bool
    ensures { result ≡ list_all is_plain values.now }
{
    values.iter().all(|value| value.is_plain())
}

impl JobValue {
    /// What it is of.
    pub fn kind(&self) -> ValueKind
        ensures { result ≡ kind_of self.now }
    {
        match self {
            JobValue::Json(_) => ValueKind::Json,
            JobValue::Diagnostics(_) => ValueKind::Diagnostics,
            JobValue::Tests(_) => ValueKind::Tests,
            JobValue::Roots(_) => ValueKind::Roots,
            JobValue::Primed => ValueKind::Primed,
            JobValue::Workspaces(_) => ValueKind::Workspaces,
            JobValue::BuildData(_) => ValueKind::BuildData,
            JobValue::ProcMacros(_) => ValueKind::ProcMacros,
        }
    }

    // Whether its JSON is plain, and it has lists for these files alone, in order.
    fn is_sound(&self, files: &[FileId]) -> bool
        ensures { result ≡ is_sound files.now self.now }
    {
        match self {
            JobValue::Json(json) => json.is_plain(),
            JobValue::Tests(values) => are_plain(values.as_slice()),
            JobValue::Diagnostics(lists) => has_files(files, lists.as_slice()),
            _ => true,
        }
    }

    // Whether a job of this kind may have it.
    fn fits(&self, kind: &JobKind) -> bool
        ensures { result ≡ fits_value kind.now self.now }
    {
        self.kind().is_same(kind.facts().value) && self.is_sound(kind.listed_files())
    }
}

impl JobResult {
    /// Whether a job of this kind may end so: a value is of its kind, JSON in it is plain, and lists of diagnostics are those of its
    /// files, in order.
    pub fn fits(&self, kind: &JobKind) -> bool
        ensures { result ≡ fits_kind kind.now self.now }
    {
        match self {
            JobResult::Value(value) => value.fits(kind),
            JobResult::Fault { .. } | JobResult::Cancelled { .. } | JobResult::NoMemory => true,
        }
    }
}

impl Clone for JobKind {
    ghost is_clone = { λ kind copy. copy ≡ kind };

    fn clone(&self) -> Result<JobKind, AllocError> {
        match self {
            JobKind::Request {
                ticket,
                row,
                params,
            } => Ok(JobKind::Request {
                ticket: *ticket,
                row: *row,
                params: params.clone()?,
            }),
            JobKind::Part {
                ticket,
                part,
                row,
                params,
                files,
            } => Ok(JobKind::Part {
                ticket: *ticket,
                part: *part,
                row: *row,
                params: params.clone()?,
                files: files.clone()?,
            }),
            JobKind::Diagnostics {
                generation,
                pass,
                files,
            } => Ok(JobKind::Diagnostics {
                generation: *generation,
                pass: *pass,
                files: files.clone()?,
            }),
            JobKind::Tests { files } => Ok(JobKind::Tests {
                files: files.clone()?,
            }),
            JobKind::Indexed { file, path } => Ok(JobKind::Indexed {
                file: *file,
                path: path.clone()?,
            }),
            JobKind::ProcMacroSources { files } => Ok(JobKind::ProcMacroSources {
                files: files.clone()?,
            }),
            JobKind::CheckScope { file, path } => Ok(JobKind::CheckScope {
                file: *file,
                path: path.clone()?,
            }),
            JobKind::Prime => Ok(JobKind::Prime),
            JobKind::FetchWorkspaces {
                projects,
                detached,
                path,
                force,
            } => Ok(JobKind::FetchWorkspaces {
                projects: projects.clone()?,
                detached: detached.clone()?,
                path: copy_of(path)?,
                force: *force,
            }),
            JobKind::FetchBuildData { version } => {
                Ok(JobKind::FetchBuildData { version: *version })
            }
            JobKind::LoadProcMacros { paths, ignored } => Ok(JobKind::LoadProcMacros {
                paths: paths.clone()?,
                ignored: ignored.clone()?,
            }),
        }
    }
}

impl Clone for Job {
    ghost is_clone = { λ job copy. copy ≡ job };

    fn clone(&self) -> Result<Job, AllocError> {
        Ok(Job {
            number: self.number,
            class: self.class,
            kind: self.kind.clone()?,
            snapshot: self.snapshot.clone()?,
        })
    }
}

impl ExactClone for Job {
    ghost copies = { λ x y h. h };
}
