// Jobs, and the commands to do them. Each call answers none where memory runs out.
ghost use Rattle.std.specs.Prelude.{◌≡◌, [], ◌∷◌, ◌++◌, IfSome, None};
ghost use Rattle.session_port.specs.Events.{job_of};
ghost use Rattle.session_port.specs.Record.{AreRising, spawned};

use analysis_host::{GlobalStateSnapshot, RowId, SnapshotParts, Versions, World};
use docs_vfs::{FileId, VfsPath};
use file_ids::FileIds;
use lsp_types::Diagnostic;
use method_table::PoolClass;
use op_board::NativePass;
use plain::{Items, Json, SharedJson, Text};
use project_model::{CheckScope, ProjectWorkspace};
use ra_config::Config;
use ra_settings::LinkedProject;
use session_port::{
    Command, DiscoverArg, DiscoverMsg, FlycheckMsg, HostEvent, Job, JobKind, JobResult, JobValue,
    TestMsg, TestOutput, TestState,
};
use small_project::workspaces_of;
use std::alloc::Global;
use std::sync::Arc;
use text_core::{Position, Range};

pub fn path(alloc: Global, text: &str) -> Option<VfsPath> {
    VfsPath::new(alloc, text).ok()?
}

/// The settings with the one workspace `/w`.
fn settings(alloc: Global) -> Option<Arc<Config>> {
    let config = Config::new(alloc, path(alloc, "/w")?, 4).ok()?;
    Arc::new(alloc, config).ok()
}

/// The project with the manifest `/a/Cargo.toml`.
fn projects(alloc: Global) -> Items<LinkedProject> {
    let mut projects = Items::new(alloc);
    if let Some(manifest) = path(alloc, "/a/Cargo.toml") {
        let _ = projects.push(LinkedProject::ProjectManifest(manifest));
    }
    projects
}

/// The one workspace of that project.
fn workspaces(alloc: Global) -> Option<Arc<Items<ProjectWorkspace>>> {
    let projects = projects(alloc);
    let workspaces = workspaces_of(alloc, projects.as_slice()).ok();
    drop(projects);
    Arc::new(alloc, workspaces?).ok()
}

/// The first revision, with one workspace.
fn snapshot(alloc: Global) -> Option<GlobalStateSnapshot> {
    let texts = World::new(alloc).ok().zip(Versions::new(alloc).ok());
    let ((world, versions), (config, workspaces)) = texts.zip(settings(alloc).zip(workspaces(
        alloc,
    )))?;
    GlobalStateSnapshot::new(SnapshotParts {
        world,
        file_ids: FileIds::new(alloc),
        versions,
        config,
        check_fixes: Arc::new(alloc, Items::new(alloc)).ok()?,
        proc_macros_loaded: false,
        workspaces,
        workspaces_version: 0,
        revision: 0,
    })
    .ok()
}

/// The files 0 and 1.
fn two_files(alloc: Global) -> Items<FileId> {
    let mut files = Items::new(alloc);
    let _ = files.push(FileId(0));
    let _ = files.push(FileId(1));
    files
}

/// The params null.
fn null_params(alloc: Global) -> Option<SharedJson> {
    SharedJson::new(alloc, Json::null()).ok()
}

/// Lists of diagnostics of two files.
fn lists(alloc: Global, pass: NativePass) -> JobKind {
    JobKind::Diagnostics {
        generation: 1,
        pass,
        files: two_files(alloc),
    }
}

/// What a job is to find out: builds; a check of two files, or one of no file; what its word says; else a request's question.
fn kind_of(alloc: Global, word: &str) -> Option<JobKind> {
    match word {
        "part" => Some(JobKind::Part {
            ticket: 1,
            part: 1,
            row: RowId(0),
            params: null_params(alloc)?,
            files: two_files(alloc),
        }),
        "syntax" => Some(lists(alloc, NativePass::Syntax)),
        "semantic" => Some(lists(alloc, NativePass::Semantic)),
        "tests" => Some(JobKind::Tests {
            files: two_files(alloc),
        }),
        "indexed" => Some(JobKind::Indexed {
            file: FileId(0),
            path: path(alloc, "/a")?,
        }),
        "scope" => Some(JobKind::CheckScope {
            file: FileId(0),
            path: path(alloc, "/a")?,
        }),
        "prime" => Some(JobKind::Prime),
        "check" => Some(JobKind::ProcMacroSources {
            files: two_files(alloc),
        }),
        "no check" => Some(JobKind::ProcMacroSources {
            files: Items::new(alloc),
        }),
        "builds" => Some(JobKind::FetchBuildData { version: 1 }),
        _ => Some(JobKind::Request {
            ticket: 1,
            row: RowId(0),
            params: null_params(alloc)?,
        }),
    }
}

/// An end of a job: its value, that it stopped at the first revision or behind it, else that it had no memory.
pub fn end_of(alloc: Global, word: &str) -> JobResult {
    match word {
        "json" => JobResult::Value(JobValue::Json(Json::null())),
        "builds" => JobResult::Value(JobValue::BuildData(Items::new(alloc))),
        "early" => JobResult::Cancelled { saw: 0 },
        "late" => JobResult::Cancelled { saw: 1 },
        _ => JobResult::NoMemory,
    }
}

/// A job of this kind on the first revision.
pub fn job_with(alloc: Global, number: u64, word: &str) -> Option<Job>
    ensures { IfSome result (λ job. job.number ≡ number) }
{
    let (kind, snapshot) = kind_of(alloc, word).zip(snapshot(alloc))?;
    Some(Job {
        number,
        class: PoolClass::Worker,
        kind,
        snapshot,
    })
}

fn add_spawn(commands: &mut Items<Command>, job: Job) -> Option<()>
    ensures { IfSome result (λ _. commands.new ≡ commands.old ++ Command.Spawn job ∷ []) }
{
    match commands.push(Command::Spawn(job)) {
        Ok(()) => Some(()),
        Err(_) => None,
    }
}

/// Adds the commands to do the jobs 7, a request's, and 9, of this kind.
fn add_jobs(alloc: Global, commands: &mut Items<Command>, word: &str) -> Option<()>
    requires { commands.old ≡ [] }
    ensures { IfSome result (λ _. AreRising 0 (spawned commands.new)) }
{
    let first = job_with(alloc, 7, "request")?;
    add_spawn(commands, first)?;
    let second = job_with(alloc, 9, word)?;
    add_spawn(commands, second)?;
    Some(())
}

/// An order of checks, of tests or of discoveries.
fn order_of(alloc: Global, word: &str) -> Option<Command>
    ensures { IfSome result (λ command. job_of command ≡ None) }
{
    match word {
        "set checks" => {
            let mut checks = Items::new(alloc);
            let _ = checks.push((0, path(alloc, "/w")?));
            Some(Command::SetChecks(checks))
        }
        "restart check" => Some(Command::RestartCheck {
            id: 0,
            scope: CheckScope::Workspace { saved: None },
        }),
        "cancel check" => Some(Command::CancelCheck(0)),
        "run tests" => Some(Command::RunTest {
            include: Some(Items::new(alloc)),
            exclude: None,
        }),
        "stop tests" => Some(Command::StopTest),
        "discover" => Some(Command::Discover(DiscoverArg::Path(path(alloc, "/a")?))),
        _ => None,
    }
}

/// One command alone.
fn alone(alloc: Global, command: Command) -> Option<Items<Command>>
    requires { job_of command ≡ None }
    ensures { IfSome result (λ commands. AreRising 0 (spawned commands)) }
{
    let mut commands = Items::new(alloc);
    match commands.push(command) {
        Ok(()) => Some(commands),
        Err(_) => {
            drop(commands);
            None
        }
    }
}

/// What is wrong at the beginning of a file.
fn diagnostic(alloc: Global) -> Option<Diagnostic> {
    let place = Position {
        line: 0,
        character: 0,
    };
    Some(Diagnostic {
        range: Range {
            start: place,
            end: place,
        },
        severity: Some(1),
        code: None,
        source: None,
        message: Text::from_str(alloc, "a").ok()?,
        related: Items::new(alloc),
    })
}

fn check_message(alloc: Global) -> Option<FlycheckMsg> {
    Some(FlycheckMsg::AddDiagnostic {
        id: 0,
        generation: 1,
        package: None,
        path: path(alloc, "/a")?,
        diagnostic: diagnostic(alloc)?,
        fix: Some(Json::null()),
    })
}

fn test_message(alloc: Global) -> Option<TestMsg> {
    let (target, name) = Text::from_str(alloc, "a")
        .ok()
        .zip(Text::from_str(alloc, "b").ok())?;
    let state = TestState::Ok;
    Some(TestMsg {
        target,
        output: TestOutput::Test { name, state },
    })
}

fn discovery_message(alloc: Global) -> Option<DiscoverMsg> {
    Some(DiscoverMsg::Finished {
        project: Json::null(),
        buildfile: Text::from_str(alloc, "a").ok()?,
    })
}

/// The list of one item.
fn list_of<T: Drop>(alloc: Global, item: T) -> Items<T> {
    let mut items = Items::new(alloc);
    let _ = items.push(item);
    items
}

/// What checks, a test run or a discovery tell.
pub fn news_of(alloc: Global, word: &str) -> Option<HostEvent> {
    match word {
        "checks" => Some(HostEvent::Flycheck(list_of(alloc, check_message(alloc)?))),
        "tests" => Some(HostEvent::TestResult(list_of(alloc, test_message(alloc)?))),
        "discovery" => Some(HostEvent::DiscoverProject(list_of(alloc, discovery_message(alloc)?))),
        _ => None,
    }
}

/// No command for `nothing`, an order of checks, tests or discoveries alone for its word, else the commands to do the jobs 7, a request's, and 9: a request's too for `jobs`, a check for `check`,
/// and the host's own for `builds`.
pub fn commands_of(alloc: Global, word: &str) -> Option<Items<Command>>
    ensures { IfSome result (λ commands. AreRising 0 (spawned commands)) }
{
    let mut commands = Items::new(alloc);
    if word == "nothing" {
        return Some(commands);
    }
    if let Some(command) = order_of(alloc, word) {
        drop(commands);
        return alone(alloc, command);
    }
    match add_jobs(alloc, &mut commands, word) {
        Some(()) => Some(commands),
        None => {
            drop(commands);
            None
        }
    }
}
