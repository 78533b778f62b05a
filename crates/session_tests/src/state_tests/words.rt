// What a turn did in words, and what a snapshot shows.
use analysis_host::GlobalStateSnapshot;
use docs_vfs::{FileId, VfsPath};
use method_table::PoolClass;
use plain::Text;
use project_model::{CrateData, MacroState};
use ra_config::Config;
use session_model::{Counter, TurnError};
use session_port::{Command, Job, JobKind, LogCode};
use session_state::TurnOut;
use std::alloc::Global;
use workspaces::FetchRequest;

// The name of a check of sources, by the numbers of the files that it asks for.
fn check_name(files: &[FileId]) -> &'static str {
    match files {
        [] => "check",
        _ => "another check",
    }
}

fn class_name(class: PoolClass) -> &'static str {
    match class {
        PoolClass::Worker => "Worker",
        PoolClass::Latency => "Latency",
        PoolClass::Formatting => "Formatting",
    }
}

// The class of a job; a fetch that is forced has a name of its own, and so has a check of sources.
fn job_name(job: &Job) -> &'static str {
    match &job.kind {
        JobKind::FetchWorkspaces { force: true, .. } => "forced",
        JobKind::ProcMacroSources { files } => check_name(files.as_slice()),
        _ => class_name(job.class),
    }
}

// The name of what a command asks for.
fn command_name(command: &Command) -> &'static str {
    match command {
        Command::Spawn(job) => job_name(job),
        Command::Log(LogCode::FetchError, _) => "fetch error",
        Command::Log(_, _) => "log",
        Command::Revise(_) => "revise",
        Command::Invalidate(_) => "invalidate",
        Command::SetLoader { version: 1, .. } => "load",
        Command::SetLoader { .. } => "load anew",
        Command::Timer(1) => "timer 1",
        Command::Timer(_) => "another timer",
        Command::Defer(_) => "defer",
        Command::SetChecks(_) => "checks",
        Command::RestartCheck { .. } => "restart check",
        Command::CancelCheck(_) => "cancel check",
        Command::RunTest { .. } => "run test",
        Command::StopTest => "stop test",
        Command::Discover(_) => "discover",
        Command::Stop => "stop",
    }
}

fn push_words(text: &mut String, commands: &[Command]) -> Option<()> {
    for command in commands {
        text.push_str(command_name(command)).ok()?;
    }
    Some(())
}

/// Bytes as a text, where `\r` and `\n` stand for CR and LF.
fn escaped(alloc: Global, bytes: &[u8]) -> Option<String> {
    let text = str::from_utf8(bytes).ok()?;
    text.replace(alloc, "\r\n", "\\r\\n").ok()
}

fn fault_name(error: TurnError) -> &'static str {
    match error {
        TurnError::Exhausted { counter } => match counter {
            Counter::Turns => "no more turns",
            Counter::Bytes => "no more bytes",
            Counter::Jobs => "no more jobs",
            Counter::Revisions => "no more revisions",
            Counter::Outgoing => "no more outgoing",
            Counter::Files => "no more files",
            Counter::LoaderSettings => "no more loader settings",
            Counter::Discoveries => "no more discoveries",
        },
        TurnError::NoMemory => "no more memory",
    }
}

/// The bytes that a turn writes, and the names of its commands; or why it was broken off.
pub fn words(alloc: Global, out: &mut TurnOut, done: Result<(), TurnError>) -> Option<String> {
    if let Err(error) = done {
        return String::from_str(alloc, fault_name(error)).ok();
    }
    let bytes = out.take_bytes(alloc).ok()?;
    let mut text = escaped(alloc, bytes.as_slice())?;
    push_words(&mut text, out.commands())?;
    Some(text)
}

// Whether checks run when a file is saved, and how many folders there are.
fn settings_name(config: &Config) -> &'static str {
    match (config.check_on_save(None), config.workspace_roots().len()) {
        (true, 1) => "checked, 1 folder",
        (false, 1) => "unchecked, 1 folder",
        (true, 2) => "checked, 2 folders",
        _ => "other settings",
    }
}

// Whether files of the root with this number are checked when one is saved, and whether they have diagnostics.
fn root_name(config: &Config, root: u32) -> &'static str {
    match (
        config.check_on_save(Some(root)),
        config.diagnostics_enable(Some(root)),
    ) {
        (true, true) => "checked, diagnosed",
        (false, true) => "unchecked, diagnosed",
        (true, false) => "checked, undiagnosed",
        (false, false) => "unchecked, undiagnosed",
    }
}

// The local root of a snapshot's world in which a file is.
fn source_root_name(snapshot: &GlobalStateSnapshot, path: &VfsPath) -> &'static str {
    let root = snapshot.roots().root_of(path);
    match (snapshot.roots().is_local(root), root) {
        (true, 0) => "first root",
        (true, 1) => "second root",
        _ => "no root",
    }
}

// How many crates a graph has, and what became of the macros of the first crate of which it is told.
fn graph_name(data: &CrateData) -> &'static str {
    match (data.crates.len(), data.macros.get(0)) {
        (0, _) => "no crates",
        (1, None) => "one, no macros",
        (1, Some((_, MacroState::NotYetBuilt))) => "one, not yet built",
        (1, Some((_, MacroState::Disabled))) => "one, disabled",
        (1, Some((_, MacroState::Loaded(_)))) => "one, loaded",
        (1, Some((_, MacroState::Failed(_)))) => "one, failed",
        _ => "more crates",
    }
}

/// What a snapshot shows: of `root` the root in which `/w/a/b.rs` is.
pub fn shown(alloc: Global, snapshot: &GlobalStateSnapshot, asked: &str) -> Option<String> {
    let path = VfsPath::new(alloc, "/w/a/b.rs").ok()??;
    let name = match asked {
        "settings" => settings_name(snapshot.config()),
        "at first" => root_name(snapshot.config(), 0),
        "at second" => root_name(snapshot.config(), 1),
        "root" => source_root_name(snapshot, &path),
        _ => graph_name(snapshot.crate_data()),
    };
    String::from_str(alloc, name).ok()
}

/// Why a fetch is asked for that waits in the queue, and for which path.
pub fn fetch_text(alloc: Global, fetch: &Option<(Text, FetchRequest)>) -> Option<String> {
    let Some((cause, request)) = fetch else {
        return String::from_str(alloc, "no fetch").ok();
    };
    let force = if request.force { "forced " } else { "" };
    let path = match &request.path {
        None => "no path",
        Some(path) => path.as_str(),
    };
    [force, cause.as_str(), ", ", path].concat(alloc).ok()
}
