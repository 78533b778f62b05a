// Lines of orders.
use crate::events::write_deferred;
use crate::page::Page;
use docs_vfs::{FileId, Root, VfsPath};
use method_table::{PoolClass, method_of};
use op_board::NativePass;
use plain::{Items, NoMemory, Text};
use project_model::{CheckScope, MacroPath, PackageSpecifier};
use ra_settings::LinkedProject;
use session_port::{Command, DiscoverArg, Job, JobKind, LogCode};

fn write_paths(page: &mut Page, paths: &[VfsPath]) -> Result<(), NoMemory> {
    for path in paths {
        page.word(path.as_str())?;
    }
    Ok(())
}

fn write_numbers(page: &mut Page, files: &[FileId]) -> Result<(), NoMemory> {
    page.word("files")?;
    for file in files {
        page.number(u64::from(file.0))?;
    }
    Ok(())
}

fn write_projects(page: &mut Page, projects: &[LinkedProject]) -> Result<(), NoMemory> {
    for project in projects {
        match project {
            LinkedProject::ProjectManifest(path) => page.word(path.as_str())?,
            LinkedProject::InlineProjectJson { project, .. } => page.json(project)?,
        }
    }
    Ok(())
}

fn write_macro_paths(page: &mut Page, paths: &[Items<(u32, MacroPath)>]) -> Result<(), NoMemory> {
    for workspace in paths {
        page.word("workspace")?;
        for (krate, path) in workspace.as_slice() {
            page.number(u64::from(*krate))?;
            match path {
                MacroPath::Built { library, .. } => page.word(library.as_str())?,
                MacroPath::Failed(error) => page.text(error.as_str())?,
            }
        }
    }
    Ok(())
}

fn write_ignored(page: &mut Page, ignored: &[(Text, Items<Text>)]) -> Result<(), NoMemory> {
    for (name, macros) in ignored {
        page.word("ignored")?;
        page.text(name.as_str())?;
        for name in macros.as_slice() {
            page.text(name.as_str())?;
        }
    }
    Ok(())
}

fn write_kind(page: &mut Page, kind: &JobKind) -> Result<(), NoMemory> {
    match kind {
        JobKind::Request {
            ticket,
            row,
            params,
        } => {
            page.word("request")?;
            page.number(*ticket)?;
            page.word(method_of(*row))?;
            page.json(params.as_json())
        }
        JobKind::Part {
            ticket,
            part,
            row,
            params,
            files,
        } => {
            page.word("part")?;
            page.number(*ticket)?;
            page.number(*part)?;
            page.word(method_of(*row))?;
            page.json(params.as_json())?;
            write_numbers(page, files.as_slice())
        }
        JobKind::Diagnostics {
            generation,
            pass,
            files,
        } => {
            page.word("diagnostics")?;
            page.number(*generation)?;
            page.word(match pass {
                NativePass::Syntax => "syntax",
                NativePass::Semantic => "semantic",
            })?;
            write_numbers(page, files.as_slice())
        }
        JobKind::Tests { files } => {
            page.word("tests")?;
            write_numbers(page, files.as_slice())
        }
        JobKind::Indexed { file, path } => {
            page.word("indexed")?;
            page.number(u64::from(file.0))?;
            page.word(path.as_str())
        }
        JobKind::ProcMacroSources { files } => {
            page.word("proc-macro-sources")?;
            write_numbers(page, files.as_slice())
        }
        JobKind::CheckScope { file, path } => {
            page.word("check-scope")?;
            page.number(u64::from(file.0))?;
            page.word(path.as_str())
        }
        JobKind::Prime => page.word("prime"),
        JobKind::FetchWorkspaces {
            projects,
            detached,
            path,
            force,
        } => {
            page.word("fetch-workspaces")?;
            write_projects(page, projects.as_slice())?;
            if !detached.is_empty() {
                page.word("detached")?;
                write_paths(page, detached.as_slice())?;
            }
            if let Some(path) = path {
                page.word("for")?;
                page.word(path.as_str())?;
            }
            if *force {
                page.word("forced")?;
            }
            Ok(())
        }
        JobKind::FetchBuildData { version } => {
            page.word("fetch-build-data")?;
            page.number(*version)
        }
        JobKind::LoadProcMacros { paths, ignored } => {
            page.word("load-proc-macros")?;
            write_macro_paths(page, paths.as_slice())?;
            write_ignored(page, ignored.as_slice())
        }
    }
}

fn write_job(page: &mut Page, job: &Job) -> Result<(), NoMemory> {
    page.word("spawn")?;
    page.number(job.number)?;
    page.word(match job.class {
        PoolClass::Worker => "worker",
        PoolClass::Latency => "latency",
        PoolClass::Formatting => "formatting",
    })?;
    write_kind(page, &job.kind)
}

fn write_roots(page: &mut Page, roots: &[Root]) -> Result<(), NoMemory> {
    for root in roots {
        page.word(if root.is_local { "local" } else { "library" })?;
        write_paths(page, root.include.as_slice())?;
        if !root.exclude.is_empty() {
            page.word("but")?;
            write_paths(page, root.exclude.as_slice())?;
        }
    }
    Ok(())
}

fn write_scope(page: &mut Page, scope: &CheckScope) -> Result<(), NoMemory> {
    let saved = match scope {
        CheckScope::Workspace { saved } => {
            page.word("workspace")?;
            saved
        }
        CheckScope::Package {
            package,
            target,
            saved,
            ..
        } => {
            page.word("package")?;
            page.text(match package {
                PackageSpecifier::Cargo { package_id } => package_id.as_str(),
                PackageSpecifier::BuildInfo { label } => label.as_str(),
            })?;
            if let Some((_, name)) = target {
                page.word("target")?;
                page.text(name.as_str())?;
            }
            saved
        }
    };
    match saved {
        Some(path) => {
            page.word("saved")?;
            page.word(path.as_str())
        }
        None => Ok(()),
    }
}

fn write_names(page: &mut Page, word: &str, names: &Option<Items<Text>>) -> Result<(), NoMemory> {
    if let Some(names) = names {
        page.word(word)?;
        for name in names.as_slice() {
            page.text(name.as_str())?;
        }
    }
    Ok(())
}

fn name_of(code: LogCode) -> &'static str {
    match code {
        LogCode::MalformedNotification => "malformed-notification",
        LogCode::UnhandledNotification => "unhandled-notification",
        LogCode::UnknownRequest => "unknown-request",
        LogCode::UnknownResponse => "unknown-response",
        LogCode::DuplicateOpen => "duplicate-open",
        LogCode::UnexpectedChange => "unexpected-change",
        LogCode::OrphanClose => "orphan-close",
        LogCode::UnknownSave => "unknown-save",
        LogCode::SkippedChange => "skipped-change",
        LogCode::BadPath => "bad-path",
        LogCode::StrangeResult => "strange-result",
        LogCode::SettingsError => "settings-error",
        LogCode::DiscoverWithoutSettings => "discover-without-settings",
        LogCode::CheckUnknownFile => "check-unknown-file",
        LogCode::FetchError => "fetch-error",
        LogCode::BuildError => "build-error",
        LogCode::SecondSettingsFile => "second-settings-file",
        LogCode::DiscoverError => "discover-error",
    }
}

/// The line of an order.
pub(crate) fn write_order(page: &mut Page, command: &Command) -> Result<(), NoMemory> {
    page.begin("order")?;
    match command {
        Command::Spawn(job) => write_job(page, job)?,
        Command::Revise(revision) => {
            page.word("revise")?;
            page.number(*revision)?;
        }
        Command::Defer(task) => {
            page.word("defer")?;
            write_deferred(page, task)?;
        }
        Command::SetLoader {
            load,
            watch,
            version,
        } => {
            page.word("set-loader")?;
            page.number(u64::from(*version))?;
            page.word(if *watch { "watched" } else { "unwatched" })?;
            write_roots(page, load.as_slice())?;
        }
        Command::Invalidate(path) => {
            page.word("invalidate")?;
            page.word(path.as_str())?;
        }
        Command::Timer(ticket) => {
            page.word("timer")?;
            page.number(*ticket)?;
        }
        Command::SetChecks(checks) => {
            page.word("set-checks")?;
            for (id, folder) in checks.as_slice() {
                page.number(*id)?;
                page.word(folder.as_str())?;
            }
        }
        Command::RestartCheck { id, scope } => {
            page.word("restart-check")?;
            page.number(*id)?;
            write_scope(page, scope)?;
        }
        Command::CancelCheck(id) => {
            page.word("cancel-check")?;
            page.number(*id)?;
        }
        Command::RunTest { include, exclude } => {
            page.word("run-test")?;
            write_names(page, "include", include)?;
            write_names(page, "exclude", exclude)?;
        }
        Command::StopTest => page.word("stop-test")?,
        Command::Discover(DiscoverArg::Buildfile(path)) => {
            page.word("discover buildfile")?;
            page.word(path.as_str())?;
        }
        Command::Discover(DiscoverArg::Path(path)) => {
            page.word("discover path")?;
            page.word(path.as_str())?;
        }
        Command::Log(code, text) => {
            page.word("log")?;
            page.word(name_of(*code))?;
            page.text(text.as_str())?;
        }
        Command::Stop => page.word("stop")?,
    }
    page.end()
}
