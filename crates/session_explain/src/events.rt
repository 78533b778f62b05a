// Lines of events.
use crate::page::Page;
use plain::{NoMemory, Text};
use project_model::{BuildScripts, MacroState, ProjectWorkspace};
use session_port::{
    CheckProgress, DeferredTask, DiscoverMsg, FlycheckMsg, HostEvent, JobResult, JobValue,
    LoadedFile, LoaderMsg, LoadingProgress, TaskBody, TaskMsg, TestMsg, TestOutput, TestState,
};

fn write_workspaces(
    page: &mut Page,
    results: &[Result<ProjectWorkspace, Text>],
) -> Result<(), NoMemory> {
    page.word("workspaces")?;
    for result in results {
        match result {
            Ok(workspace) => page.word(workspace.root.as_str())?,
            Err(error) => page.text(error.as_str())?,
        }
    }
    Ok(())
}

fn write_build_data(
    page: &mut Page,
    results: &[Result<BuildScripts, Text>],
) -> Result<(), NoMemory> {
    page.word("build-data")?;
    for result in results {
        match result {
            Ok(_) => page.word("ok")?,
            Err(error) => page.text(error.as_str())?,
        }
    }
    Ok(())
}

fn write_macros(page: &mut Page, crates: &[(u32, MacroState)]) -> Result<(), NoMemory> {
    page.word("proc-macros")?;
    for (krate, _) in crates {
        page.number(u64::from(*krate))?;
    }
    Ok(())
}

fn write_value(page: &mut Page, value: &JobValue) -> Result<(), NoMemory> {
    match value {
        JobValue::Json(json) => {
            page.word("json")?;
            page.json(json)
        }
        JobValue::Diagnostics(lists) => {
            page.word("diagnostics")?;
            for (file, list) in lists.as_slice() {
                page.number(u64::from(file.0))?;
                page.number(list.len() as u64)?;
            }
            Ok(())
        }
        JobValue::Tests(values) => {
            page.word("tests")?;
            for value in values.as_slice() {
                page.json(value)?;
            }
            Ok(())
        }
        JobValue::Roots(paths) => {
            page.word("roots")?;
            for path in paths.as_slice() {
                page.word(path.as_str())?;
            }
            Ok(())
        }
        JobValue::Primed => page.word("primed"),
        JobValue::Workspaces(results) => write_workspaces(page, results.as_slice()),
        JobValue::BuildData(results) => write_build_data(page, results.as_slice()),
        JobValue::ProcMacros(crates) => write_macros(page, crates.as_slice()),
    }
}

fn write_result(page: &mut Page, ended: &JobResult) -> Result<(), NoMemory> {
    match ended {
        JobResult::Value(value) => write_value(page, value),
        JobResult::Fault { code, message } => {
            page.word("fault")?;
            if let Some(code) = code {
                page.json(&plain::Json::from_i32(*code))?;
            }
            page.text(message.as_str())
        }
        JobResult::Cancelled { saw } => {
            page.word("cancelled")?;
            page.number(*saw)
        }
        JobResult::NoMemory => page.word("no-memory"),
    }
}

fn write_task(page: &mut Page, message: &TaskMsg) -> Result<(), NoMemory> {
    page.word("job")?;
    page.number(message.job)?;
    match &message.body {
        TaskBody::Begin => page.word("begin"),
        TaskBody::Report(text) => {
            page.word("report")?;
            page.text(text.as_str())
        }
        TaskBody::PrimeReport {
            done,
            total,
            crates,
        } => {
            page.word("prime")?;
            page.number(*done)?;
            page.number(*total)?;
            for name in crates.as_slice() {
                page.text(name.as_str())?;
            }
            Ok(())
        }
        TaskBody::Final(result) => write_result(page, result),
    }
}

fn write_files(page: &mut Page, files: &[LoadedFile]) -> Result<(), NoMemory> {
    for file in files {
        page.word(file.path.as_str())?;
        match &file.contents {
            Some(bytes) => page.number(bytes.len() as u64)?,
            None => page.word("none")?,
        }
    }
    Ok(())
}

fn write_loader(page: &mut Page, message: &LoaderMsg) -> Result<(), NoMemory> {
    match message {
        LoaderMsg::Changed { files } => {
            page.word("changed")?;
            write_files(page, files.as_slice())
        }
        LoaderMsg::Loaded { files } => {
            page.word("loaded")?;
            write_files(page, files.as_slice())
        }
        LoaderMsg::Progress {
            n_total,
            n_done,
            dir,
            config_version,
        } => {
            page.word("version")?;
            page.number(u64::from(*config_version))?;
            match n_done {
                LoadingProgress::Started => page.word("started")?,
                LoadingProgress::Progress(done) => {
                    page.word("done")?;
                    page.number(*done)?;
                }
                LoadingProgress::Finished => page.word("finished")?,
            }
            page.word("of")?;
            page.number(*n_total)?;
            if let Some(dir) = dir {
                page.word(dir.as_str())?;
            }
            Ok(())
        }
    }
}

pub(crate) fn write_deferred(page: &mut Page, task: &DeferredTask) -> Result<(), NoMemory> {
    match task {
        DeferredTask::CheckIfIndexed(path) => {
            page.word("check-if-indexed")?;
            page.word(path.as_str())
        }
        DeferredTask::CheckProcMacroSources(files) => {
            page.word("check-proc-macro-sources")?;
            for file in files.as_slice() {
                page.number(u64::from(file.0))?;
            }
            Ok(())
        }
    }
}

fn write_check(page: &mut Page, message: &FlycheckMsg) -> Result<(), NoMemory> {
    match message {
        FlycheckMsg::AddDiagnostic { id, path, .. } => {
            page.word("diagnostic")?;
            page.number(*id)?;
            page.word(path.as_str())
        }
        FlycheckMsg::ClearDiagnostics { id, .. } => {
            page.word("clear")?;
            page.number(*id)
        }
        FlycheckMsg::Progress { id, progress } => {
            page.word(match progress {
                CheckProgress::DidStart { .. } => "started",
                CheckProgress::DidCheckCrate(_) => "crate",
                CheckProgress::DidCancel => "cancelled",
                CheckProgress::DidFailToRestart(_) => "failed",
                CheckProgress::DidFinish(_) => "finished",
            })?;
            page.number(*id)
        }
    }
}

fn write_test(page: &mut Page, message: &TestMsg) -> Result<(), NoMemory> {
    page.text(message.target.as_str())?;
    match &message.output {
        TestOutput::Test { name, state } => {
            page.text(name.as_str())?;
            page.word(match state {
                TestState::Started => "started",
                TestState::Ignored => "ignored",
                TestState::Ok => "ok",
                TestState::Failed { .. } => "failed",
            })
        }
        TestOutput::Suite => page.word("suite"),
        TestOutput::Finished => page.word("finished"),
        TestOutput::Custom { text } => page.text(text.as_str()),
    }
}

fn write_discovery(page: &mut Page, message: &DiscoverMsg) -> Result<(), NoMemory> {
    match message {
        DiscoverMsg::Finished { buildfile, .. } => {
            page.word("finished")?;
            page.text(buildfile.as_str())
        }
        DiscoverMsg::Progress { message } => {
            page.word("progress")?;
            page.text(message.as_str())
        }
        DiscoverMsg::Error { error, .. } => {
            page.word("error")?;
            page.text(error.as_str())
        }
    }
}

/// The line of an event.
pub(crate) fn write_event(page: &mut Page, event: &HostEvent) -> Result<(), NoMemory> {
    page.begin("event")?;
    match event {
        HostEvent::Bytes(bytes) => {
            page.word("bytes")?;
            page.number(bytes.len() as u64)?;
        }
        HostEvent::Ended => page.word("ended")?,
        HostEvent::Tasks(messages) => {
            page.word("tasks")?;
            for message in messages.as_slice() {
                write_task(page, message)?;
            }
        }
        HostEvent::DeferredTask(tasks) => {
            page.word("deferred")?;
            for task in tasks.as_slice() {
                write_deferred(page, task)?;
            }
        }
        HostEvent::Vfs(messages) => {
            page.word("loader")?;
            for message in messages.as_slice() {
                write_loader(page, message)?;
            }
        }
        HostEvent::Flycheck(messages) => {
            page.word("checks")?;
            for message in messages.as_slice() {
                write_check(page, message)?;
            }
        }
        HostEvent::TestResult(messages) => {
            page.word("test")?;
            for message in messages.as_slice() {
                write_test(page, message)?;
            }
        }
        HostEvent::DiscoverProject(messages) => {
            page.word("discovery")?;
            for message in messages.as_slice() {
                write_discovery(page, message)?;
            }
        }
        HostEvent::Timer(ticket) => {
            page.word("timer")?;
            page.number(*ticket)?;
        }
    }
    page.end()
}
