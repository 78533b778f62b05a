// Events from words.
use docs_vfs::{FileId, VfsPath};
use lsp_frame::{Message, Notification, Request, RequestId, Response};
use plain::{Bytes, Items, Json, Text};
use project_model::{BuildScripts, CrateEntry, ProjectWorkspace, WorkspaceKind};
use ra_settings::LinkedProject;
use session_model::Event;
use session_port::{
    DeferredTask, JobResult, JobValue, LoadedFile, LoaderMsg, LoadingProgress, TaskBody, TaskMsg,
};
use small_project::{scripts_of, workspaces_of};
use std::alloc::Global;
use test_support::cut;

/// What words stand for.
trait Worded: Drop {
    /// None where these are the words of none, or where memory runs out.
    fn of(alloc: Global, words: &str) -> Option<Self>;
}

impl Worded for VfsPath {
    fn of(alloc: Global, words: &str) -> Option<Self> {
        VfsPath::new(alloc, words).ok()?
    }
}

/// `PATH TEXT`: a file of the loader. Without a text it is gone.
impl Worded for LoadedFile {
    fn of(alloc: Global, words: &str) -> Option<Self> {
        let (path, text) = cut(words, " ");
        let path = VfsPath::of(alloc, path)?;
        if text.is_empty() {
            return Some(LoadedFile {
                path,
                contents: None,
            });
        }
        let contents = Some(Bytes::from_slice(alloc, text.as_bytes()).ok()?);
        Some(LoadedFile { path, contents })
    }
}

impl Worded for LinkedProject {
    fn of(alloc: Global, words: &str) -> Option<Self> {
        Some(LinkedProject::ProjectManifest(VfsPath::of(alloc, words)?))
    }
}

impl Worded for FileId {
    fn of(_alloc: Global, words: &str) -> Option<Self> {
        Some(FileId(words.parse::<u32>().ok()?))
    }
}

/// Numbers of files, of which a comma stands between two, ask whether these are the sources of macros.
impl Worded for DeferredTask {
    fn of(alloc: Global, words: &str) -> Option<Self> {
        Some(DeferredTask::CheckProcMacroSources(list(alloc, words, ",")?))
    }
}

fn push<T: Drop>(items: &mut Items<T>, item: T) -> Option<()> {
    items.push(item).ok()
}

fn one<T: Drop>(alloc: Global, item: T) -> Option<Items<T>> {
    let mut items = Items::new(alloc);
    push(&mut items, item)?;
    Some(items)
}

/// What words stand for between which this mark is; perhaps nothing.
fn list<T: Worded>(alloc: Global, words: &str, mark: &str) -> Option<Items<T>> {
    let mut items = Items::new(alloc);
    for word in words.split(mark) {
        if !word.is_empty() {
            items.push(T::of(alloc, word)?).ok()?;
        }
    }
    Some(items)
}

fn json(alloc: Global, text: &str) -> Option<Json> {
    Json::read(alloc, text.as_bytes()).ok()?
}

/// A request of the client with this id, or a notification.
fn call(alloc: Global, id: Option<i32>, method: &str, params: &str) -> Option<Message> {
    let method = Text::from_str(alloc, method).ok()?;
    let params = json(alloc, params)?;
    match id {
        Some(id) => Some(Message::Request(Request {
            id: RequestId::Number(id),
            method,
            params,
        })),
        None => Some(Message::Notification(Notification { method, params })),
    }
}

/// The client's response to the session's request 0.
fn response(alloc: Global, answer: &str) -> Option<Message> {
    Some(Message::Response(Response {
        id: Some(RequestId::Number(0)),
        result: Some(json(alloc, answer)?),
        error: None,
    }))
}

const OPENED: &str = r#"{"textDocument":{"uri":"file:///w/a.rs","version":1,"text":"a"}}"#;

const SAVED: &str = r#"{"textDocument":{"uri":"file://PATH"}}"#;

fn message(alloc: Global, kind: &str, words: &str) -> Option<Message> {
    let (method, params) = cut(words, " ");
    match kind {
        "ask" => call(alloc, Some(5), method, params),
        "tell" => call(alloc, None, method, params),
        "open" => call(alloc, None, "textDocument/didOpen", OPENED),
        "save" => {
            let params = SAVED.replace(alloc, "PATH", words).ok()?;
            call(alloc, None, "textDocument/didSave", params.as_str())
        }
        _ => response(alloc, words),
    }
}

/// How far the loader is, and with the settings of which version.
fn progress(kind: &str) -> (LoadingProgress, u32) {
    match kind {
        "loading" => (LoadingProgress::Started, 1),
        "loaded" => (LoadingProgress::Finished, 1),
        _ => (LoadingProgress::Finished, 2),
    }
}

fn loader_message(alloc: Global, kind: &str, words: &str) -> Option<LoaderMsg> {
    match kind {
        "file" => Some(LoaderMsg::Changed {
            files: list(alloc, words, " and ")?,
        }),
        "read" => Some(LoaderMsg::Loaded {
            files: list(alloc, words, " and ")?,
        }),
        _ => {
            let (n_done, config_version) = progress(kind);
            Some(LoaderMsg::Progress {
                n_total: 1,
                n_done,
                dir: None,
                config_version,
            })
        }
    }
}

/// What the result of a job has some of.
trait Brought: Drop {
    /// Changes it as words of the result say; none where memory runs out.
    fn change(&mut self, alloc: Global, kind: &str, words: &str) -> Option<()>;
}

impl Brought for BuildScripts {
    fn change(&mut self, _alloc: Global, _kind: &str, _words: &str) -> Option<()> {
        Some(())
    }
}

/// The proc macro crate whose root file this is.
fn crate_at(alloc: Global, root: &str) -> Option<CrateEntry> {
    Some(CrateEntry {
        root: VfsPath::of(alloc, root)?,
        name: None,
        deps: Items::new(alloc),
        is_proc_macro: true,
    })
}

/// Gives it the crate of a root file, or makes it one that is described as JSON or a file that is a workspace by itself.
impl Brought for ProjectWorkspace {
    fn change(&mut self, alloc: Global, kind: &str, words: &str) -> Option<()> {
        match kind {
            "crate" => push(&mut self.crates, crate_at(alloc, words)?)?,
            "described" => {
                self.kind = WorkspaceKind::Json;
                drop(self.manifest.take());
            }
            "alone" => self.kind = WorkspaceKind::DetachedFile,
            _ => {}
        }
        Some(())
    }
}

/// All of them, changed, and each without an error.
fn all_brought<T: Brought, E: Drop>(
    alloc: Global,
    made: Result<Items<T>, E>,
    kind: &str,
    words: &str,
) -> Option<Items<Result<T, Text>>> {
    let mut brought = Items::new(alloc);
    for mut item in made.ok()?.into_vec() {
        item.change(alloc, kind, words)?;
        brought.push(Ok(item)).ok()?;
    }
    Some(brought)
}

/// What a host that runs no build system answers for manifests, of which a comma stands between two, changed as further words say.
fn workspaces(
    alloc: Global,
    kind: &str,
    words: &str,
) -> Option<Items<Result<ProjectWorkspace, Text>>> {
    let (manifests, rest) = cut(words, " ");
    let projects = list::<LinkedProject>(alloc, manifests, ",")?;
    let made = workspaces_of(alloc, projects.as_slice());
    drop(projects);
    all_brought(alloc, made, kind, rest)
}

fn value(alloc: Global, kind: &str, words: &str) -> Option<JobValue> {
    match kind {
        "builds" => Some(JobValue::BuildData(Items::new(alloc))),
        "scripts" => Some(JobValue::BuildData(all_brought(
            alloc,
            scripts_of(alloc, 1),
            kind,
            words,
        )?)),
        "macros" => Some(JobValue::ProcMacros(Items::new(alloc))),
        "fetched" | "brought" | "crate" | "described" | "alone" => {
            Some(JobValue::Workspaces(workspaces(alloc, kind, words)?))
        }
        _ => None,
    }
}

fn outcome(alloc: Global, kind: &str, words: &str) -> Option<JobResult> {
    match kind {
        "failed" => Some(JobResult::Fault {
            code: None,
            message: Text::from_str(alloc, "x").ok()?,
        }),
        "stopped" => Some(JobResult::Cancelled { saw: 1 }),
        _ => Some(JobResult::Value(value(alloc, kind, words)?)),
    }
}

/// The job that words name first, the second, the third or the fourth, else the first; and what stands behind its name.
fn job_in(words: &str) -> (u64, &str) {
    let (name, rest) = cut(words, " ");
    match name {
        "second" => (2, rest),
        "third" => (3, rest),
        "fourth" => (4, rest),
        _ => (1, words),
    }
}

/// The final result of a job.
fn ended(alloc: Global, kind: &str, words: &str) -> Option<TaskMsg> {
    let (job, rest) = job_in(words);
    Some(TaskMsg {
        job,
        body: TaskBody::Final(outcome(alloc, kind, rest)?),
    })
}

/// `ask` and `tell` with a method and its params, `answer` with the result in the response to the session's request 0,
/// `loading` and `loaded` where files begin to load and are loaded, `reloaded` where they are by the loader's second settings, `file` and
/// `read` with a path, and perhaps a text, where the loader tells that a file has changed and where it has read it first, with `and` before
/// a second one, `open` where `/w/a.rs` is opened, `failed` and `stopped` as results of the first job, or of the `second`, the
/// `third` or the `fourth`, `fetched`, `builds` and `macros` as results that are no request's, `brought` where such a job
/// brings the workspaces of some manifests, `crate` where it brings one with the crate of a root
/// file, `described` where it brings one that is described as JSON, `alone` where it brings the file of a path that is a workspace by
/// itself, `save` where the client saves the file of a path, `scripts` where build scripts made nothing, `deferred` with tasks that were
/// put off, and `timer` with its ticket.
pub fn event_of(alloc: Global, event: &str) -> Option<Event> {
    let (kind, words) = cut(event, " ");
    match kind {
        "ask" | "tell" | "answer" | "open" | "save" => {
            Some(Event::Lsp(message(alloc, kind, words)?))
        }
        "loading" | "loaded" | "reloaded" | "file" | "read" => {
            Some(Event::Vfs(one(alloc, loader_message(alloc, kind, words)?)?))
        }
        "deferred" => Some(Event::Deferred(list(alloc, words, " ")?)),
        "timer" => Some(Event::Timer(words.parse::<u64>().unwrap_or(1))),
        _ => Some(Event::Task(one(alloc, ended(alloc, kind, words)?)?)),
    }
}
