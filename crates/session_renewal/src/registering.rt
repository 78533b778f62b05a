// What the client is asked to tell of.
ghost use Rattle.std.specs.Prelude.{◌≡◌, IfOk};
ghost use Rattle.session_port.specs.Refines.{Refines};
ghost use Rattle.session_model.specs.Asking.{watchers_asked};
ghost use Rattle.session_model.specs.Machine.{saves_registered, watchers_registered};
ghost use Rattle.session_model.specs.State.{watched_names};

use notify::{Outgo, Watcher};
use plain::{Items, NoMemory, Text};
use project_model::ProjectWorkspace;
use ra_config::Config;
use reload::watchers;
use session_model::{ReqHandler, TurnError};
use session_port::TurnOut;
use session_store::{Store, client_watches};
use std::alloc::Global;

// The names of the files that the command which discovers the projects watches.
fn names_to_watch(alloc: Global, settings: &Config) -> Result<Items<Text>, NoMemory>
    ensures { IfOk result (λ names. names ≡ watched_names settings.now) }
{
    match settings.workspace_discover_config() {
        None => Ok(Items::new(alloc)),
        Some(command) => command.files_to_watch.clone(),
    }
}

/// The client is asked to tell of the documents that it saves, where it can be asked.
#[tactic(auto, unfolding(session_model::specs::Machine::saves_registered, session_model::specs::Machine::asked_if))]
pub fn register_saves(store: &mut Store, out: &mut TurnOut) -> Result<(), TurnError>
    ensures { Refines result (saves_registered (record { state = store.old; out = out.old })) store.new out.new }
{
    if !store.client.settings().did_save_registration() {
        return Ok(());
    }
    let files_to_watch = names_to_watch(store.alloc, store.client.settings())?;
    store.send_request(
        Outgo::RegisterSave { files_to_watch },
        ReqHandler::Ignore,
        out,
    )
}

// The files of workspaces, by patterns as the client takes them.
fn files_to_watch(
    alloc: Global,
    settings: &Config,
    workspaces: &[ProjectWorkspace],
) -> Result<Items<Watcher>, NoMemory>
    ensures { IfOk result (λ asked. asked ≡ watchers_asked settings.now workspaces.now) }
{
    watchers(alloc, workspaces, settings.relative_pattern())
}

// The client is asked to watch the files of the workspaces that are present, where it is the client that watches.
#[tactic(auto, unfolding(session_model::specs::Machine::watchers_registered, session_model::specs::Machine::asked_if))]
pub(crate) fn register_watchers(store: &mut Store, out: &mut TurnOut) -> Result<(), TurnError>
    ensures { Refines result (watchers_registered (record { state = store.old; out = out.old })) store.new out.new }
{
    if !client_watches(store.client.settings()) {
        return Ok(());
    }
    let watchers = files_to_watch(
        store.alloc,
        store.client.settings(),
        store.workspaces.present(),
    )?;
    store.send_request(Outgo::RegisterWatch { watchers }, ReqHandler::Ignore, out)
}
