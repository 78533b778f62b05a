// The status of the session, and how the client is told of it.
ghost use Rattle.std.specs.Prelude.{◌≡◌, ◌==◌, length, IfOk};
ghost use Rattle.std.specs.Option.{option_copied};
ghost use Rattle.ra_config.specs.Config.{projects_of};
ghost use Rattle.session_port.specs.Refines.{Refines};
ghost use Rattle.session_model.specs.Machine.{status_changed, status_done, status_kept, status_told};
ghost use Rattle.session_model.specs.State.{linked_of};
ghost use Rattle.session_model.specs.Status.{facts_known, health_text, lacks_projects, needs_reload, opens_logs, shown_as, shown_of, status_message, status_now};

use crate::failing::{has_build_error, has_fetch_error};
use crate::well::is_told;
use activities::Checks;
use notify::{MessageKind, Outgo};
use plain::{Items, NoMemory, Text};
use ra_config::Config;
use ra_settings::LinkedProject;
use session_model::{Client, SessionFiles, TurnError};
use session_port::TurnOut;
use session_store::{Store, is_quiescent, may_fetch};
use status::{Health, Status, StatusInput, status_with};
use std::alloc::{AllocError, Global};
use workspaces::Workspaces;

fn health_text(health: Health) -> &'static str
    ensures { result.now ≡ health_text health }
{
    match health {
        Health::Ok => "ok",
        Health::Warning => "warning",
        Health::Error => "error",
    }
}

fn copied(message: &Option<Text>) -> Result<Option<Text>, AllocError>
    ensures { IfOk result (λ copy. copy ≡ message.now) }
{
    match message {
        None => Ok(None),
        Some(message) => Ok(Some(message.clone()?)),
    }
}

// A status, for a client that takes them.
fn status_message(alloc: Global, status: &Status) -> Result<Outgo, NoMemory>
    ensures { IfOk result (λ message. message ≡ status_message status.now) }
{
    Ok(Outgo::ServerStatus {
        health: Text::from_str(alloc, health_text(status.health))?,
        message: copied(&status.message)?,
        quiescent: status.quiescent,
    })
}

fn shown_as(health: Health, text: Text) -> Option<(Text, MessageKind)>
    ensures { result ≡ shown_as health text }
{
    match health {
        Health::Ok => None,
        Health::Warning => Some((text, MessageKind::Warning)),
        Health::Error => Some((text, MessageKind::Error)),
    }
}

// The text of a warning or an error, for any other client.
fn shown_of(status: &Status) -> Result<Option<(Text, MessageKind)>, AllocError>
    ensures { IfOk result (λ text. text ≡ shown_of status.now) }
{
    match &status.message {
        None => Ok(None),
        Some(message) => Ok(shown_as(status.health, message.clone()?)),
    }
}

// A copy of a text, if there is one.
fn copied_of(text: Option<&Text>) -> Result<Option<Text>, AllocError>
    ensures { IfOk result (λ copy. copy ≡ option_copied text.entry) }
{
    match text {
        None => Ok(None),
        Some(text) => Ok(Some(text.clone()?)),
    }
}

// Whether there are no projects. Their list is made only where there are no roots, whose manifests are projects where no others are.
#[tactic(auto, using(crate::proofs::Projects::roots_have_projects))]
fn has_no_projects(alloc: Global, settings: &Config) -> Result<bool, AllocError>
    ensures { IfOk result (λ none. none ≡ (length (projects_of settings.now) == 0)) }
{
    if !settings.workspace_roots().is_empty() {
        return Ok(false);
    }
    let projects = settings.linked_or_discovered_projects(alloc)?;
    Ok(projects.len() == 0)
}

// Whether there is nothing to load: no projects, and no files that stand alone.
pub(crate) fn lacks_projects(alloc: Global, settings: &Config) -> Result<bool, AllocError>
    ensures { IfOk result (λ lacks. lacks ≡ lacks_projects settings.now) }
{
    let none = has_no_projects(alloc, settings)?;
    Ok(none && settings.detached_files().is_empty())
}

// Whether workspaces have changed, and wait until they are asked for.
pub(crate) fn needs_reload(settings: &Config, files: &SessionFiles, workspaces: &Workspaces) -> bool
    ensures { result ≡ needs_reload settings.now files.now workspaces.now }
{
    workspaces.is_fetch_requested() && !may_fetch(settings) && is_quiescent(files, workspaces)
}

// The facts of a status but for its lists.
fn facts_known(
    alloc: Global,
    client: &Client,
    files: &SessionFiles,
    workspaces: &Workspaces,
    checks: &Checks,
) -> Result<StatusInput, NoMemory>
    ensures { IfOk result (λ facts. record facts { linked = linked_of client.now.settings; workspaces = workspaces.now.present }
        ≡ facts_known client.now files.now workspaces.now checks.now) }
{
    let settings = client.settings();
    let config_errors = client.errors_text()?;
    let check_error = copied_of(checks.error())?;
    let no_projects = lacks_projects(alloc, settings)?;
    Ok(StatusInput {
        reload_needed: needs_reload(settings, files, workspaces),
        build_deps_changed: workspaces.have_build_deps_changed(),
        build_error: has_build_error(workspaces),
        config_errors,
        check_error,
        no_projects,
        workspace_error: has_fetch_error(settings, workspaces),
        linked: Items::new(alloc),
        workspaces: Items::new(alloc),
        fully_ready: is_quiescent(files, workspaces),
    })
}

// The projects that are linked.
fn linked_projects(client: &Client) -> &[LinkedProject]
    ensures { result.now ≡ linked_of client.now.settings }
{
    client.settings().linked_projects()
}

// The status of the present.
fn status_now(
    alloc: Global,
    client: &Client,
    files: &SessionFiles,
    workspaces: &Workspaces,
    checks: &Checks,
) -> Result<Status, NoMemory>
    ensures { IfOk result (λ status. status ≡ status_now client.now files.now workspaces.now checks.now) }
{
    let facts = facts_known(alloc, client, files, workspaces, checks)?;
    status_with(alloc, &facts, linked_projects(client), workspaces.present())
}

// Whether a text is shown with the button that opens the logs.
fn opens_logs(settings: &Config, workspaces: &Workspaces) -> bool
    ensures { result ≡ opens_logs settings.now workspaces.now }
{
    settings.open_server_logs()
        && (has_build_error(workspaces) || has_fetch_error(settings, workspaces))
}

// A client that takes statuses is told this one, and any other is shown its text.
#[tactic(auto, unfolding(session_model::specs::Machine::status_told, session_port::specs::TurnState::written))]
fn tell_status(store: &mut Store, status: &Status, out: &mut TurnOut) -> Result<(), TurnError>
    ensures { Refines result (status_told status.now (record { state = store.old; out = out.old })) store.new out.new }
{
    if store.client.settings().server_status_notification() {
        let message = status_message(store.alloc, status)?;
        store.client.tell(message, out)?;
        return Ok(());
    }
    let button = opens_logs(store.client.settings(), &store.workspaces);
    let text = shown_of(status)?;
    store.show_text(button, text, out)
}

// The same, where it is another than the last one.
#[tactic(auto, unfolding(session_model::specs::Machine::status_changed))]
fn tell_change(store: &mut Store, status: &Status, out: &mut TurnOut) -> Result<(), TurnError>
    ensures { Refines result (status_changed status.now (record { state = store.old; out = out.old })) store.new out.new }
{
    if store.status.is_same(status) {
        return Ok(());
    }
    tell_status(store, status, out)
}

// And it is kept.
#[tactic(auto, unfolding(session_model::specs::Machine::status_kept))]
fn keep_status(store: &mut Store, status: Status, out: &mut TurnOut) -> Result<(), TurnError>
    ensures { Refines result (status_kept status (record { state = store.old; out = out.old })) store.new out.new }
{
    tell_change(store, &status, out)?;
    store.status = status;
    Ok(())
}

/// The status of the present is told where it is another than the last one, and kept.
#[tactic(auto, using(crate::proofs::Told::status_stays), unfolding(session_model::specs::Machine::status_done))]
pub fn report_status(store: &mut Store, out: &mut TurnOut) -> Result<(), TurnError>
    ensures { Refines result (status_done (record { state = store.old; out = out.old })) store.new out.new }
{
    if is_told(
        store.alloc,
        &store.client,
        &store.files,
        &store.workspaces,
        &store.activities.checks,
        &store.status,
    )? {
        return Ok(());
    }
    let status = status_now(
        store.alloc,
        &store.client,
        &store.files,
        &store.workspaces,
        &store.activities.checks,
    )?;
    keep_status(store, status, out)
}
