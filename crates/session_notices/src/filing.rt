// Documents, the loader's files, and the world that is made of them.
ghost use Rattle.std.specs.Prelude.{◌≡◌, ◌<◌, ◌^◌, length, is_ok, Ok, IfOk};
ghost use Rattle.docs_vfs.specs.FileUrls.{path_of};
ghost use Rattle.session_port.specs.Refines.{Refines, RefinesTotal};
ghost use Rattle.session_model.specs.FilesFolds.{changed_files, has_changed};
ghost use Rattle.session_model.specs.FilesSteps.{changed_document, closed_document, loaded, opened_document, processed};
ghost use Rattle.session_model.specs.Machine.{at_files, loader_brought, loader_taken, document_changed_at, document_closed_at, files_done, files_followed, files_processed, document_opened_at, some_processed};
ghost use Rattle.session_model.specs.State.{columns_in, excludes_in};
ghost use Rattle.session_model.specs.Timing.{bring_files, brings_files};

use crate::answering::answering;
use crate::timing::{do_effects, effects_for, renew_timer_if};
use activities::scans_told;
use docs_vfs::{ChangedFile, VfsPath, path_named};
use notify::{DidChange, DidOpen};
use plain::{Items, Text};
use session_activities::tell_all;
use session_diagnostics::{clear_deleted, clear_file};
use session_model::TurnError;
use session_port::{LoaderMsg, LogCode, TurnOut};
use session_store::{Store, log};
use text_core::ContentChange;

// Whether a loader's message brings files.
fn brings_files(message: &LoaderMsg) -> bool
    ensures { result ≡ brings_files message.now }
{
    match message {
        LoaderMsg::Changed { .. } | LoaderMsg::Loaded { .. } => true,
        LoaderMsg::Progress { .. } => false,
    }
}

// Whether one of these does.
fn bring_files(messages: &[LoaderMsg]) -> bool
    ensures { result ≡ bring_files messages.now }
{
    messages.iter().any(|message| brings_files(message))
}

fn open_at(
    store: &mut Store,
    path: VfsPath,
    version: i32,
    text: Text,
    out: &mut TurnOut,
) -> Result<(), TurnError>
    requires { length text < 2 ^ 32 }
    ensures { Refines result (at_files (opened_document (excludes_in store.old.client.settings) path version text) (record { state = store.old; out = out.old })) store.new out.new }
{
    let excludes = store.client.settings().files_exclude();
    store.files.open(excludes, path, version, text, out)
}

// A document is open at the path of its URL. Answers whether it has one.
#[tactic(auto, unfolding(session_model::specs::Machine::document_opened_at))]
pub(crate) fn on_open(
    store: &mut Store,
    document: DidOpen,
    out: &mut TurnOut,
) -> Result<bool, TurnError>
    requires { length document.text < 2 ^ 32 }
    ensures meets { Refines result (document_opened_at (path_of document.uri) document (record { state = store.old; out = out.old })) store.new out.new }
    ensures came { IfOk result (λ came. came ≡ is_ok (path_of document.uri)) }
{
    match path_named(store.alloc, document.uri.as_str())? {
        Some(path) => {
            open_at(store, path, document.version, document.text, out)?;
            Ok(true)
        }
        None => {
            log(LogCode::BadPath, document.uri, out)?;
            Ok(false)
        }
    }
}

fn change_at(
    store: &mut Store,
    path: VfsPath,
    version: i32,
    changes: Items<ContentChange>,
    out: &mut TurnOut,
) -> Result<(), TurnError>
    ensures { Refines result (at_files (changed_document (columns_in store.old.client.settings) path version changes) (record { state = store.old; out = out.old })) store.new out.new }
{
    let columns = store.client.settings().encodings();
    store.files.change(columns, path, version, changes, out)
}

// A document is changed at the path of its URL.
#[tactic(auto, unfolding(session_model::specs::Machine::document_changed_at))]
pub(crate) fn on_change(
    store: &mut Store,
    change: DidChange,
    out: &mut TurnOut,
) -> Result<(), TurnError>
    ensures { Refines result (document_changed_at (path_of change.uri) change (record { state = store.old; out = out.old })) store.new out.new }
{
    match path_named(store.alloc, change.uri.as_str())? {
        Some(path) => change_at(store, path, change.version, change.changes, out),
        None => log(LogCode::BadPath, change.uri, out),
    }
}

// The document at a path is closed in the files.
fn close_at(store: &mut Store, path: VfsPath, out: &mut TurnOut) -> Result<(), TurnError>
    ensures { Refines result (at_files (λ f. Ok (closed_document path f)) (record { state = store.old; out = out.old })) store.new out.new }
{
    store.files.close(path, out)
}

// A document is closed at the path of its URL, and the lists of its file are emptied. Answers whether it has one.
#[tactic(auto, unfolding(session_model::specs::Machine::document_closed_at))]
pub(crate) fn on_close(store: &mut Store, uri: Text, out: &mut TurnOut) -> Result<bool, TurnError>
    ensures meets { Refines result (document_closed_at (path_of uri) uri (record { state = store.old; out = out.old })) store.new out.new }
    ensures went { IfOk result (λ went. went ≡ is_ok (path_of uri)) }
{
    match path_named(store.alloc, uri.as_str())? {
        Some(path) => {
            clear_file(store, &path)?;
            answering(close_at(store, path, out), true)
        }
        None => answering(log(LogCode::BadPath, uri, out), false),
    }
}

// What a loader brings, in the files.
fn load(store: &mut Store, messages: Items<LoaderMsg>, out: &mut TurnOut) -> Result<(), TurnError>
    ensures { Refines result (at_files (loaded messages) (record { state = store.old; out = out.old })) store.new out.new }
{
    store.files.load(messages, out)
}

// What a loader brings. Where it brings files, a fetch that waits gets a new timer.
fn bring(store: &mut Store, messages: Items<LoaderMsg>, out: &mut TurnOut) -> Result<(), TurnError>
    ensures { Refines result (loader_brought messages (record { state = store.old; out = out.old })) store.new out.new }
{
    let brings = bring_files(messages.as_slice());
    load(store, messages, out)?;
    renew_timer_if(&mut store.workspaces, brings, store.desk.turns());
    Ok(())
}

/// What a loader brings, and how far it is, which is told.
pub fn on_loader(
    store: &mut Store,
    messages: Items<LoaderMsg>,
    out: &mut TurnOut,
) -> Result<(), TurnError>
    ensures { Refines result (loader_taken messages (record { state = store.old; out = out.old })) store.new out.new }
{
    let root = store.client.settings().root_path();
    let told = scans_told(store.alloc, root, messages.as_slice())?;
    bring(store, messages, out)?;
    tell_all(store, told, out)
}

// What has changed goes into the world, and with files that came or went the source roots. Answers the files that have
// changed.
fn take_up(store: &mut Store, out: &mut TurnOut) -> Result<Items<ChangedFile>, TurnError>
    ensures meets { Refines result (at_files (processed store.old.sources.roots) (record { state = store.old; out = out.old })) store.new out.new }
    ensures changed { IfOk result (λ changed. changed ≡ changed_files store.old.files) }
{
    store.files.process(&store.roots, out)
}

// What follows from files that have changed is done; without any, nothing is.
#[tactic(auto, unfolding(session_model::specs::Machine::files_followed))]
fn follow_files(
    store: &mut Store,
    changed: &Items<ChangedFile>,
    out: &mut TurnOut,
) -> Result<(), TurnError>
    ensures { RefinesTotal result (files_followed changed.now (record { state = store.old; out = out.old })) store.new out.new }
{
    if changed.is_empty() {
        return Ok(());
    }
    let effects = effects_for(
        store.alloc,
        store.client.settings(),
        changed.as_slice(),
        &store.workspaces,
    )?;
    clear_deleted(store, changed.as_slice())?;
    do_effects(store, effects, out)
}

/// What has changed goes into the world: one change, and so one revision. The settings files among it go into the
/// settings, and the fetch that it asks for waits for a timer. Answers whether something has changed, also while files are
/// loading. After an `Err` the state is poisoned.
#[tactic(auto, unfolding(session_model::specs::Machine::files_processed))]
pub fn process_changes(store: &mut Store, out: &mut TurnOut) -> Result<bool, TurnError>
    ensures meets { Refines result (files_processed (record { state = store.old; out = out.old })) store.new out.new }
    ensures some { IfOk result (λ some. some ≡ has_changed store.old.files) }
{
    let changed = take_up(store, out)?;
    follow_files(store, &changed, out)?;
    Ok(!changed.is_empty())
}

/// The same behind the event of a turn, unless files are loading.
#[tactic(auto, unfolding(session_model::specs::Machine::files_done))]
pub fn process(store: &mut Store, out: &mut TurnOut) -> Result<bool, TurnError>
    ensures meets { Refines result (files_done (record { state = store.old; out = out.old })) store.new out.new }
    ensures some { IfOk result (λ some. some ≡ some_processed store.old.files) }
{
    if store.files.is_loading() {
        return Ok(false);
    }
    process_changes(store, out)
}
