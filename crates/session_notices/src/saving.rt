// Documents that the client saves.
ghost use Rattle.std.specs.Prelude.{◌≡◌, ◌++◌, IfOk, OnOk};
ghost use Rattle.docs_vfs.specs.FileUrls.{path_of};
ghost use Rattle.docs_vfs.specs.declared.file_kinds.ChangeKind.TheVariants.{Modify as Modified};
ghost use Rattle.reload.specs.Refresh.{refreshes};
ghost use Rattle.session_port.specs.Refines.{Refines, RefinesTotal};
ghost use Rattle.session_port.specs.TurnState.{logged};
ghost use Rattle.session_port.specs.declared.command.LogCode.TheVariants.{BadPath};
ghost use Rattle.session_model.specs.Machine.{checks_restarted_if, file_checked_if, save_noted, saved_at, saved_file};
ghost use Rattle.session_model.specs.Restarting.{checks_all_on_save, checks_on_save};
ghost use Rattle.session_model.specs.Saving.{asked_by_save, builds_on_save, fetch_saved, is_detached, is_detached_at, is_detached_file, is_manifest, path_saved, rebuilt_on, save_cause, settings_root};
ghost use Rattle.session_model.specs.State.{State, watched_names};

use docs_vfs::{ChangeKind, SourceRoots, VfsPath, path_named};
use plain::Text;
use project_model::{ProjectWorkspace, WorkspaceKind};
use ra_config::Config;
use reload::should_refresh_for_change;
use session_activities::{check_file_if, restart_checks_if};
use session_model::{SessionFiles, TurnError};
use session_port::{LogCode, TurnOut};
use session_store::{
    Store, checks_all_on_save, is_loaded_file, is_unknown_file, log, watched_names,
};
use std::alloc::{AllocError, Global};
use workspaces::{FetchRequest, Workspaces};

fn is_detached(kind: WorkspaceKind) -> bool
    ensures { result ≡ is_detached kind }
{
    match kind {
        WorkspaceKind::Cargo | WorkspaceKind::Json => false,
        WorkspaceKind::DetachedFile => true,
    }
}

fn is_manifest(manifest: &Option<VfsPath>, path: &VfsPath) -> bool
    ensures { result ≡ is_manifest manifest.now path.now }
{
    match manifest {
        None => false,
        Some(manifest) => manifest == path,
    }
}

// Whether a path is a file that stands alone, and is a workspace by itself.
fn is_detached_at(path: &VfsPath, workspace: &ProjectWorkspace) -> bool
    ensures { result ≡ is_detached_at path.now workspace.now }
{
    is_detached(workspace.kind) && is_manifest(&workspace.manifest, path)
}

// The same of one of these workspaces.
fn is_detached_file(workspaces: &[ProjectWorkspace], path: &VfsPath) -> bool
    ensures { result ≡ is_detached_file workspaces.now path.now }
{
    workspaces
        .iter()
        .any(|workspace| is_detached_at(path, workspace))
}

// A cause that names a path.
fn cause_with(alloc: Global, cause: &str, path: &VfsPath) -> Result<Text, AllocError>
    ensures { IfOk result (λ text. text ≡ cause.now ++ path.now) }
{
    let mut text = Text::from_str(alloc, cause)?;
    text.push_str(path.as_str())?;
    Ok(text)
}

// The root at which the settings of a file are read: its own, where that is local.
fn settings_root(roots: &SourceRoots, path: &VfsPath) -> Option<u32>
    ensures { result ≡ settings_root roots.now path.now }
{
    let root = roots.root_of(path);
    if roots.is_local(root) {
        Some(root)
    } else {
        None
    }
}

// Whether saving a file may ask for build data.
fn builds_on_save(settings: &Config, roots: &SourceRoots, path: &VfsPath) -> bool
    ensures { result ≡ builds_on_save settings.now roots.now path.now }
{
    settings.cargo_build_scripts_rebuild_on_save(settings_root(roots, path))
}

// Whether a change of a file renews the workspaces.
fn refreshes(settings: &Config, path: &VfsPath) -> bool
    ensures { result ≡ refreshes path.now Modified (watched_names settings.now) }
{
    should_refresh_for_change(path, ChangeKind::Modify, watched_names(settings))
}

// Why a saved file asks for a fetch, if it does.
fn save_cause(
    alloc: Global,
    settings: &Config,
    present: &[ProjectWorkspace],
    path: &VfsPath,
) -> Result<Option<Text>, AllocError>
    ensures { IfOk result (λ cause. cause ≡ save_cause settings.now present.now path.now) }
{
    if refreshes(settings, path) {
        let cause = cause_with(alloc, "workspace vfs file change saved ", path)?;
        return Ok(Some(cause));
    }
    if is_detached_file(present, path) {
        return Ok(Some(cause_with(alloc, "detached file saved ", path)?));
    }
    Ok(None)
}

// Asks for build data if what it depends on changed, where this flag is set.
fn rebuild_on(workspaces: &mut Workspaces, saves: bool) -> Result<(), AllocError>
    ensures { OnOk result (workspaces.new ≡ rebuilt_on saves workspaces.old) }
{
    if saves {
        workspaces.rebuild()?;
    }
    Ok(())
}

// Asks for a fetch for this path, where there is a cause.
fn fetch_saved(workspaces: &mut Workspaces, cause: Option<Text>, path: VfsPath)
    ensures { workspaces.new ≡ fetch_saved cause path workspaces.old }
{
    if let Some(cause) = cause {
        let path = Some(path);
        workspaces.ask_fetch(cause, FetchRequest { path, force: false });
    }
}

// What a saved file asks for that is in the table and isn't excluded.
fn ask_by_save(
    alloc: Global,
    settings: &Config,
    roots: &SourceRoots,
    path: VfsPath,
    workspaces: &mut Workspaces,
) -> Result<(), AllocError>
    ensures { OnOk result (workspaces.new ≡ asked_by_save settings.now roots.now path workspaces.old) }
{
    let cause = save_cause(alloc, settings, workspaces.present(), &path)?;
    let saves = builds_on_save(settings, roots, &path);
    rebuild_on(workspaces, saves)?;
    fetch_saved(workspaces, cause, path);
    Ok(())
}

// A saved file that the table doesn't know is logged.
#[tactic(auto, unfolding(session_model::specs::Machine::save_noted))]
fn note_save(
    alloc: Global,
    unknown: bool,
    path: &VfsPath,
    out: &mut TurnOut,
) -> Result<(), TurnError>
    ensures { (state : State) → RefinesTotal result (save_noted unknown path.now (record { state = state; out = out.old })) state out.new }
{
    if !unknown {
        return Ok(());
    }
    let text = Text::from_str(alloc, path.as_str())?;
    log(LogCode::UnknownSave, text, out)
}

// A file that isn't in the table, or is excluded, asks for nothing.
fn ask_if_loaded(
    alloc: Global,
    settings: &Config,
    files: &SessionFiles,
    path: VfsPath,
    workspaces: &mut Workspaces,
) -> Result<(), AllocError>
    ensures { OnOk result (workspaces.new ≡ path_saved settings.now files.now path workspaces.old) }
{
    if !is_loaded_file(files, &path)? {
        return Ok(());
    }
    ask_by_save(alloc, settings, files.roots(), path, workspaces)
}

// A file was saved.
fn save(store: &mut Store, path: &VfsPath, out: &mut TurnOut) -> Result<(), TurnError>
    ensures { RefinesTotal result (saved_file path.now (record { state = store.old; out = out.old })) store.new out.new }
{
    let copy = path.clone()?;
    let unknown = is_unknown_file(&store.files, path)?;
    note_save(store.alloc, unknown, path, out)?;
    ask_if_loaded(
        store.alloc,
        store.client.settings(),
        &store.files,
        copy,
        &mut store.workspaces,
    )?;
    Ok(())
}

// Whether a saved file is checked, by the root at which its settings are read.
fn checks_on_save(settings: &Config, roots: &SourceRoots, path: &VfsPath) -> bool
    ensures { result ≡ checks_on_save settings.now roots.now path.now }
{
    settings.check_on_save(settings_root(roots, path))
}

// A file was saved, and is checked where the settings say so.
fn save_and_check(store: &mut Store, path: VfsPath, out: &mut TurnOut) -> Result<(), TurnError>
    ensures { Refines result (file_checked_if (checks_on_save store.old.client.settings store.old.files.host.world.roots path) path (saved_file path (record { state = store.old; out = out.old }))) store.new out.new }
{
    let checks = checks_on_save(store.client.settings(), store.files.roots(), &path);
    save(store, &path, out)?;
    check_file_if(store, checks, path, out)
}

// The URL of a saved document names no path: all checks restart where the settings say so.
fn save_nowhere(store: &mut Store, uri: Text, out: &mut TurnOut) -> Result<(), TurnError>
    ensures { Refines result (checks_restarted_if (checks_all_on_save store.old.client.settings) (logged BadPath uri (record { state = store.old; out = out.old }))) store.new out.new }
{
    let wanted = checks_all_on_save(store.client.settings());
    log(LogCode::BadPath, uri, out)?;
    restart_checks_if(store, wanted, out)
}

// A document is saved at the path of its URL.
#[tactic(auto, unfolding(session_model::specs::Machine::saved_at))]
pub(crate) fn on_save(store: &mut Store, uri: Text, out: &mut TurnOut) -> Result<(), TurnError>
    ensures { Refines result (saved_at (path_of uri) uri (record { state = store.old; out = out.old })) store.new out.new }
{
    match path_named(store.alloc, uri.as_str())? {
        Some(path) => save_and_check(store, path, out),
        None => save_nowhere(store, uri, out),
    }
}
