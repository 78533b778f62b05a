// Checks whether files are the sources of macros.
ghost use Rattle.std.specs.Prelude.{◌≡◌, filter, IfOk};
ghost use Rattle.std.specs.List.{list_any};
ghost use Rattle.analysis_host.specs.SnapshotFiles.{file_exists};
ghost use Rattle.session_port.specs.Refines.{Refines};
ghost use Rattle.session_model.specs.Checking.{check_kept, check_kind, has_macro_root, is_macro_root};
ghost use Rattle.session_model.specs.Machine.{all_resumed, resumed, with_workspaces};

use analysis_host::GlobalStateSnapshot;
use docs_vfs::{FileId, VfsPath};
use plain::Items;
use project_model::{CrateEntry, ProjectWorkspace};
use session_model::TurnError;
use session_port::{DeferredTask, JobKind, TurnOut};
use session_store::Store;
use std::alloc::{AllocError, Global};

// Whether this is a crate of macros with this root file.
fn is_macro_root(root: &VfsPath, entry: &CrateEntry) -> bool
    ensures { result ≡ is_macro_root root.now entry.now }
{
    entry.is_proc_macro && entry.root == *root
}

// Whether a crate of macros among these has this root file.
fn is_among(root: &VfsPath, crates: &[CrateEntry]) -> bool
    ensures { result ≡ list_any (is_macro_root root.now) crates.now }
{
    crates.iter().any(|entry| is_macro_root(root, entry))
}

// Whether a crate of macros of a workspace has one of these root files.
fn has_macro_root(roots: &[VfsPath], workspace: &ProjectWorkspace) -> bool
    ensures { result ≡ has_macro_root roots.now workspace.now }
{
    roots
        .iter()
        .any(|root| is_among(root, workspace.crates.as_slice()))
}

// Whether a crate of macros of one of these workspaces has one of these root files.
fn have_macro_root(roots: &[VfsPath], present: &[ProjectWorkspace]) -> bool
    ensures { result ≡ list_any (has_macro_root roots.now) present.now }
{
    present
        .iter()
        .any(|workspace| has_macro_root(roots, workspace))
}

// Those of these files that exist.
fn existing(
    alloc: Global,
    snapshot: &GlobalStateSnapshot,
    files: &[FileId],
) -> Result<Items<FileId>, AllocError>
    ensures { IfOk result (λ list. list ≡ filter (file_exists snapshot.now) files.now) }
{
    let mut list = Items::new(alloc);
    for file in files {
        if snapshot.file_exists(*file) {
            list.push(*file)?;
        }
    }
    Ok(list)
}

// What the job of a check of these files is to find.
fn check_kind(
    alloc: Global,
    snapshot: &GlobalStateSnapshot,
    files: &[FileId],
) -> Result<JobKind, AllocError>
    ensures { IfOk result (λ kind. kind ≡ check_kind snapshot.now files.now) }
{
    Ok(JobKind::ProcMacroSources {
        files: existing(alloc, snapshot, files)?,
    })
}

/// What build data depends on has changed, where a check found the root file of a crate of macros.
pub fn take_check(store: &mut Store, roots: Items<VfsPath>)
    ensures { store.new ≡ with_workspaces (check_kept roots store.old.workspaces) store.old }
{
    if have_macro_root(roots.as_slice(), store.workspaces.present()) {
        store.workspaces.change_build_deps();
    }
}

// A check of sources that was put off hands over its job, on the present snapshot. Nothing is done yet for the other task.
#[tactic(auto, unfolding(session_model::specs::Machine::resumed))]
fn resume(store: &mut Store, task: DeferredTask, out: &mut TurnOut) -> Result<(), TurnError>
    ensures { Refines result (resumed task (record { state = store.old; out = out.old })) store.new out.new }
{
    match task {
        DeferredTask::CheckIfIndexed(_) => Ok(()),
        DeferredTask::CheckProcMacroSources(files) => {
            let snapshot = store.snapshot()?;
            match check_kind(store.alloc, &snapshot, files.as_slice()) {
                Ok(kind) => store.hand_over_on(kind, snapshot, out),
                Err(_) => {
                    drop(snapshot);
                    Err(TurnError::NoMemory)
                }
            }
        }
    }
}

/// The tasks that were put off, one after another.
pub fn resume_all(
    store: &mut Store,
    tasks: Items<DeferredTask>,
    out: &mut TurnOut,
) -> Result<(), TurnError>
    ensures { Refines result (all_resumed tasks (record { state = store.old; out = out.old })) store.new out.new }
{
    for task in tasks.into_vec() {
        resume(store, task, out)?;
    }
    Ok(())
}
