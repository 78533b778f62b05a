//! The roots of crates, and the files that they are loaded as.
ghost use Rattle.std.specs.Prelude.{◌≡◌, ◌++◌, map, IfOk, OnOk};
ghost use Rattle.project_model.specs.declared.crates.CrateEntry.{CrateEntry};
ghost use Rattle.reload.specs.Asked.{Asked};
ghost use Rattle.reload.specs.Graph.{crate_roots};

use docs_vfs::{FileId, VfsPath};
use plain::{Items, NoMemory};
use project_model::{CrateEntry, ProjectWorkspace};
use std::alloc::Global;

fn push_roots(roots: &mut Items<VfsPath>, entries: &[CrateEntry]) -> Result<(), NoMemory>
    ensures { OnOk result (roots.new ≡ roots.old ++ map (λ entry. entry.root) entries.now) }
{
    for entry in entries {
        roots.push(entry.root.clone()?)?;
    }
    Ok(())
}

/// The roots of the crates of all workspaces, in order.
pub fn crate_roots(
    alloc: Global,
    workspaces: &[ProjectWorkspace],
) -> Result<Items<VfsPath>, NoMemory>
    ensures { IfOk result (λ roots. roots ≡ crate_roots workspaces.now) }
{
    let mut roots = Items::new(alloc);
    for workspace in workspaces {
        push_roots(&mut roots, workspace.crates.as_slice())?;
    }
    Ok(roots)
}

/// What a closure answers for each of these paths, in order.
pub(crate) fn ask_each<F: FnMut(&VfsPath) -> Option<FileId>>(
    alloc: Global,
    roots: &[VfsPath],
    mut load: F,
) -> Result<Items<Option<FileId>>, NoMemory>
    requires { F.IsAlwaysCallable load }
    ensures { IfOk result (λ files. ((last : F) × Asked F.FnMut load roots.now files last)) }
{
    let mut files = Items::new(alloc);
    let mut rest = roots;
    while let Some((root, later)) = rest.split_first() {
        files.push(load(root))?;
        rest = later;
    }
    Ok(files)
}
