//! The roots that a loader gets.
ghost use Rattle.std.specs.Prelude.{◌≡◌, ◌++◌, map, IfOk, OnOk};
ghost use Rattle.workspaces.specs.Roots.{excluding, loader_roots};

use docs_vfs::{Root, VfsPath};
use plain::{Items, NoMemory};
use project_model::ProjectWorkspace;
use std::alloc::Global;

/// A root that excludes these paths too.
fn excluding(exclude: &[VfsPath], root: &Root) -> Result<Root, NoMemory>
    ensures { IfOk result (λ made. made ≡ excluding exclude.now root.now) }
{
    let mut made = root.clone()?;
    push_each(&mut made.exclude, exclude)?;
    Ok(made)
}

fn push_each(list: &mut Items<VfsPath>, paths: &[VfsPath]) -> Result<(), NoMemory>
    ensures { OnOk result (list.new ≡ list.old ++ paths.now) }
{
    for path in paths {
        list.push(path.clone()?)?;
    }
    Ok(())
}

fn push_roots(list: &mut Items<Root>, exclude: &[VfsPath], roots: &[Root]) -> Result<(), NoMemory>
    ensures { OnOk result (list.new ≡ list.old ++ map (excluding exclude.now) roots.now) }
{
    for root in roots {
        list.push(excluding(exclude, root)?)?;
    }
    Ok(())
}

/// The roots of the workspaces, each of which excludes these paths too.
pub(crate) fn loader_roots(
    alloc: Global,
    exclude: &[VfsPath],
    workspaces: &[ProjectWorkspace],
) -> Result<Items<Root>, NoMemory>
    ensures { IfOk result (λ list. list ≡ loader_roots exclude.now workspaces.now) }
{
    let mut list = Items::new(alloc);
    for workspace in workspaces {
        push_roots(&mut list, exclude, workspace.roots.as_slice())?;
    }
    Ok(list)
}
