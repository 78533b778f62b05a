//! Which workspaces have a target whose root is among these.
ghost use Rattle.std.specs.Prelude.{◌≡◌, IfOk};
ghost use Rattle.check_restarts.specs.Among.{has_target, has_target_in, has_target_at, as_map, holds};

use docs_vfs::{ByPath, VfsPath};
use plain::NoMemory;
use project_model::{Package, ProjectWorkspace};
use std::alloc::Global;

/// The roots, to be searched.
pub(crate) fn as_map(alloc: Global, roots: &[VfsPath]) -> Result<ByPath<bool>, NoMemory>
    ensures { IfOk result (λ rows. rows ≡ as_map roots.now) }
{
    let mut rows = ByPath::new(alloc);
    for root in roots {
        rows.insert_new(root.clone()?, true)?;
    }
    Ok(rows)
}

fn has_target(rows: &ByPath<bool>, member: &Package) -> bool
    ensures { result ≡ has_target (holds rows.now) member.now }
{
    member
        .targets
        .iter()
        .any(|target| rows.contains(&target.root))
}

fn has_target_in(rows: &ByPath<bool>, workspace: &ProjectWorkspace) -> bool
    ensures { result ≡ has_target_in (holds rows.now) workspace.now }
{
    workspace
        .packages
        .iter()
        .any(|member| has_target(rows, member))
}

/// Whether the workspace at a place has such a target.
pub(crate) fn has_target_at(
    rows: &ByPath<bool>,
    workspaces: &[ProjectWorkspace],
    place: u64,
) -> bool
    ensures { result ≡ has_target_at (holds rows.now) workspaces.now place }
{
    match workspaces.get(place as usize) {
        None => false,
        Some(workspace) => has_target_in(rows, workspace),
    }
}
