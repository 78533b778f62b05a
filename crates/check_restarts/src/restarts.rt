//! The checks that restart.
ghost use Rattle.std.specs.Prelude.{◌≡◌, ◌==◌, ◌++◌, [], length, filter, map, if◌then◌else◌, IfOk, OnOk};
ghost use Rattle.std.specs.List.{list_any};
ghost use Rattle.check_restarts.specs.Among.{holds};
ghost use Rattle.check_restarts.specs.Restarts.{first_target, restart_at, alone_at, alone, place_of, is_it, is_affected, or_all, others_of, restarts_of};

use crate::affected::affected_roots;
use crate::alone::{first_target, package_scope, place_alone};
use crate::among::{as_map, has_target_at};
use docs_vfs::{ByPath, VfsPath};
use plain::{Items, NoMemory, copy};
use project_model::{CheckScope, CrateInfo, ProjectWorkspace, Restart, TargetSpec};
use std::alloc::Global;

fn is_any(checks: &[u64], place: usize) -> bool
    ensures { result ≡ list_any (λ id. id == place) checks.now }
{
    checks.iter().any(|id| *id == place as u64)
}

fn push_alone_at(
    alloc: Global,
    list: &mut Items<Restart>,
    workspaces: &[ProjectWorkspace],
    checks: &[u64],
    saved: &VfsPath,
    target: &TargetSpec,
    place: Option<usize>,
) -> Result<(), NoMemory>
    ensures { OnOk result (list.new ≡ list.old ++ alone_at workspaces.now checks.now saved.now target.now place) }
{
    match place {
        None => Ok(()),
        Some(place) => {
            if is_any(checks, place) {
                list.push(Restart {
                    id: place as u64,
                    scope: package_scope(alloc, workspaces, saved, target)?,
                })?;
            }
            Ok(())
        }
    }
}

/// Whether this is the place.
fn is_it(place: Option<usize>, id: u64) -> bool
    ensures { result ≡ is_it place id }
{
    match place {
        None => false,
        Some(place) => id == place as u64,
    }
}

fn is_affected(
    rows: &ByPath<bool>,
    workspaces: &[ProjectWorkspace],
    place: Option<usize>,
    id: u64,
) -> bool
    ensures { result ≡ is_affected (holds rows.now) workspaces.now place id }
{
    !is_it(place, id) && has_target_at(rows, workspaces, id)
}

/// The checks of affected workspaces.
fn affected_checks(
    alloc: Global,
    rows: &ByPath<bool>,
    workspaces: &[ProjectWorkspace],
    checks: &[u64],
    place: Option<usize>,
) -> Result<Items<u64>, NoMemory>
    ensures { IfOk result (λ list. list ≡ filter (is_affected (holds rows.now) workspaces.now place) checks.now) }
{
    let mut list = Items::new(alloc);
    for id in checks {
        if is_affected(rows, workspaces, place, *id) {
            list.push(*id)?;
        }
    }
    Ok(list)
}

fn or_all<'a>(checks: &'a [u64], place: Option<usize>, others: &'a [u64]) -> &'a [u64]
    ensures { result.now ≡ or_all checks.now place others.now }
{
    match place {
        Some(_) => others,
        None => { if others.is_empty() { checks } else { others } }
    }
}

fn push_restarts(list: &mut Items<Restart>, saved: &VfsPath, ids: &[u64]) -> Result<(), NoMemory>
    ensures { OnOk result (list.new ≡ list.old ++ map (restart_at saved.now) ids.now) }
{
    for id in ids {
        list.push(Restart {
            id: *id,
            scope: CheckScope::Workspace {
                saved: Some(copy(saved)?),
            },
        })?;
    }
    Ok(())
}

/// Adds the other checks.
fn push_others(
    alloc: Global,
    list: &mut Items<Restart>,
    crates: &[CrateInfo],
    paths: &[VfsPath],
    roots: &[VfsPath],
    workspaces: &[ProjectWorkspace],
    checks: &[u64],
    saved: &VfsPath,
    place: Option<usize>,
) -> Result<(), NoMemory>
    requires { length paths.now ≡ length crates.now }
    ensures { OnOk result (list.new ≡ list.old ++ map (restart_at saved.now)
        (others_of crates.now paths.now roots.now workspaces.now checks.now place)) }
{
    let affected = affected_roots(alloc, crates, paths, roots)?;
    let rows = as_map(alloc, affected.as_slice())?;
    let others = affected_checks(alloc, &rows, workspaces, checks, place)?;
    push_restarts(list, saved, or_all(checks, place, others.as_slice()))?;
    Ok(())
}

/// Adds the other checks, where whole workspaces are checked.
fn push_others_if(
    alloc: Global,
    list: &mut Items<Restart>,
    check_workspace: bool,
    crates: &[CrateInfo],
    paths: &[VfsPath],
    roots: &[VfsPath],
    workspaces: &[ProjectWorkspace],
    checks: &[u64],
    saved: &VfsPath,
    place: Option<usize>,
) -> Result<(), NoMemory>
    requires { length paths.now ≡ length crates.now }
    ensures { OnOk result (list.new ≡ list.old ++ (if check_workspace then map (restart_at saved.now)
        (others_of crates.now paths.now roots.now workspaces.now checks.now place) else [])) }
{
    if check_workspace {
        push_others(
            alloc, list, crates, paths, roots, workspaces, checks, saved, place,
        )
    } else {
        Ok(())
    }
}

/// Adds the check of the package, where it is checked alone, and tells the place of its workspace.
fn push_alone(
    alloc: Global,
    list: &mut Items<Restart>,
    check_workspace: bool,
    workspaces: &[ProjectWorkspace],
    checks: &[u64],
    saved: &VfsPath,
    target: &Option<TargetSpec>,
) -> Result<Option<usize>, NoMemory>
    ensures list { OnOk result (list.new ≡ list.old ++ alone check_workspace workspaces.now checks.now saved.now target.now) }
    ensures place { IfOk result (λ place. place ≡ place_of check_workspace workspaces.now target.now) }
{
    match target {
        None => Ok(None),
        Some(target) => {
            let place = place_alone(check_workspace, workspaces, target);
            push_alone_at(alloc, list, workspaces, checks, saved, target, place)?;
            Ok(place)
        }
    }
}

/// The checks that restart for a saved file. The roots are those of the crates that it belongs to, the paths those of
/// the roots of all crates, in order; the number of a check is the place of its workspace.
pub fn check_restarts(
    alloc: Global,
    crates: &[CrateInfo],
    paths: &[VfsPath],
    roots: &[VfsPath],
    saved: &VfsPath,
    workspaces: &[ProjectWorkspace],
    checks: &[u64],
    check_workspace: bool,
) -> Result<Items<Restart>, NoMemory>
    requires { length paths.now ≡ length crates.now }
    ensures { IfOk result (λ list. list ≡ restarts_of check_workspace crates.now paths.now roots.now workspaces.now
        checks.now saved.now) }
{
    let target = first_target(workspaces, roots)?;
    let mut list = Items::new(alloc);
    let place = push_alone(
        alloc,
        &mut list,
        check_workspace,
        workspaces,
        checks,
        saved,
        &target,
    )?;
    push_others_if(
        alloc,
        &mut list,
        check_workspace,
        crates,
        paths,
        roots,
        workspaces,
        checks,
        saved,
        place,
    )?;
    Ok(list)
}
