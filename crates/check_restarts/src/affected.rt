//! The roots of the crates that are affected by a change.
ghost use Rattle.std.specs.Prelude.{◌≡◌, ◌++◌, [], ◌∷◌, ℕ, length, if◌then◌else◌, IfOk, OnOk};
ghost use Rattle.check_restarts.specs.Affected.{affected_of};
ghost use Rattle.check_restarts.specs.Among.{holds};
ghost use Rattle.check_restarts.specs.Dependents.{is_in, is_at, picked};

use crate::among::as_map;
use crate::dependents::dependents;
use crate::walk::affected_marks;
use docs_vfs::{ByPath, VfsPath};
use plain::{Items, NoMemory};
use project_model::CrateInfo;
use std::alloc::Global;

fn push_if(list: &mut Items<usize>, holds: bool, number: usize) -> Result<(), NoMemory>
    ensures { OnOk result (list.new ≡ list.old ++ (if holds then number ∷ [] else [])) }
{
    if holds {
        list.push(number)?;
    }
    Ok(())
}

/// The numbers of the paths that are among the rows.
fn numbers_among(
    alloc: Global,
    rows: &ByPath<bool>,
    paths: &[VfsPath],
) -> Result<Items<usize>, NoMemory>
    ensures { IfOk result (λ list. (number : ℕ) → is_in list number ≡ is_at (holds rows.now) paths.now number) }
{
    let mut list = Items::new(alloc);
    for (number, path) in paths.iter().enumerate() {
        push_if(&mut list, rows.contains(path), number)?;
    }
    Ok(list)
}

/// The paths that are marked, in order.
fn picked(alloc: Global, marks: &[bool], paths: &[VfsPath]) -> Result<Items<VfsPath>, NoMemory>
    ensures { IfOk result (λ list. list ≡ picked marks.now paths.now) }
{
    let mut list = Items::new(alloc);
    let mut rest = paths;
    for mark in marks {
        match rest.split_first() {
            None => return Ok(list),
            Some((path, later)) => {
                if *mark {
                    list.push(path.clone()?)?;
                }
                rest = later;
            }
        }
    }
    Ok(list)
}

/// The roots of the crates whose root is among these, and of all crates that depend on one of them, over any number of
/// steps. The paths are those of the crates' roots, in order.
pub fn affected_roots(
    alloc: Global,
    crates: &[CrateInfo],
    paths: &[VfsPath],
    roots: &[VfsPath],
) -> Result<Items<VfsPath>, NoMemory>
    requires { length paths.now ≡ length crates.now }
    ensures { IfOk result (λ affected. affected ≡ affected_of crates.now paths.now roots.now) }
{
    let among = as_map(alloc, roots)?;
    let starts = numbers_among(alloc, &among, paths)?;
    let rows = dependents(alloc, crates)?;
    let marks = affected_marks(alloc, &rows, starts.as_slice())?;
    let affected = picked(alloc, &marks, paths)?;
    Ok(affected)
}
