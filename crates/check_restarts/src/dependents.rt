//! Which crates name which as a dependency, the other way round.
ghost use Rattle.std.specs.Prelude.{◌≡◌, ◌∷◌, [], length, replicate, IfOk, OnOk};
ghost use Rattle.check_restarts.specs.Walk.{Added, AreRows};

use plain::{Items, NoMemory};
use project_model::CrateInfo;
use std::alloc::Global;

/// Adds a crate to the row of another.
fn add(rows: &mut [Items<usize>], dep: u32, number: usize) -> Result<(), NoMemory>
    ensures { OnOk result (Added rows.old (dep ∷ []) number rows.new) }
{
    let dep = dep as usize;
    if dep < rows.len() {
        rows[dep].push(number)?;
    }
    Ok(())
}

/// Adds a crate to the row of each of its dependencies.
fn add_to_each(rows: &mut [Items<usize>], deps: &[u32], number: usize) -> Result<(), NoMemory>
    ensures { OnOk result (Added rows.old deps.now number rows.new) }
{
    for dep in deps {
        add(rows, *dep, number)?;
    }
    Ok(())
}

fn empty_rows(alloc: Global, count: usize) -> Result<Vec<Items<usize>>, NoMemory>
    ensures { IfOk result (λ rows. rows.items ≡ replicate count []) }
{
    let mut rows = Vec::new(alloc);
    for _ in 0..count {
        rows.push(Items::new(alloc))?;
    }
    Ok(rows)
}

/// Fills rows, which are empty before.
fn fill(rows: &mut [Items<usize>], crates: &[CrateInfo]) -> Result<(), NoMemory>
    requires { rows.old ≡ replicate (length crates.now) [] }
    ensures { OnOk result (AreRows (length crates.now) crates.now rows.new) }
{
    for (number, info) in crates.iter().enumerate() {
        add_to_each(rows, info.deps.as_slice(), number)?;
    }
    Ok(())
}

/// For each crate those that name it as a dependency.
pub(crate) fn dependents(alloc: Global, crates: &[CrateInfo]) -> Result<Vec<Items<usize>>, NoMemory>
    ensures { IfOk result (λ rows. AreRows (length crates.now) crates.now rows.items) }
{
    let mut rows = empty_rows(alloc, crates.len())?;
    fill(&mut rows, crates)?;
    Ok(rows)
}
