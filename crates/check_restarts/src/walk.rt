//! A walk from crates to those that depend on them.
ghost use Rattle.std.specs.Prelude.{◌≡◌, ◌∷◌, [], false, length, replicate, IfOk, OnOk};
ghost use Rattle.check_restarts.specs.Dependents.{MarksAffected};
ghost use Rattle.check_restarts.specs.Walk.{row_at, is_within, depends_by, Reached, WentOn};

use plain::{Items, NoMemory};
use std::alloc::Global;

/// Marks a crate, which then waits, unless it is marked already.
fn mark(marks: &mut [bool], waiting: &mut Items<usize>, number: usize) -> Result<(), NoMemory>
    ensures { OnOk result (Reached (number ∷ []) marks.old waiting.old marks.new waiting.new) }
{
    if number < marks.len() && !marks[number] {
        waiting.push(number)?;
        marks[number] = true;
    }
    Ok(())
}

/// Marks these crates; those that weren't marked wait.
fn mark_each(marks: &mut [bool], waiting: &mut Items<usize>, row: &[usize]) -> Result<(), NoMemory>
    ensures { OnOk result (Reached row.now marks.old waiting.old marks.new waiting.new) }
{
    for number in row {
        mark(marks, waiting, *number)?;
    }
    Ok(())
}

fn row_at(rows: &[Items<usize>], number: usize) -> &[usize]
    ensures { result.now ≡ row_at rows.now number }
{
    match rows.get(number) {
        None => &[],
        Some(row) => row.as_slice(),
    }
}

/// Marks what depends on the crates that wait, until none does.
fn spread(
    rows: &[Items<usize>],
    marks: &mut [bool],
    waiting: &mut Items<usize>,
) -> Result<(), NoMemory>
    ensures { OnOk result (WentOn rows.now marks.old waiting.old marks.new []) }
{
    while let Some(number) = waiting.pop() {
        mark_each(marks, waiting, row_at(rows, number))?;
    }
    Ok(())
}

/// Marks the crates with these numbers and all that depend on one of them, where none is marked before.
fn mark_affected(
    alloc: Global,
    rows: &[Items<usize>],
    starts: &[usize],
    marks: &mut [bool],
) -> Result<(), NoMemory>
    requires { marks.old ≡ replicate (length rows.now) false }
    ensures { OnOk result (
        MarksAffected (depends_by rows.now) (is_within (length rows.now) starts.now) marks.new) }
{
    let mut waiting = Items::new(alloc);
    mark_each(marks, &mut waiting, starts)?;
    spread(rows, marks, &mut waiting)?;
    Ok(())
}

/// The marks of the crates with these numbers and of all that depend on one of them.
pub(crate) fn affected_marks(
    alloc: Global,
    rows: &[Items<usize>],
    starts: &[usize],
) -> Result<Vec<bool>, NoMemory>
    ensures { IfOk result (λ marks.
        MarksAffected (depends_by rows.now) (is_within (length rows.now) starts.now) marks.items) }
{
    let mut marks = vec![in alloc; false; rows.len()]?;
    mark_affected(alloc, rows, starts, &mut marks)?;
    Ok(marks)
}
