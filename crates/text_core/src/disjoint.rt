// Whether the edits of a completion stand apart.
ghost use Rattle.std.specs.Prelude.{◌≡◌, ◌↔◌, ◌++◌, ℕ, IsTrue, IfOk, OnOk, map, true, All};
ghost use Rattle.std.specs.List.{AllPairs};
ghost use Rattle.std.specs.List.Sorted.{IsPermutation};
ghost use Rattle.text_core.specs.Edits.{is_at, at_most, is_prefix, is_lawful, own_range, ranges_of, in_order, is_sorted, is_chain, TellsApart, IsForward, AreApart};

use crate::change::{CompletionEdit, TextEdit};
use crate::position::{Position, Range};
use std::alloc::{AllocError, Global};

fn is_at(a: Position, b: Position) -> bool
    ensures { result ≡ is_at a b }
{
    a == b
}

fn is_at_most(a: Position, b: Position) -> bool
    ensures { result ≡ at_most a b }
{
    a <= b
}

fn is_prefix(insert: Range, replace: Range) -> bool
    ensures { result ≡ is_prefix insert replace }
{
    is_at(replace.start, insert.start)
        && is_at_most(insert.start, insert.end)
        && is_at_most(insert.end, replace.end)
}

fn is_lawful(edit: CompletionEdit) -> bool
    ensures { result ≡ is_lawful edit }
{
    match edit {
        CompletionEdit::InsertAndReplace { insert, replace } => is_prefix(insert, replace),
        _ => true,
    }
}

/// Each range ends no later than the next starts.
fn is_chain(ranges: &[Range]) -> bool
    ensures { result ≡ is_chain ranges.now }
{
    for i in 1..ranges.len() {
        if !is_at_most(ranges[i - 1].end, ranges[i].start) {
            return false;
        }
    }
    true
}

fn push_own_range(ranges: &mut Vec<Range>, edit: CompletionEdit) -> Result<(), AllocError>
    ensures { OnOk result (ranges.new.items ≡ ranges.old.items ++ own_range edit) }
{
    match edit {
        CompletionEdit::None => {}
        CompletionEdit::Edit(range) => ranges.push(range)?,
        CompletionEdit::InsertAndReplace { insert: _, replace } => ranges.push(replace)?,
    }
    Ok(())
}

fn push_ranges(ranges: &mut Vec<Range>, edits: &[TextEdit]) -> Result<(), AllocError>
    ensures { OnOk result (ranges.new.items ≡ ranges.old.items ++ map (λ e. e.range) edits.now) }
{
    for edit in edits {
        ranges.push(edit.range)?;
    }
    Ok(())
}

fn sort_ranges(ranges: &mut Vec<Range>)
    ensures same { IsPermutation ranges.old.items ranges.new.items }
    ensures rises { is_sorted ranges.new.items ≡ true }
{
    ranges.sort_unstable_by_key(|range| (range.start, range.end));
}

/// Whether the edit of a completion, its own further edits and more edits stand apart, so that they can be made in any
/// order. Of insert and replace the replace counts. Positions that lie outside the text count like others.
pub fn all_edits_are_disjoint(
    alloc: Global,
    edit: &CompletionEdit,
    own: &[TextEdit],
    more: &[TextEdit],
) -> Result<bool, AllocError>
    ensures chain { IfOk result (TellsApart (is_lawful edit.now) (ranges_of edit.now own.now more.now)) }

    // Where no range is reversed, it says whether of every two one ends no later than the other starts.
    ensures every_two { let ranges = ranges_of edit.now own.now more.now in
        is_lawful edit.now ≡ true → All IsForward ranges →
        IfOk result (λ answer. IsTrue answer ↔ AllPairs AreApart ranges) }
{
    if !is_lawful(*edit) {
        return Ok(false);
    }
    let mut ranges = Vec::new(alloc);
    push_own_range(&mut ranges, *edit)?;
    push_ranges(&mut ranges, own)?;
    push_ranges(&mut ranges, more)?;
    sort_ranges(&mut ranges);
    Ok(is_chain(&ranges))
}
