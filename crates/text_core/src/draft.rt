// A text that is edited, with the line starts that are kept over the edits.
ghost use Rattle.std.specs.Prelude.{◌≡◌, ◌+◌, ◌-◌, ◌<◌, ◌≤◌, ◌^◌, ◌++◌, ℕ, List, length, slice_range, false, OnOk, IfOk, string_bytes};
ghost use Rattle.text_core.specs.Changes.{edited};
ghost use Rattle.text_core.specs.Positions.{range_of};
ghost use Rattle.text_core.specs.Rebuilds.{is_past, refreshed, after_edit, with_edit};
ghost use Rattle.text_core.specs.IndexInvariant.{IsKeptIn, IsNewDraft, progress, text_of};
ghost use Rattle.text_core.specs.CommonEnds.{ComesFrom};
ghost use Rattle.text_core.specs.Splices.{IsPart, lowest};
ghost use Rattle.text_core.specs.Starts.{line_starts, starts_in};

use crate::ends::{CommonEnds, ends_after};
use crate::offsets;
use crate::position::{OffsetFault, PositionEncoding, Range};
use crate::splices::{Splice, make};
use crate::starts::{find_starts, push_moved, push_starts, starts_up_to};
use plain::Steps;
use std::alloc::{AllocError, Global};
use std::mem;
use std::sync::ledger::Ledger;

/// A text, the edits of it that are put off, how many bytes the text has that they leave, the starts of the lines of the text as
/// it is, the least line at which an edit was put off, whether an edit was skipped, and how much of the first text no edit touched.
#[derive(Drop)]
pub(crate) struct Draft<'a> {
    pub(crate) text: String,
    pub(crate) splices: Vec<Splice<'a>>,
    pub(crate) size: usize,
    pub(crate) starts: Vec<u32>,
    pub(crate) least: Option<u32>,
    pub(crate) skipped: bool,
    pub(crate) ends: Option<CommonEnds>,
}

/// A text as a draft begins with, with room for so many bytes more.
pub(crate) fn copy_with_room(alloc: Global, text: &str, room: usize) -> Result<String, AllocError>
    ensures { IfOk result (λ copy. string_bytes copy ≡ text.now) }
{
    let mut copy = String::with_capacity(alloc, text.len().saturating_add(room))?;
    copy.push_str(text)?;
    Ok(copy)
}

/// A draft of a text.
pub(crate) fn new_draft<'a>(alloc: Global, text: String) -> Result<Draft<'a>, AllocError>
    requires { length (string_bytes text) < 2 ^ 32 }
    ensures new { IfOk result IsNewDraft }
    ensures text { IfOk result (λ draft. string_bytes draft.text ≡ string_bytes text) }
{
    let mut starts = Vec::new(alloc);
    find_starts(&mut starts, text.as_bytes())?;
    Ok(Draft {
        size: text.len(),
        text,
        splices: Vec::new(alloc),
        starts,
        least: None,
        skipped: false,
        ends: None,
    })
}

/// Whether the greater line of a range is at or past the least line.
fn is_past(range: Range, least: Option<u32>) -> bool
    ensures { result ≡ is_past range least }
{
    match least {
        Some(least) => least <= range.start.line.max(range.end.line),
        None => false,
    }
}

/// Puts the starts of a draft's text that stand past one place and up to another behind what a list holds, as far past a third
/// place as they are past the first.
fn push_kept(
    starts: &mut Vec<u32>,
    draft: &Draft,
    from: usize,
    end: usize,
    to: usize,
) -> Result<(), AllocError>
    requires known { draft.now.starts.items ≡ line_starts (string_bytes draft.now.text) }
    requires rising { from ≤ end }
    requires within { end ≤ length (string_bytes draft.now.text) }
    requires fits { end - from + to < 2 ^ 32 }
    ensures { let part = slice_range (string_bytes draft.now.text) from end in
        OnOk result (starts.new.items ≡ starts.old.items ++ starts_in to part) }
{
    let first = starts_up_to(&draft.starts, from);
    let last = starts_up_to(&draft.starts, end);
    push_moved(starts, &draft.starts[first..last], from, to)
}

/// The starts of the lines of the text that a draft stands for, in one pass from the last splice to the first. Only the texts of
/// the splices are searched.
fn made_starts(draft: &Draft, alloc: Global) -> Result<Vec<u32>, AllocError>
    requires kept { IsKeptIn draft.now }
    requires fits { draft.now.size < 2 ^ 32 }
    ensures { IfOk result (λ starts. starts.items ≡ line_starts (text_of draft.now)) }
{
    let mut starts = Vec::with_capacity(alloc, draft.starts.len())?;
    starts.push(0)?;
    let mut place = 0;
    let mut made = 0;
    for index in (0..draft.splices.len()).rev() {
        let splice = draft.splices[index];
        push_kept(&mut starts, draft, place, splice.start, made)?;
        made += splice.start - place;
        push_starts(&mut starts, splice.text.as_bytes(), made)?;
        made += splice.text.len();
        place = splice.end;
    }
    push_kept(&mut starts, draft, place, draft.text.len(), made)?;
    Ok(starts)
}

/// Makes what was put off where a range reaches lines that it may have moved. The starts of the lines are taken over.
fn refresh<L: Ledger>(
    draft: &mut Draft,
    alloc: Global,
    range: Range,
    steps: &mut Steps<L>,
) -> Result<(), AllocError>
    requires kept { IsKeptIn draft.old }
    requires fits { draft.old.size < 2 ^ 32 }
    ensures kept { OnOk result (IsKeptIn draft.new) }
    ensures size { OnOk result (draft.new.size ≡ draft.old.size) }
    ensures before { OnOk result (is_past range draft.new.least ≡ false) }
    ensures progress { let start = progress draft.old steps.old in
        OnOk result (progress draft.new steps.new ≡ refreshed range start) }
    ensures most { steps.new ≤ (refreshed range (progress draft.old steps.old)).rebuilds }
    ensures least { steps.old ≤ steps.new }
    ensures from { OnOk result ((before : List ℕ) →
        ComesFrom before (text_of draft.old) draft.old.ends → ComesFrom before (text_of draft.new) draft.new.ends) }
{
    if is_past(range, draft.least) {
        steps.tick();
        draft.starts = made_starts(&*draft, alloc)?;
        let text = mem::replace(&mut draft.text, String::new(alloc));
        let mut splices = mem::replace(&mut draft.splices, Vec::new(alloc));
        draft.text = make(alloc, text, &mut splices)?;
        draft.least = None;
    }
    Ok(())
}

/// The places of a range before the least line. No edit that was put off reaches down to them, so they are the same in the text
/// as it is.
fn range_of(
    draft: &Draft,
    encoding: PositionEncoding,
    range: Range,
) -> Result<(usize, usize), OffsetFault>
    requires kept { IsKeptIn draft.now }
    requires before { is_past range draft.now.least ≡ false }
    ensures value { result ≡ range_of encoding (text_of draft.now) range }
    ensures value_before { result ≡ range_of encoding (string_bytes draft.now.text) range }
    ensures below { let text = string_bytes draft.now.text in
        IfOk result (λ places. IsPart text (lowest (length text) draft.now.splices.items) places.0 places.1) }
    ensures rising { IfOk result (λ places. places.0 ≤ places.1) }
    ensures within { IfOk result (λ places. places.1 ≤ draft.now.size) }
{
    offsets::range_of(encoding, draft.text.as_str(), &draft.starts, range)
}

/// Puts a text in the place of a range, where that can be done. Else it is noted as skipped.
fn replace<'a>(
    draft: &mut Draft<'a>,
    encoding: PositionEncoding,
    range: Range,
    new_text: &'a str,
    limit: u32,
) -> Result<(), AllocError>
    requires kept { IsKeptIn draft.old }
    requires size { draft.old.size ≤ limit }
    requires before { is_past range draft.old.least ≡ false }
    requires fits { length new_text.now ≤ limit }
    ensures kept { OnOk result (IsKeptIn draft.new) }
    ensures size { OnOk result (draft.new.size ≤ limit) }
    ensures progress { let next = edited encoding limit (text_of draft.old) range new_text.now in
        OnOk result ((n : ℕ) → progress draft.new n ≡ after_edit range.start.line (progress draft.old n) next) }
    ensures from { OnOk result ((before : List ℕ) →
        ComesFrom before (text_of draft.old) draft.old.ends → ComesFrom before (text_of draft.new) draft.new.ends) }
{
    let Ok((start, end)) = range_of(&*draft, encoding, range) else {
        draft.skipped = true;
        return Ok(());
    };
    let size = draft.size - (end - start) + new_text.len();
    if size <= limit as usize {
        draft.splices.push(Splice {
            start,
            end,
            text: new_text,
        })?;
        draft.ends = Some(ends_after(draft.ends, start, draft.size - end));
        draft.size = size;
        draft.least = Some(range.start.line);
    } else {
        draft.skipped = true;
    }
    Ok(())
}

/// Makes one edit, on an index that knows its lines.
pub(crate) fn edit<'a, L: Ledger>(
    draft: &mut Draft<'a>,
    alloc: Global,
    encoding: PositionEncoding,
    range: Range,
    new_text: &'a str,
    limit: u32,
    steps: &mut Steps<L>,
) -> Result<(), AllocError>
    requires kept { IsKeptIn draft.old }
    requires size { draft.old.size ≤ limit }
    requires fits { length new_text.now ≤ limit }
    ensures kept { OnOk result (IsKeptIn draft.new) }
    ensures size { OnOk result (draft.new.size ≤ limit) }
    ensures progress { let start = progress draft.old steps.old in
        OnOk result (progress draft.new steps.new ≡ with_edit encoding limit range new_text.now start) }
    ensures most { let start = progress draft.old steps.old in
        steps.new ≤ (with_edit encoding limit range new_text.now start).rebuilds }
    ensures least { steps.old ≤ steps.new }
    ensures from { OnOk result ((before : List ℕ) →
        ComesFrom before (text_of draft.old) draft.old.ends → ComesFrom before (text_of draft.new) draft.new.ends) }
{
    refresh(draft, alloc, range, steps)?;
    replace(draft, encoding, range, new_text, limit)?;
    Ok(())
}
