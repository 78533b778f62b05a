// A text after a list of changes.
ghost use Rattle.std.specs.Prelude.{◌≡◌, ◌+◌, ◌<◌, ◌≤◌, ◌^◌, ℕ, List, length, drop, None, OnOk, IfOk, IfSome, IsNone, string_bytes, false};
ghost use Rattle.std.specs.List.{fold};
ghost use Rattle.text_core.specs.Changes.{document, IsOther};
ghost use Rattle.text_core.specs.CommonEnds.{ComesFrom};
ghost use Rattle.text_core.specs.Rebuilds.{begun, rebuilds};
ghost use Rattle.text_core.specs.Skips.{skips};
ghost use Rattle.text_core.specs.IndexInvariant.{IsKeptIn, IsNewDraft, IsMade, progress, text_of};
ghost use Rattle.text_core.specs.Whole.{is_whole, HaveRanges, IsLastWhole, Begins, taken};

use crate::change::ContentChange;
use crate::draft::{Draft, copy_with_room, edit, new_draft};
use crate::position::PositionEncoding;
use crate::splices::make;
use crate::text_index::TextIndex;
use plain::{Items, Steps, Text};
use std::alloc::{AllocError, Global};
use std::marker::Brand;
use std::mem;
use std::sync::ledger::{Blank, Ledger};

/// What a list of changes makes of a document.
#[derive(Drop)]
pub struct EditedDocument {
    /// The text with its lines, where it is another one than before.
    pub changed: Option<TextIndex>,
    /// Whether an edit could not be made, after the last change that is the whole text.
    pub skipped: bool,
}

/// Whether a change is the whole text.
fn is_whole(change: &ContentChange, limit: u32) -> bool
    ensures { result ≡ is_whole limit change.now }
{
    change.range.is_none() && change.text.len() <= limit as usize
}

/// The last change that is the whole text.
fn last_whole(changes: &[ContentChange], limit: u32) -> Option<usize>
    ensures { IsLastWhole limit changes.now result }
{
    let mut i = changes.len();
    while i > 0 {
        i -= 1;
        if is_whole(&changes[i], limit) {
            return Some(i);
        }
    }
    None
}

/// Makes one change, which isn't the whole text.
fn take_change<'a, L: Ledger>(
    draft: &mut Draft<'a>,
    alloc: Global,
    encoding: PositionEncoding,
    change: &'a ContentChange,
    limit: u32,
    steps: &mut Steps<L>,
) -> Result<(), AllocError>
    requires kept { IsKeptIn draft.old }
    requires size { draft.old.size ≤ limit }
    requires ranged { is_whole limit change.now ≡ false }
    ensures kept { OnOk result (IsKeptIn draft.new) }
    ensures size { OnOk result (draft.new.size ≤ limit) }
    ensures progress { let start = progress draft.old steps.old in
        OnOk result (progress draft.new steps.new ≡ taken encoding limit start change.now) }
    ensures most { let start = progress draft.old steps.old in
        steps.new ≤ (taken encoding limit start change.now).rebuilds }
    ensures least { steps.old ≤ steps.new }
    ensures from { OnOk result ((before : List ℕ) →
        ComesFrom before (text_of draft.old) draft.old.ends → ComesFrom before (text_of draft.new) draft.new.ends) }
{
    if change.text.len() > limit as usize {
        return Ok(());
    }
    let Some(range) = change.range else {
        return Ok(());
    };
    let text = change.text.as_str();
    edit(draft, alloc, encoding, range, text, limit, steps)
}

/// Makes changes none of which is the whole text.
fn take_changes<'a, L: Ledger>(
    draft: &mut Draft<'a>,
    alloc: Global,
    encoding: PositionEncoding,
    changes: &'a [ContentChange],
    limit: u32,
    steps: &mut Steps<L>,
) -> Result<(), AllocError>
    requires kept { IsKeptIn draft.old }
    requires size { draft.old.size ≤ limit }
    requires ranged { HaveRanges limit changes.now }
    ensures kept { OnOk result (IsKeptIn draft.new) }
    ensures size { OnOk result (draft.new.size ≤ limit) }
    ensures progress { let start = progress draft.old steps.old in
        OnOk result (progress draft.new steps.new ≡ fold (taken encoding limit) start changes.now) }
    ensures most { let start = progress draft.old steps.old in
        steps.new ≤ (fold (taken encoding limit) start changes.now).rebuilds }
    ensures least { steps.old ≤ steps.new }
    ensures from { OnOk result ((before : List ℕ) →
        ComesFrom before (text_of draft.old) draft.old.ends → ComesFrom before (text_of draft.new) draft.new.ends) }
{
    for change in changes {
        take_change(draft, alloc, encoding, change, limit, steps)?;
    }
    Ok(())
}

/// Makes changes none of which is the whole text on a new draft.
fn edit_draft<'a, L: Ledger>(
    draft: &mut Draft<'a>,
    alloc: Global,
    encoding: PositionEncoding,
    changes: &'a [ContentChange],
    limit: u32,
    steps: &mut Steps<L>,
) -> Result<(), AllocError>
    requires new { IsNewDraft draft.old }
    requires fits { length (string_bytes draft.old.text) ≤ limit }
    requires ranged { HaveRanges limit changes.now }
    ensures made { let end = fold (taken encoding limit) (begun (string_bytes draft.old.text)) changes.now in
        OnOk result (IsMade limit end draft.new) }
    ensures from { OnOk result (ComesFrom (string_bytes draft.old.text) (text_of draft.new) draft.new.ends) }
    ensures steps { let end = fold (taken encoding limit) (begun (string_bytes draft.old.text)) changes.now in
        OnOk result (steps.new ≡ steps.old + end.rebuilds) }
    ensures most { let end = fold (taken encoding limit) (begun (string_bytes draft.old.text)) changes.now in
        steps.new ≤ steps.old + end.rebuilds }
    ensures least { steps.old ≤ steps.new }
{
    take_changes(draft, alloc, encoding, changes, limit, steps)?;
    Ok(())
}

/// A text after changes none of which is the whole text.
fn edit_text<L: Ledger>(
    alloc: Global,
    encoding: PositionEncoding,
    text: String,
    changes: &[ContentChange],
    limit: u32,
    steps: &mut Steps<L>,
) -> Result<Text, AllocError>
    requires fits { length (string_bytes text) ≤ limit }
    requires ranged { HaveRanges limit changes.now }
    ensures text { let end = fold (taken encoding limit) (begun (string_bytes text)) changes.now in
        IfOk result (λ edited. edited ≡ end.text) }
    ensures steps { let end = fold (taken encoding limit) (begun (string_bytes text)) changes.now in
        OnOk result (steps.new ≡ steps.old + end.rebuilds) }
    ensures most { let end = fold (taken encoding limit) (begun (string_bytes text)) changes.now in
        steps.new ≤ steps.old + end.rebuilds }
    ensures least { steps.old ≤ steps.new }
{
    let mut draft = new_draft(alloc, text)?;
    edit_draft(&mut draft, alloc, encoding, changes, limit, steps)?;
    let Draft {
        text,
        mut splices,
        ..
    } = draft;
    Ok(Text::from_string(make(alloc, text, &mut splices)?))
}

/// How many bytes changes insert.
fn inserted_len(changes: &[ContentChange]) -> usize {
    let mut len = 0usize;
    for change in changes {
        len = len.saturating_add(change.text.len());
    }
    len
}

/// The last change that is the whole text, if there is one, and from which change on the others are made.
fn whole_text(alloc: Global, changes: &mut Vec<ContentChange>, limit: u32) -> Option<(Text, usize)>
    ensures none { IsNone result → HaveRanges limit changes.new.items }
    ensures same { IsNone result → changes.new.items ≡ changes.old.items }
    ensures within { IfSome result (λ start. start.1 ≤ length changes.new.items) }
    ensures begins { IfSome result (λ start. (contents : List ℕ) →
        Begins limit contents changes.old.items start.0 (drop start.1 changes.new.items)) }
{
    let i = last_whole(changes, limit)?;
    let text = mem::replace(&mut changes[i].text, Text::new(alloc));
    Some((text, i + 1))
}

/// The text to begin with, and from which change on the others are made.
fn begin(
    alloc: Global,
    file_contents: &str,
    changes: &mut Vec<ContentChange>,
    limit: u32,
) -> Result<(String, usize), AllocError>
    requires { length file_contents.now ≤ limit }
    ensures within { IfOk result (λ start. start.1 ≤ length changes.new.items) }
    ensures begins { IfOk result (λ start.
        Begins limit file_contents.now changes.old.items (string_bytes start.0) (drop start.1 changes.new.items)) }
{
    match whole_text(alloc, changes, limit) {
        Some((text, from)) => Ok((text.into_string(), from)),
        None => {
            let room = inserted_len(&*changes);
            Ok((copy_with_room(alloc, file_contents, room)?, 0))
        }
    }
}

/// The text after a list of changes, each made on the text that the ones before it leave. Dropped are changes whose
/// own text passes the limit. A change without a range is the whole text. One whose range has no place, or whose
/// result would pass the limit, is skipped. The steps counted are exactly the rebuilds of the index of lines that is kept
/// over the changes.
pub fn apply_with_limit<L: Ledger>(
    alloc: Global,
    encoding: PositionEncoding,
    file_contents: &str,
    content_changes: Items<ContentChange>,
    limit: u32,
    steps: &mut Steps<L>,
) -> Result<Text, AllocError>
    requires { length file_contents.now ≤ limit }
    ensures text { let end = document encoding limit file_contents.now content_changes in
        IfOk result (λ text. text ≡ end) }
    ensures rebuilds { let count = rebuilds encoding limit file_contents.now content_changes in
        OnOk result (steps.new ≡ steps.old + count) }

    // Also where memory runs out on the way.
    ensures most { let count = rebuilds encoding limit file_contents.now content_changes in
        steps.new ≤ steps.old + count }
    ensures one_each { steps.new ≤ steps.old + length content_changes }
    ensures least { steps.old ≤ steps.new }
{
    let mut changes = content_changes.into_vec();
    let (text, from) = begin(alloc, file_contents, &mut changes, limit)?;
    let edited = edit_text(alloc, encoding, text, &changes[from..], limit, steps)?;
    Ok(edited)
}

/// The same where nobody counts the steps.
fn edit_uncounted<L: Ledger>(
    alloc: Global,
    encoding: PositionEncoding,
    text: String,
    changes: &[ContentChange],
    blank: Blank,
) -> Result<Text, AllocError>
    requires name { blank.name ≡ L.name }
    requires parts { blank.parts ≡ L.parts }
    requires some { 0 < L.parts }
    requires fits { length (string_bytes text) ≤ u32.MAX }
    requires ranged { HaveRanges u32.MAX changes.now }
    ensures { let end = fold (taken encoding u32.MAX) (begun (string_bytes text)) changes.now in
        IfOk result (λ edited. edited ≡ end.text) }
{
    let mut steps = Steps::<L>::new(blank);
    edit_text(alloc, encoding, text, changes, u32::MAX, &mut steps)
}

/// The text after a list of changes, as `apply_with_limit` has it, with the limit of 4,294,967,295 bytes.
pub fn apply_document_changes(
    alloc: Global,
    encoding: PositionEncoding,
    file_contents: &str,
    content_changes: Items<ContentChange>,
) -> Result<Text, AllocError>
    requires { length file_contents.now ≤ u32.MAX }
    ensures { let end = document encoding u32.MAX file_contents.now content_changes in
        IfOk result (λ text. text ≡ end) }
{
    let mut changes = content_changes.into_vec();
    let (text, from) = begin(alloc, file_contents, &mut changes, u32::MAX)?;
    let edited = edit_uncounted::<Brand>(alloc, encoding, text, &changes[from..], Blank::new(1))?;
    Ok(edited)
}

/// A document after changes none of which is the whole text.
fn edit_index<L: Ledger>(
    alloc: Global,
    encoding: PositionEncoding,
    index: &TextIndex,
    changes: &[ContentChange],
    steps: &mut Steps<L>,
) -> Result<EditedDocument, AllocError>
    requires { HaveRanges u32.MAX changes.now }
    ensures text { let end = fold (taken encoding u32.MAX) (begun index.now) changes.now in
        IfOk result (λ edited. IsOther index.now end.text edited.changed) }
    ensures skipped { let end = fold (taken encoding u32.MAX) (begun index.now) changes.now in
        IfOk result (λ edited. edited.skipped ≡ end.skipped) }
    ensures steps { let end = fold (taken encoding u32.MAX) (begun index.now) changes.now in
        OnOk result (steps.new ≡ steps.old + end.rebuilds) }
    ensures most { let end = fold (taken encoding u32.MAX) (begun index.now) changes.now in
        steps.new ≤ steps.old + end.rebuilds }
    ensures least { steps.old ≤ steps.new }
{
    if changes.is_empty() {
        return Ok(EditedDocument {
            changed: None,
            skipped: false,
        });
    }
    let mut draft = index.draft(alloc, inserted_len(changes))?;
    edit_draft(&mut draft, alloc, encoding, changes, u32::MAX, steps)?;
    let Draft {
        text,
        mut splices,
        skipped,
        ends,
        ..
    } = draft;
    let edited = make(alloc, text, &mut splices)?;
    let changed = index.changed(alloc, edited, ends)?;
    Ok(EditedDocument { changed, skipped })
}

/// A whole text after changes none of which is the whole text, where the document had another text before.
fn edit_whole<L: Ledger>(
    alloc: Global,
    encoding: PositionEncoding,
    index: &TextIndex,
    text: Text,
    changes: &[ContentChange],
    steps: &mut Steps<L>,
) -> Result<EditedDocument, AllocError>
    requires fits { length text < 2 ^ 32 }
    requires ranged { HaveRanges u32.MAX changes.now }
    ensures text { let end = fold (taken encoding u32.MAX) (begun text) changes.now in
        IfOk result (λ edited. IsOther index.now end.text edited.changed) }
    ensures skipped { let end = fold (taken encoding u32.MAX) (begun text) changes.now in
        IfOk result (λ edited. edited.skipped ≡ end.skipped) }
    ensures steps { let end = fold (taken encoding u32.MAX) (begun text) changes.now in
        OnOk result (steps.new ≡ steps.old + end.rebuilds) }
    ensures most { let end = fold (taken encoding u32.MAX) (begun text) changes.now in
        steps.new ≤ steps.old + end.rebuilds }
    ensures least { steps.old ≤ steps.new }
{
    let whole = TextIndex::from_text(alloc, text)?;
    let EditedDocument { changed, skipped } = edit_index(alloc, encoding, &whole, changes, steps)?;
    Ok(EditedDocument {
        changed: changed.unwrap_or(whole).unless_same(index),
        skipped,
    })
}

/// A document after a list of changes, as `apply_with_limit` has it with the limit of 4,294,967,295 bytes, and whether one
/// of them was skipped. The lines before the edits and behind them are taken from the index, and the text is neither
/// searched nor compared there. Where the last change is the whole text, nothing of it is copied.
pub fn edit_with_steps<L: Ledger>(
    alloc: Global,
    encoding: PositionEncoding,
    index: &TextIndex,
    content_changes: Items<ContentChange>,
    steps: &mut Steps<L>,
) -> Result<EditedDocument, AllocError>
    ensures text { let end = document encoding u32.MAX index.now content_changes in
        IfOk result (λ edited. IsOther index.now end edited.changed) }
    ensures skipped { let told = skips encoding u32.MAX index.now content_changes in
        IfOk result (λ edited. edited.skipped ≡ told) }
    ensures rebuilds { let count = rebuilds encoding u32.MAX index.now content_changes in
        OnOk result (steps.new ≡ steps.old + count) }

    // Also where memory runs out on the way.
    ensures most { let count = rebuilds encoding u32.MAX index.now content_changes in
        steps.new ≤ steps.old + count }
    ensures least { steps.old ≤ steps.new }
{
    let mut changes = content_changes.into_vec();
    match whole_text(alloc, &mut changes, u32::MAX) {
        Some((text, from)) => { edit_whole(alloc, encoding, index, text, &changes[from..], steps) }
        None => edit_index(alloc, encoding, index, &changes, steps),
    }
}

/// The same where nobody counts the steps.
fn edit_document_uncounted<L: Ledger>(
    alloc: Global,
    encoding: PositionEncoding,
    index: &TextIndex,
    content_changes: Items<ContentChange>,
    blank: Blank,
) -> Result<EditedDocument, AllocError>
    requires name { blank.name ≡ L.name }
    requires parts { blank.parts ≡ L.parts }
    requires some { 0 < L.parts }
    ensures text { let end = document encoding u32.MAX index.now content_changes in
        IfOk result (λ edited. IsOther index.now end edited.changed) }
    ensures skipped { let told = skips encoding u32.MAX index.now content_changes in
        IfOk result (λ edited. edited.skipped ≡ told) }
{
    let mut steps = Steps::<L>::new(blank);
    edit_with_steps(alloc, encoding, index, content_changes, &mut steps)
}

/// A document after a list of changes, as `edit_with_steps` has it, where nobody counts the steps.
pub fn edit_document(
    alloc: Global,
    encoding: PositionEncoding,
    index: &TextIndex,
    content_changes: Items<ContentChange>,
) -> Result<EditedDocument, AllocError>
    ensures text { let end = document encoding u32.MAX index.now content_changes in
        IfOk result (λ edited. IsOther index.now end edited.changed) }
    ensures skipped { let told = skips encoding u32.MAX index.now content_changes in
        IfOk result (λ edited. edited.skipped ≡ told) }
{
    edit_document_uncounted::<Brand>(alloc, encoding, index, content_changes, Blank::new(1))
}
