// Texts and their indices, and edits that stand apart.
use super::calls::{UTF16, add_changes, range};
use plain::{Items, Text};
use std::alloc::Global;
use text_core::{
    CompletionEdit, ContentChange, SharedText, TextEdit, TextIndex, all_edits_are_disjoint,
    apply_document_changes,
};

/// Whether a text becomes another by changes.
fn is_applied(
    alloc: Global,
    text: &str,
    changes: Items<ContentChange>,
    after: &str,
) -> Option<bool> {
    if text.len() > u32::MAX as usize {
        return None;
    }
    Some(
        apply_document_changes(alloc, UTF16, text, changes)
            .ok()?
            .is(after),
    )
}

/// Whether a text becomes another by the changes of a list.
pub fn becomes(alloc: Global, text: &str, list: &str, after: &str) -> Option<bool> {
    let mut changes = Items::new(alloc);
    add_changes(alloc, &mut changes, list)?;
    is_applied(alloc, text, changes, after)
}

/// Whether a text has so many lines.
pub fn has_lines(alloc: Global, text: &str, lines: u64) -> Option<bool> {
    if text.len() > u32::MAX as usize {
        return None;
    }
    Some(TextIndex::new(alloc, text).ok()?.lines() == lines)
}

/// Whether the index of a text that clones share is one of this text.
pub fn shares_index(alloc: Global, text: &str) -> Option<bool> {
    let copy = Text::from_str(alloc, text).ok()?;
    if copy.len() > u32::MAX as usize {
        return None;
    }
    let shared = SharedText::new(alloc, copy).ok()?;
    Some(shared.share().ok()?.text() == text)
}

/// Adds an edit of this range.
fn add_edit(alloc: Global, edits: &mut Vec<TextEdit>, word: &str) -> Option<()> {
    let range = range(word)?;
    let new_text = Text::new(alloc);
    edits.push(TextEdit { range, new_text }).ok()
}

/// Whether the edit of a completion, a further one of its own and one more stand apart, or don't.
pub fn are_apart(alloc: Global, own: &str, apart: bool) -> Option<bool> {
    let edit = CompletionEdit::Edit(range("1:1-2:2")?);
    let mut own_edits = Vec::new(alloc);
    let mut more = Vec::new(alloc);
    let are_added = add_edit(alloc, &mut own_edits, own).is_some()
        && add_edit(alloc, &mut more, "3:3-4:4").is_some();
    let are_apart = all_edits_are_disjoint(alloc, &edit, &own_edits, &more).ok();
    drop(own_edits);
    drop(more);
    Some(are_added && are_apart? == apart)
}
