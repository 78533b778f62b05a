// The frames of a document's messages.
ghost use Rattle.std.specs.Prelude.{◌≡◌, ◌++◌, ◌∷◌, [], ◌<◌, length, IfOk, OnOk};
ghost use Rattle.message_generator.specs.Drafts.{IsPlainLine, edit_count, edited_times, last_draft, text_of};
ghost use Rattle.message_generator.specs.Messages.{changed as change_message, document_messages, edits, exits, frames_of, hovered as hover_message, opened as open_message};

use crate::draft::{Draft, EDITS, first_draft};
use crate::messages::{changed, exits, hovered, opened};
use lsp_frame::write_message;
use plain::{NoMemory, Text};
use std::alloc::Global;

/// A copy of the whole text.
fn text_of(draft: &Draft) -> Result<Text, NoMemory>
    ensures { IfOk result (λ text. text ≡ text_of draft.now) }
{
    let mut text = draft.line.clone()?;
    text.push_str("\n")?;
    Ok(text)
}

#[tactic(auto, using(crate::proofs::Writable::opened_writable))]
fn write_opened(
    alloc: Global,
    place: u16,
    draft: &Draft,
    into: &mut Vec<u8>,
) -> Result<(), NoMemory>
    ensures { OnOk result (into.new.items ≡ into.old.items ++ frames_of (open_message place draft.now ∷ [])) }
{
    write_message(opened(alloc, place, text_of(draft)?)?, into)
}

/// Writes the edit that comes next.
#[tactic(auto, using(crate::proofs::Writable::changed_writable))]
fn write_changed(
    alloc: Global,
    place: u16,
    version: u32,
    draft: &Draft,
    into: &mut Vec<u8>,
) -> Result<(), NoMemory>
    requires { length draft.now.line < 1000 }
    ensures { OnOk result (into.new.items ≡ into.old.items ++ frames_of (change_message place version draft.now ∷ [])) }
{
    let edit = draft.next_edit();
    let message = changed(alloc, place, version, edit.column, edit.letter)?;
    write_message(message, into)
}

#[tactic(auto, using(crate::proofs::Writable::hovered_writable))]
fn write_hovered(alloc: Global, place: u16, into: &mut Vec<u8>) -> Result<(), NoMemory>
    ensures { OnOk result (into.new.items ≡ into.old.items ++ frames_of (hover_message place ∷ [])) }
{
    write_message(hovered(alloc, place)?, into)
}

/// Writes all edits of a document, and answers what comes of it.
fn write_edits(
    alloc: Global,
    place: u16,
    first: Draft,
    into: &mut Vec<u8>,
) -> Result<Draft, NoMemory>
    requires { IsPlainLine 16 first.line }
    ensures frames { OnOk result (into.new.items ≡ into.old.items ++ frames_of (edits edit_count place first)) }
    ensures draft { IfOk result (λ draft. draft ≡ edited_times edit_count first) }
{
    let mut draft = first;
    for edit in 0..EDITS {
        write_changed(alloc, place, edit + 2, &draft, into)?;
        draft = draft.edit()?;
    }
    Ok(draft)
}

/// Writes the frames of a document, and answers the state of the draws behind it.
pub(crate) fn write_document(
    alloc: Global,
    place: u16,
    state: u64,
    into: &mut Vec<u8>,
) -> Result<u64, NoMemory>
    ensures frames { OnOk result (into.new.items ≡ into.old.items ++ frames_of (document_messages place state)) }
    ensures state { IfOk result (λ after. after ≡ (last_draft place state).state) }
{
    let first = first_draft(alloc, place, state)?;
    write_opened(alloc, place, &first, into)?;
    let last = write_edits(alloc, place, first, into)?;
    write_hovered(alloc, place, into)?;
    Ok(last.state)
}

/// Writes the frame of `exit`.
pub(crate) fn write_exit(alloc: Global, into: &mut Vec<u8>) -> Result<(), NoMemory>
    ensures { OnOk result (into.new.items ≡ into.old.items ++ frames_of (exits ∷ [])) }
{
    write_message(exits(alloc)?, into)
}
