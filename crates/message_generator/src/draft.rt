// A document while it is edited.
ghost use Rattle.std.specs.Prelude.{◌≡◌, ◌<◌, ◌≤◌, length, IfOk};
ghost use Rattle.message_generator.specs.Drafts.{IsPlainLine, column_of, letter_of, edited, first_draft, last_draft};

use crate::draws::{drawn, next_state};
use plain::{NoMemory, Text};
use std::alloc::Global;

/// How often each document is edited.
pub(crate) const EDITS: u32 = 10;

/// The state of the draws, and the only line of a document's text, without its end.
#[derive(Drop)]
pub struct Draft {
    pub state: u64,
    pub line: Text,
}

/// One edit: the column and the letter that are drawn.
#[derive(Clone, Copy)]
pub(crate) struct Edit {
    pub column: u32,
    pub letter: u8,
    /// The state behind it.
    pub state: u64,
}

/// The document at a place before any edit.
pub(crate) fn first_draft(alloc: Global, place: u16, state: u64) -> Result<Draft, NoMemory>
    ensures { IfOk result (λ draft. draft ≡ first_draft place state) }
{
    let line = Text::from_string(format!(in alloc; "fn g{place}() {{}}")?);
    Ok(Draft { state, line })
}

impl Draft {
    /// The edit that comes next.
    #[tactic(auto, unfolding(crate::specs::Drafts::column_of, crate::specs::Drafts::letter_of))]
    pub(crate) fn next_edit(&self) -> Edit
        requires { length self.now.line < 1000 }
        ensures column { result.column ≡ column_of self.now }
        ensures letter { result.letter ≡ letter_of self.now }
        ensures within { result.column ≤ length self.now.line }
        ensures ascii { result.letter < 128 }
        ensures state { result.state ≡ (edited self.now).state }
    {
        let first = next_state(self.state);
        let second = next_state(first);
        Edit {
            column: (drawn(first) % (self.line.len() as u64 + 1)) as u32,
            letter: b'a' + (drawn(second) % 26) as u8,
            state: second,
        }
    }

    /// The document behind its next edit.
    pub(crate) fn edit(self) -> Result<Draft, NoMemory>
        requires { IsPlainLine 999 self.line }
        ensures { IfOk result (λ draft. draft ≡ edited self) }
    {
        let edit = self.next_edit();
        let mut line = self.line.into_string();
        line.insert(edit.column as usize, char::from(edit.letter))?;
        Ok(Draft {
            state: edit.state,
            line: Text::from_string(line),
        })
    }
}

/// The document at a place behind all edits.
pub(crate) fn last_draft(alloc: Global, place: u16, state: u64) -> Result<Draft, NoMemory>
    ensures { IfOk result (λ draft. draft ≡ last_draft place state) }
{
    let mut draft = first_draft(alloc, place, state)?;
    for _edit in 0..EDITS {
        draft = draft.edit()?;
    }
    Ok(draft)
}
