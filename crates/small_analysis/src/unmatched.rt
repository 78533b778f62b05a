// The brackets of a text that have no partner.
ghost use Rattle.std.specs.Prelude.{◌≡◌, ◌<◌, ◌^◌, false, length, replicate, IfOk, OnOk};
ghost use Rattle.small_analysis.specs.Brackets.{partners_of};
ghost use Rattle.small_analysis.specs.Unmatched.{HasMarks, MarksMatched, is_unmatched, pair_marked};

use crate::brackets::{Bracket, is_bracket, is_bracket_at, take_byte};
use std::alloc::{AllocError, Global};
use std::collections::VecDeque;

/// Marks a bracket and the opener that it closes.
fn mark_pair(marks: &mut [bool], here: Bracket, opener: Option<Bracket>)
    requires { HasMarks here opener marks.old }
    ensures { marks.new ≡ pair_marked here opener marks.old }
{
    if let Some(opener) = opener {
        marks[opener.place as usize] = true;
        marks[here.place as usize] = true;
    }
}

/// Marks the brackets that have a partner.
fn mark_matched(alloc: Global, text: &[u8], marks: &mut [bool]) -> Result<(), AllocError>
    requires size { length text.now < 2 ^ 32 }
    requires unmarked { marks.old ≡ replicate (length text.now) false }
    ensures { OnOk result (MarksMatched text.now (partners_of text.now) marks.new) }
{
    let mut openers = VecDeque::new(alloc);
    for (place, byte) in text.iter().enumerate() {
        if is_bracket(*byte) {
            let here = Bracket {
                place: place as u32,
                byte: *byte,
            };
            let opener = take_byte(&mut openers, here)?;
            mark_pair(marks, here, opener);
        }
    }
    Ok(())
}

/// Which bytes are brackets that have a partner.
pub(crate) fn matched_marks(alloc: Global, text: &[u8]) -> Result<Vec<bool>, AllocError>
    requires { length text.now < 2 ^ 32 }
    ensures { IfOk result (λ marks. MarksMatched text.now (partners_of text.now) marks.items) }
{
    let mut marks = vec![in alloc; false; text.len()]?;
    mark_matched(alloc, text, &mut marks)?;
    Ok(marks)
}

/// Whether a bracket stands at a place that has no partner.
#[tactic(auto, using(crate::proofs::UnmatchedLemmas::unmatched_by))]
pub(crate) fn is_unmatched(text: &[u8], marks: &[bool], place: usize) -> bool
    requires within { place < length text.now }
    requires marks { MarksMatched text.now (partners_of text.now) marks.now }
    ensures { result ≡ is_unmatched text.now place }
{
    is_bracket_at(text, place) && !marks[place]
}
