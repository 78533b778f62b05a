// Lines of a text, and the offsets of positions in it.
ghost use Rattle.std.specs.Prelude.{◌≡◌, ◌≢◌, ◌+◌, ◌<◌, ◌≤◌, ◌↔◌, ◌^◌, ℕ, List, [], length, count_by, IsTrue, IfOk, IfSome, IsNone, IsSome, string_bytes, unwrap_or, Err};
ghost use Rattle.std.specs.Arc.{arc_value};
ghost use Rattle.std.specs.String.Boundary.{IsSplitPoint};
ghost use Rattle.text_core.specs.Changes.{IsOther};
ghost use Rattle.text_core.specs.CommonEnds.{HasEnds, ComesFrom};
ghost use Rattle.text_core.specs.IndexInvariant.{IsNewDraft};
ghost use Rattle.text_core.specs.Lines.{line_text};
ghost use Rattle.text_core.specs.Places.{position_of};
ghost use Rattle.text_core.specs.Positions.{ends_line, line_span, place_of, range_of};
ghost use Rattle.text_core.specs.Starts.{line_starts};
ghost use Rattle.text_core.specs.declared.position.OffsetFault.TheVariants.{InsideCharacter};
ghost use Rattle.text_core.specs.declared.position.PositionEncoding.TheVariants.{Wide};
ghost use Rattle.text_core.specs.declared.position.WideEncoding.TheVariants.{Utf32};

use crate::draft::{Draft, copy_with_room};
use crate::ends::CommonEnds;
use crate::line_endings::LineEndings;
use crate::position::{OffsetFault, Position, PositionEncoding, Range};
use crate::starts::{find_starts, push_moved, push_starts, starts_up_to};
use crate::{columns, offsets};
use plain::{ArcText, Text};
use std::alloc::{AllocError, Global};
use std::marker::Model;
use std::sync::Arc;

/// A text with the places at which its lines begin. Contracts see it as the text.
pub struct TextIndex {
    text: ArcText,
    starts: Vec<u32>,
}

impl Drop for TextIndex {
    fn drop(self) {
        let TextIndex { text: _, starts: _ } = self;
    }
}

impl Model for TextIndex {
    ghost use Rattle.std.specs.Prelude.{◌≡◌, ◌<◌, ◌^◌, ℕ, List, length};
    ghost use Rattle.text_core.specs.Starts.{line_starts};

    ghost Value = { List ℕ };

    ghost view = { λ i. i.text };

    ghost invariant = { λ i. (i.starts.items ≡ line_starts i.text) × (length i.text < 2 ^ 32) };
}

impl TextIndex {
    pub fn new(alloc: Global, text: &str) -> Result<TextIndex, AllocError>
        requires { length text.now < 2 ^ 32 }
        ensures { IfOk result (λ index. index ≡ text.now) }
    {
        let mut starts = Vec::new(alloc);
        find_starts(&mut starts, text.as_bytes())?;
        Ok(TextIndex {
            text: ArcText::new(alloc, Text::from_str(alloc, text)?)?,
            starts,
        })
    }

    /// The same of a text that is handed over, without a copy of it.
    pub fn from_text(alloc: Global, text: Text) -> Result<TextIndex, AllocError>
        requires { length text < 2 ^ 32 }
        ensures { IfOk result (λ index. index ≡ text) }
    {
        TextIndex::from_shared(alloc, ArcText::new(alloc, text)?)
    }

    /// The same of a text that others share.
    pub fn from_shared(alloc: Global, text: ArcText) -> Result<TextIndex, AllocError>
        requires { length text < 2 ^ 32 }
        ensures { IfOk result (λ index. index ≡ text) }
    {
        let mut starts = Vec::new(alloc);
        find_starts(&mut starts, text.as_str().as_bytes())?;
        Ok(TextIndex { text, starts })
    }

    /// The text, shared, without its lines.
    pub fn share_text(&self) -> Result<ArcText, AllocError>
        ensures value { IfOk result (λ text. text ≡ self.now) }
        ensures within { length self.now < 2 ^ 32 }
    {
        self.text.clone()
    }

    pub fn text(&self) -> &str
        ensures { result.now ≡ self.now }
    {
        self.text.as_str()
    }

    /// A draft of the text with room for so many bytes more, and with the line starts that are known.
    pub(crate) fn draft<'a>(&self, alloc: Global, room: usize) -> Result<Draft<'a>, AllocError>
        ensures new { IfOk result IsNewDraft }
        ensures text { IfOk result (λ draft. string_bytes draft.text ≡ self.now) }
        ensures within { IfOk result (λ draft. length (string_bytes draft.text) < 2 ^ 32) }
    {
        Ok(Draft {
            text: copy_with_room(alloc, self.text.as_str(), room)?,
            splices: Vec::new(alloc),
            size: self.text.len(),
            starts: self.starts.to_vec(alloc)?,
            least: None,
            skipped: false,
            ends: None,
        })
    }

    /// The starts of the lines of a text that has the ends of this one. Only what stands between them is searched.
    fn starts_of(
        &self,
        alloc: Global,
        text: &[u8],
        ends: CommonEnds,
    ) -> Result<Vec<u32>, AllocError>
        requires within { length text.now < 2 ^ 32 }
        requires ends { HasEnds self.now text.now ends }
        ensures { IfOk result (λ starts. starts.items ≡ line_starts text.now) }
    {
        let old_end = self.text.len() - ends.back;
        let end = text.len() - ends.back;
        let front = starts_up_to(&self.starts, ends.front);
        let back = starts_up_to(&self.starts, old_end);
        let mut starts = Vec::with_capacity(alloc, self.starts.len())?;
        starts.extend_from_slice(&self.starts[..front])?;
        push_starts(&mut starts, &text[ends.front..end], ends.front)?;
        push_moved(&mut starts, &self.starts[back..], old_end, end)?;
        Ok(starts)
    }

    /// Whether a text that has the ends of this one is the same text. Only what stands between them is compared.
    fn is_same(&self, text: &[u8], ends: CommonEnds) -> bool
        requires { HasEnds self.now text.now ends }
        ensures { IsTrue result ↔ (text.now ≡ self.now) }
    {
        let old_end = self.text.len() - ends.back;
        let end = text.len() - ends.back;
        self.text.as_str().as_bytes()[ends.front..old_end] == text[ends.front..end]
    }

    /// The text that edits of this one left, with its lines, where it is another one.
    pub(crate) fn changed(
        &self,
        alloc: Global,
        text: String,
        ends: Option<CommonEnds>,
    ) -> Result<Option<TextIndex>, AllocError>
        requires within { length (string_bytes text) < 2 ^ 32 }
        requires from { ComesFrom self.now (string_bytes text) ends }
        ensures { IfOk result (IsOther self.now (string_bytes text)) }
    {
        let Some(ends) = ends else {
            return Ok(None);
        };
        if self.is_same(text.as_bytes(), ends) {
            return Ok(None);
        }
        let starts = self.starts_of(alloc, text.as_bytes(), ends)?;
        Ok(Some(TextIndex {
            text: ArcText::new(alloc, Text::from_string(text))?,
            starts,
        }))
    }

    /// The text with its lines, where it is another one than that of an index.
    pub(crate) fn unless_same(self, old: &TextIndex) -> Option<TextIndex>
        ensures { IsOther old.now self result }
    {
        if self.text() == old.text() {
            return None;
        }
        Some(self)
    }

    /// Where a line begins and ends, with its LF.
    pub fn line(&self, line: u32) -> Option<(u32, u32)>
        ensures value { result ≡ line_span line self.now }
        ensures none { IsNone result ↔ (count_by ends_line self.now < line) }
        ensures start_split { IfSome result (λ span. IsSplitPoint self.now span.0) }
        ensures end_split { IfSome result (λ span. IsSplitPoint self.now span.1) }
        ensures rising { IfSome result (λ span. span.0 ≤ span.1) }
    {
        match offsets::line_span(self.text.as_str(), &self.starts, line) {
            Some((start, end)) => Some((start as u32, end as u32)),
            None => None,
        }
    }

    /// A line without its LF. None past the last line.
    pub fn line_text(&self, line: u32) -> Option<&str>
        ensures value { IfSome result (λ part. part.now ≡ line_text self.now line) }
        ensures none { IsNone result ↔ (count_by ends_line self.now < line) }
    {
        offsets::line_text(self.text.as_str(), &self.starts, line)
    }

    /// How many bytes the text has.
    pub fn len(&self) -> u32
        ensures { result ≡ length self.now }
    {
        self.text.len() as u32
    }

    pub fn is_empty(&self) -> bool
        ensures { IsTrue result ↔ (self.now ≡ []) }
    {
        self.text.is_empty()
    }

    /// How many lines the text has: one more than LF.
    pub fn lines(&self) -> u64
        ensures { result ≡ count_by ends_line self.now + 1 }
    {
        self.starts.len() as u64
    }

    /// The byte at which a position stands.
    pub fn place_of(
        &self,
        encoding: PositionEncoding,
        position: Position,
    ) -> Result<u32, OffsetFault>
        ensures value { result ≡ place_of encoding self.now position }
        ensures split { IfOk result (IsSplitPoint self.now) }
        ensures characters { encoding ≡ Wide Utf32 → result ≢ Err InsideCharacter }
    {
        let place = offsets::place_of(encoding, self.text.as_str(), &self.starts, position)?;
        Ok(place as u32)
    }

    /// The position at which an offset stands. None where the text ends before it or a character goes on there.
    pub fn position_of(&self, encoding: PositionEncoding, offset: u32) -> Option<Position>
        ensures some { IsSome result ↔ IsSplitPoint self.now offset }
        ensures value { IfSome result (λ position. position ≡ position_of encoding self.now offset) }
    {
        columns::position_of(encoding, self.text.as_str(), &self.starts, offset as usize)
    }

    /// The bytes from which and up to which a range goes.
    pub fn range_of(
        &self,
        encoding: PositionEncoding,
        range: Range,
    ) -> Result<(u32, u32), OffsetFault>
        ensures value { result ≡ range_of encoding self.now range }
        ensures start_split { IfOk result (λ offsets. IsSplitPoint self.now offsets.0) }
        ensures end_split { IfOk result (λ offsets. IsSplitPoint self.now offsets.1) }
        ensures rising { IfOk result (λ offsets. offsets.0 ≤ offsets.1) }
        ensures characters { encoding ≡ Wide Utf32 → result ≢ Err InsideCharacter }
    {
        let (start, end) = offsets::range_of(encoding, self.text.as_str(), &self.starts, range)?;
        Ok((start as u32, end as u32))
    }
}

/// A text's index, with what a column counts in it and how its lines ended before they were normalised.
pub struct LineIndex {
    pub index: Arc<TextIndex, Global>,
    pub endings: LineEndings,
    pub encoding: PositionEncoding,
}

impl Drop for LineIndex {
    fn drop(self) {
        let LineIndex {
            index: _,
            endings: _,
            encoding: _,
        } = self;
    }
}

/// The byte at which a position stands, between whole characters of the text. No column of characters stands inside one.
pub fn offset(line_index: &LineIndex, position: Position) -> Result<u32, OffsetFault>
    ensures value { result ≡ place_of line_index.now.encoding (arc_value line_index.now.index) position }
    ensures split { IfOk result (IsSplitPoint (arc_value line_index.now.index)) }
    ensures characters { line_index.now.encoding ≡ Wide Utf32 → result ≢ Err InsideCharacter }
{
    line_index.index.place_of(line_index.encoding, position)
}

/// The bytes from which and up to which a range goes, each between whole characters of the text.
pub fn text_range(line_index: &LineIndex, range: Range) -> Result<(u32, u32), OffsetFault>
    ensures value { result ≡ range_of line_index.now.encoding (arc_value line_index.now.index) range }
    ensures start_split { IfOk result (λ offsets. IsSplitPoint (arc_value line_index.now.index) offsets.0) }
    ensures end_split { IfOk result (λ offsets. IsSplitPoint (arc_value line_index.now.index) offsets.1) }
    ensures rising { IfOk result (λ offsets. offsets.0 ≤ offsets.1) }
    ensures characters { line_index.now.encoding ≡ Wide Utf32 → result ≢ Err InsideCharacter }
{
    line_index.index.range_of(line_index.encoding, range)
}
