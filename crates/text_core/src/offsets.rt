// Places of positions.
ghost use Rattle.std.specs.Prelude.{◌≡◌, ◌+◌, ◌<◌, ◌≤◌, ◌^◌, length, max, slice_get, IfSome, IfOk, IsTrue, is_some, unwrap_or, Ok};
ghost use Rattle.std.specs.String.Boundary.{IsSplitPoint};
ghost use Rattle.text_core.specs.Positions.{is_inside, wide_units, past_units, line_start, line_end, line_span, place_of, range_of};
ghost use Rattle.text_core.specs.declared.position.PositionEncoding.TheVariants.{Utf8, Wide};
ghost use Rattle.text_core.specs.Lines.{EndsText, line_text};
ghost use Rattle.text_core.specs.Runs.{IsAsciiRun};
ghost use Rattle.text_core.specs.Starts.{KnowsLines};

use crate::position::{OffsetFault, Position, PositionEncoding, Range, WideEncoding};

/// Whether a byte isn't the first of its character.
fn is_inside(byte: u8) -> bool
    ensures { result ≡ is_inside byte }
{
    0x80 <= byte && byte < 0xc0
}

/// What a byte counts: the first of a character the character's units, the others none.
pub(crate) fn wide_units(wide: WideEncoding, byte: u8) -> u32
    ensures { result ≡ wide_units wide byte }
{
    match (wide, byte) {
        (_, 0x80..=0xbf) => 0,
        (WideEncoding::Utf16, 0xf0..=0xff) => 2,
        _ => 1,
    }
}

/// How many bytes of a line stand before a column of bytes.
#[tactic(auto, using(crate::proofs::LineLemmas::byte_steps))]
fn past_bytes(line: &[u8], column: u32) -> Option<usize>
    ensures { result ≡ past_units Utf8 column line.now }
{
    let place = column as usize;
    if line.len() <= place {
        return Some(line.len());
    }
    if is_inside(line[place]) {
        return None;
    }
    Some(place)
}

/// How many bytes are tested at once.
pub(crate) const BLOCK: usize = 32;

/// Whether so many units stand left that a block of ASCII at a place is before the column.
fn is_block_before(line: &[u8], i: usize, left: u32) -> bool
    requires { i ≤ length line.now }
    ensures { IsTrue result → IsAsciiRun line.now i 32 × (32 ≤ left) }
{
    BLOCK <= line.len() - i && BLOCK as u32 <= left && line[i..i + BLOCK].is_ascii()
}

/// How many bytes of a line stand before a column of code units or characters. A block of ASCII is passed at once.
#[tactic(auto, using(crate::proofs::LineLemmas::past_steps))]
fn past_wide_units(wide: WideEncoding, line: &[u8], column: u32) -> Option<usize>
    ensures { result ≡ past_units (Wide wide) column line.now }
{
    let mut left = column;
    let mut tested = 0;
    let mut i = 0;
    while i < line.len() {
        if tested <= i {
            if is_block_before(line, i, left) {
                left -= BLOCK as u32;
                i += BLOCK;
                continue;
            }
            tested = i + BLOCK;
        }
        let units = wide_units(wide, line[i]);
        if left < units {
            return if left == 0 && !is_inside(line[i]) {
                Some(i)
            } else {
                None
            };
        }
        left -= units;
        i += 1;
    }
    Some(line.len())
}

/// How many bytes of a line stand before a column.
fn past_units(encoding: PositionEncoding, line: &[u8], column: u32) -> Option<usize>
    ensures value { result ≡ past_units encoding column line.now }
    ensures within { IfSome result (λ n. n ≤ length line.now) }
{
    match encoding {
        PositionEncoding::Utf8 => past_bytes(line, column),
        PositionEncoding::Wide(wide) => past_wide_units(wide, line, column),
    }
}

/// A line's start.
fn start_of(starts: &[u32], line: usize) -> Option<usize>
    ensures { result ≡ slice_get starts.now line }
{
    match starts.get(line) {
        Some(start) => Some(*start as usize),
        None => None,
    }
}

/// Where a line ends, by the start of the next.
fn line_end(text: &str, starts: &[u32], line: u32) -> usize
    requires { slice_get starts.now (line + 1) ≡ line_start (line + 1) text.now }
    ensures { result ≡ line_end line text.now }
{
    match start_of(starts, line as usize + 1) {
        Some(next) => next,
        None => text.len(),
    }
}

/// Where a line begins and ends.
pub(crate) fn line_span(text: &str, starts: &[u32], line: u32) -> Option<(usize, usize)>
    requires { KnowsLines starts.now text.now (line + 1) }
    ensures value { result ≡ line_span line text.now }
    ensures rising { IfSome result (λ span. span.0 ≤ span.1) }
    ensures within { IfSome result (λ span. span.1 ≤ length text.now) }
    ensures start_split { IfSome result (λ span. IsSplitPoint text.now span.0) }
    ensures end_split { IfSome result (λ span. IsSplitPoint text.now span.1) }
{
    let start = start_of(starts, line as usize)?;
    Some((start, line_end(text, starts, line)))
}

/// Where a line ends, without its LF.
fn text_end(text: &str, starts: &[u32], line: u32) -> usize
    requires { slice_get starts.now (line + 1) ≡ line_start (line + 1) text.now }
    ensures { EndsText text.now line result }
{
    match start_of(starts, line as usize + 1) {
        Some(next) => next - 1,
        None => text.len(),
    }
}

/// A line without its LF.
pub(crate) fn line_text<'a>(text: &'a str, starts: &[u32], line: u32) -> Option<&'a str>
    requires { KnowsLines starts.now text.now (line + 1) }
    ensures value { IfSome result (λ part. part.now ≡ line_text text.now line) }
    ensures none { is_some result ≡ is_some (line_start line text.now) }
{
    match start_of(starts, line as usize) {
        Some(start) => Some(&text[start..text_end(text, starts, line)]),
        None => None,
    }
}

/// The place of a position.
pub(crate) fn place_of(
    encoding: PositionEncoding,
    text: &str,
    starts: &[u32],
    position: Position,
) -> Result<usize, OffsetFault>
    requires { KnowsLines starts.now text.now (position.line + 1) }
    ensures value { result ≡ place_of encoding text.now position }
    ensures split { IfOk result (IsSplitPoint text.now) }
{
    let Some((start, end)) = line_span(text, starts, position.line) else {
        return Err(OffsetFault::LinePastEnd);
    };
    match past_units(encoding, &text.as_bytes()[start..end], position.character) {
        Some(past) => Ok(start + past),
        None => Err(OffsetFault::InsideCharacter),
    }
}

/// The place of a range's end. Where the range is empty, that is its start's, and the line isn't counted again.
fn end_of(
    encoding: PositionEncoding,
    text: &str,
    starts: &[u32],
    range: Range,
    start: usize,
) -> Result<usize, OffsetFault>
    requires known { KnowsLines starts.now text.now (range.end.line + 1) }
    requires start { place_of encoding text.now range.start ≡ Ok start }
    requires split { IsSplitPoint text.now start }
    ensures value { result ≡ place_of encoding text.now range.end }
    ensures split { IfOk result (IsSplitPoint text.now) }
{
    if range.end == range.start {
        return Ok(start);
    }
    place_of(encoding, text, starts, range.end)
}

/// The places of a range.
pub(crate) fn range_of(
    encoding: PositionEncoding,
    text: &str,
    starts: &[u32],
    range: Range,
) -> Result<(usize, usize), OffsetFault>
    requires { KnowsLines starts.now text.now (max range.start.line range.end.line + 1) }
    ensures value { result ≡ range_of encoding text.now range }
    ensures start_split { IfOk result (λ places. IsSplitPoint text.now places.0) }
    ensures end_split { IfOk result (λ places. IsSplitPoint text.now places.1) }
    ensures rising { IfOk result (λ places. places.0 ≤ places.1) }
{
    let start = place_of(encoding, text, starts, range.start)?;
    let end = end_of(encoding, text, starts, range, start)?;
    if end < start {
        return Err(OffsetFault::Reversed);
    }
    Ok((start, end))
}
