// Positions and ranges of a text.

/// What a column counts beside bytes.
#[derive(Clone, Copy, Debug, PartialEq, Eq, PartialOrd, Ord, Hash)]
pub enum WideEncoding {
    /// Code units of UTF-16: two for a character past U+FFFF, else one.
    Utf16,
    /// Characters.
    Utf32,
}

/// What a column counts.
#[derive(Clone, Copy)]
pub enum PositionEncoding {
    /// Bytes.
    Utf8,
    Wide(WideEncoding),
}

/// A line and a column, both from 0.
#[derive(Clone, Copy, Debug, PartialEq, Eq, PartialOrd, Ord, Hash)]
pub struct Position {
    pub line: u32,
    pub character: u32,
}

/// From a position up to another.
#[derive(Clone, Copy, Debug, PartialEq, Eq)]
pub struct Range {
    pub start: Position,
    pub end: Position,
}

/// Why a position or a range has no place in a text.
#[derive(Clone, Copy, Debug, PartialEq, Eq, PartialOrd, Ord, Hash)]
pub enum OffsetFault {
    /// The text has no such line.
    LinePastEnd,
    /// The column meets the inside of a character.
    InsideCharacter,
    /// The end stands before the start.
    Reversed,
}
