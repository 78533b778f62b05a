// What the tests share: words of the tables, and calls that claim nothing. Each answers none also where memory runs out.
use plain::{Items, Json, Text};
use std::alloc::Global;
use test_support::cut;
use text_core::{ContentChange, Position, PositionEncoding, Range, WideEncoding};

pub(crate) const UTF16: PositionEncoding = PositionEncoding::Wide(WideEncoding::Utf16);

/// The position that a word is: `1:2` is line 1, column 2.
pub(crate) fn position(word: &str) -> Option<Position> {
    let (line, character) = cut(word, ":");
    Some(Position {
        line: line.parse().ok()?,
        character: character.parse().ok()?,
    })
}

/// The range that a word is: `1:2-3:4` is from line 1, column 2, to line 3, column 4.
pub(crate) fn range(word: &str) -> Option<Range> {
    let (start, end) = cut(word, "-");
    Some(Range {
        start: position(start)?,
        end: position(end)?,
    })
}

/// Adds the changes of a list: each is a range, or `whole` for the whole text, and the text that comes there. `none` is
/// the empty list.
pub(crate) fn add_changes(
    alloc: Global,
    changes: &mut Items<ContentChange>,
    list: &str,
) -> Option<()> {
    for row in list.split(" & ") {
        let (place, text) = cut(row, "=");
        if place != "none" {
            let range = if place == "whole" {
                None
            } else {
                Some(range(place)?)
            };
            let text = Text::from_str(alloc, text).ok()?;
            changes.push(ContentChange { range, text }).ok()?;
        }
    }
    Some(())
}

pub(crate) fn text(alloc: Global, text: &str) -> Option<Text> {
    Text::from_str(alloc, text).ok()
}

/// The value that a text is.
pub(crate) fn json(alloc: Global, text: &str) -> Option<Json> {
    Json::read(alloc, text.as_bytes()).ok()?
}

/// Whether a value without a float is written as this text.
pub(crate) fn is_written(alloc: Global, json: &Json, want: &str) -> bool {
    let mut bytes = Vec::new(alloc);
    let is_plain = json.is_plain();
    let is_made = is_plain && json.write(&mut bytes).is_ok();
    is_made && bytes.as_slice() == want.as_bytes()
}
