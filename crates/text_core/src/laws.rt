// Laws of the definitions.
ghost use Rattle.std.specs.Prelude.{◌≡◌, ◌+◌, ◌<◌, ◌↔◌, ℕ, List, length, Option, Some, None, Result, Ok, map};
ghost use Rattle.std.specs.Char.Escape.{encode_utf16};
ghost use Rattle.std.specs.List.{concat, count_by, flat_map, range_with_len};
ghost use Rattle.std.specs.Str.{IsUtf8, chars};
ghost use Rattle.std.specs.String.Boundary.{IsSplitPoint};
ghost use Rattle.text_core.specs.Columns.{StandsBehind, units_of};
ghost use Rattle.text_core.specs.Lines.{EndsWithLf, line_of};
ghost use Rattle.text_core.specs.Places.{clamped, position_of};
ghost use Rattle.text_core.specs.Positions.{ends_line, past_units, place_of};
ghost use Rattle.text_core.specs.declared.position.Position.{Position};
ghost use Rattle.text_core.specs.declared.position.PositionEncoding.{PositionEncoding};
ghost use Rattle.text_core.specs.declared.position.PositionEncoding.TheVariants.{Utf8, Wide};
ghost use Rattle.text_core.specs.declared.position.WideEncoding.TheVariants.{Utf16, Utf32};

/// What a text counts is what its encodings have: bytes of UTF-8, code units of UTF-16, characters.
pub fn units_are_those_of_the_encodings()
    ensures utf_8 { (text : List ℕ) → units_of Utf8 text ≡ length text }
    ensures utf_16 { (text : List ℕ) → IsUtf8 text →
        units_of (Wide Utf16) text ≡ length (flat_map encode_utf16 (chars text)) }
    ensures utf_32 { (text : List ℕ) → IsUtf8 text → units_of (Wide Utf32) text ≡ length (chars text) }
{}

/// A column of a line is the end of the front that has exactly its units, where a character begins, or the line's end where
/// that has no more. Else it stands inside a character.
pub fn columns_stand_behind_their_units()
    ensures some { (encoding : PositionEncoding) (column : ℕ) (line : List ℕ) (n : ℕ) →
        (past_units encoding column line ≡ Some n) ↔ StandsBehind encoding column line n }
    ensures none { (encoding : PositionEncoding) (column : ℕ) (line : List ℕ) →
        (past_units encoding column line ≡ None) ↔ ((n : ℕ) → StandsBehind encoding column line n → ⊥) }
{}

/// The lines of a text, joined, are the text. Each but the last ends with its LF, and has no other; the last has none.
pub fn lines_are_the_text()
    ensures joined { (text : List ℕ) → concat (map (line_of text) (range_with_len 0 (count_by ends_line text + 1))) ≡ text }
    ensures ended { (text : List ℕ) (line : ℕ) → line < count_by ends_line text → EndsWithLf (line_of text line) }
    ensures last { (text : List ℕ) → count_by ends_line (line_of text (count_by ends_line text)) ≡ 0 }
{}

/// The place of a place's position is that place, where the text can be cut there.
pub fn places_of_positions()
    ensures { (encoding : PositionEncoding) (text : List ℕ) (place : ℕ) → IsUtf8 text → IsSplitPoint text place →
        place_of encoding text (position_of encoding text place) ≡ Ok place }
{}

/// The position of a position's place is that position, where its line has more units, and else the end of its line: the start
/// of the next, or behind the last.
pub fn positions_of_places()
    ensures { (encoding : PositionEncoding) (text : List ℕ) (position : Position) (place : ℕ) → place_of encoding text position ≡ Ok place →
        position_of encoding text place ≡ clamped encoding text position }
{}
