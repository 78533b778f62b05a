// Positions of places.
ghost use Rattle.std.specs.Prelude.{◌≡◌, ◌↔◌, ◌<◌, ◌^◌, length, IfSome, IsSome};
ghost use Rattle.std.specs.String.Boundary.{IsSplitPoint};
ghost use Rattle.text_core.specs.Columns.{units_of};
ghost use Rattle.text_core.specs.Places.{position_of};
ghost use Rattle.text_core.specs.Starts.{line_starts};
ghost use Rattle.text_core.specs.declared.position.PositionEncoding.TheVariants.{Wide};

use crate::offsets::{BLOCK, wide_units};
use crate::position::{Position, PositionEncoding, WideEncoding};
use crate::starts::starts_up_to;

/// The units of a part of a line.
fn wide_units_in(wide: WideEncoding, part: &[u8]) -> u32
    requires { units_of (Wide wide) part.now < 2 ^ 32 }
    ensures { result ≡ units_of (Wide wide) part.now }
{
    if part.is_ascii() {
        part.len() as u32
    } else {
        part.iter().map(|byte| wide_units(wide, *byte)).sum()
    }
}

/// The units of the front of a line. A block of ASCII is counted at once.
fn wide_units_of(wide: WideEncoding, front: &[u8]) -> u32
    requires { units_of (Wide wide) front.now < 2 ^ 32 }
    ensures { result ≡ units_of (Wide wide) front.now }
{
    let mut units = 0;
    let mut rest = front;
    while BLOCK <= rest.len() {
        let (block, next) = rest.split_at(BLOCK);
        units += wide_units_in(wide, block);
        rest = next;
    }
    units + wide_units_in(wide, rest)
}

/// How many units the front of a line has.
fn units_of(encoding: PositionEncoding, front: &[u8]) -> u32
    requires { units_of encoding front.now < 2 ^ 32 }
    ensures { result ≡ units_of encoding front.now }
{
    match encoding {
        PositionEncoding::Utf8 => front.len() as u32,
        PositionEncoding::Wide(wide) => wide_units_of(wide, front),
    }
}

/// The position of a place. None where the text doesn't reach it or it stands inside a character.
pub(crate) fn position_of(
    encoding: PositionEncoding,
    text: &str,
    starts: &[u32],
    place: usize,
) -> Option<Position>
    requires known { starts.now ≡ line_starts text.now }
    requires within { length text.now < 2 ^ 32 }
    ensures some { IsSome result ↔ IsSplitPoint text.now place }
    ensures value { IfSome result (λ position. position ≡ position_of encoding text.now place) }
{
    if !text.is_char_boundary(place) {
        return None;
    }
    let line = starts_up_to(starts, place) - 1;
    let start = starts[line] as usize;
    let character = units_of(encoding, &text.as_bytes()[start..place]);
    Some(Position {
        line: line as u32,
        character,
    })
}
