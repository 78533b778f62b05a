// Places of positions, and positions of places.
ghost use Rattle.std.specs.Prelude.{◌≡◌, ◌≤◌, ◌↔◌, length, IfSome, IsSome};
ghost use Rattle.std.specs.String.Boundary.{IsSplitPoint};
ghost use Rattle.small_analysis.specs.Positions.{place_in, position_in};

use text_core::{Position, PositionEncoding, TextIndex};

/// The place of a position, if the text has one.
pub(crate) fn place_in(
    encoding: PositionEncoding,
    index: &TextIndex,
    position: Position,
) -> Option<usize>
    ensures value { result ≡ place_in encoding index.now position }
    ensures within { IfSome result (λ place. place ≤ length index.now) }
{
    match index.place_of(encoding, position) {
        Ok(place) => Some(place as usize),
        Err(_) => None,
    }
}

/// The position of a place, if the text can be cut there.
pub(crate) fn position_in(
    encoding: PositionEncoding,
    index: &TextIndex,
    place: u32,
) -> Option<Position>
    ensures some { IsSome result ↔ IsSplitPoint index.now place }
    ensures value { IfSome result (λ position. position ≡ position_in encoding index.now place) }
{
    index.position_of(encoding, place)
}
