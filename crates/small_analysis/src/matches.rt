// Where the brackets stand that match those near positions.
ghost use Rattle.std.specs.Prelude.{◌≡◌, ℕ, All, true, IfOk, OnOk};
ghost use Rattle.small_analysis.specs.Asked.{is_asked, IsAsked, IsAskedNear, KeepsAsked};
ghost use Rattle.small_analysis.specs.Brackets.{bracket_near, partners_of};
ghost use Rattle.small_analysis.specs.Matches.{all_matched, matched};

use crate::brackets::{Bracket, bracket_near, partners_of};
use crate::offsets::{place_in, position_in};
use plain::{ByNumber, Items};
use std::alloc::{AllocError, Global};
use text_core::{Position, PositionEncoding, TextIndex};

/// The place of the bracket near a place.
fn near(index: &TextIndex, place: usize) -> Option<usize>
    ensures { result ≡ bracket_near index.now place }
{
    bracket_near(index.text().as_bytes(), place)
}

/// Asks for the bracket near a position, if there is one.
fn ask(
    encoding: PositionEncoding,
    asked: &mut ByNumber<()>,
    index: &TextIndex,
    position: Position,
) -> Result<(), AllocError>
    ensures here { OnOk result (IsAsked encoding index.now asked.new position) }
    ensures others { OnOk result ((place : ℕ) → is_asked asked.old place ≡ true → is_asked asked.new place ≡ true) }
{
    let Some(place) = place_in(encoding, index, position) else {
        return Ok(());
    };
    let Some(near) = near(index, place) else {
        return Ok(());
    };
    asked.insert(near as u64, ())?;
    Ok(())
}

/// The places of the brackets near the positions.
fn asked_in(
    alloc: Global,
    encoding: PositionEncoding,
    index: &TextIndex,
    positions: &[Position],
) -> Result<ByNumber<()>, AllocError>
    ensures { IfOk result (λ asked. All (IsAsked encoding index.now asked) positions.now) }
{
    let mut asked = ByNumber::new(alloc);
    for position in positions {
        ask(encoding, &mut asked, index, *position)?;
    }
    Ok(asked)
}

/// The partner of each bracket that is asked for and matched, by its place. It reads the text once.
fn partners_in(
    alloc: Global,
    index: &TextIndex,
    asked: &ByNumber<()>,
) -> Result<ByNumber<Bracket>, AllocError>
    ensures { IfOk result (KeepsAsked asked.now (partners_of index.now)) }
{
    // It fits 32 bits.
    let _length = index.len();
    partners_of(alloc, index.text().as_bytes(), asked)
}

/// Where the bracket stands that matches the one near a place, else the position itself.
fn matched(
    encoding: PositionEncoding,
    index: &TextIndex,
    asked: &ByNumber<()>,
    partners: &ByNumber<Bracket>,
    position: Position,
    place: usize,
) -> Position
    requires partners { KeepsAsked asked.now (partners_of index.now) partners.now }
    requires asked { IsAskedNear index.now asked.now place }
    ensures { result ≡ matched encoding index.now position place }
{
    let Some(near) = near(index, place) else {
        return position;
    };
    let Some(partner) = partners.get(near as u64) else {
        return position;
    };
    position_in(encoding, index, partner.place).unwrap_or(position)
}

/// The same of each position, where all have a place.
fn all_matched_by(
    alloc: Global,
    encoding: PositionEncoding,
    index: &TextIndex,
    asked: &ByNumber<()>,
    partners: &ByNumber<Bracket>,
    positions: &[Position],
) -> Result<Option<Items<Position>>, AllocError>
    requires partners { KeepsAsked asked.now (partners_of index.now) partners.now }
    requires asked { All (IsAsked encoding index.now asked.now) positions.now }
    ensures { IfOk result (λ found. found ≡ all_matched encoding index.now positions.now) }
{
    let mut found = Items::new(alloc);
    for position in positions {
        let Some(place) = place_in(encoding, index, *position) else {
            return Ok(None);
        };
        found.push(matched(encoding, index, asked, partners, *position, place))?;
    }
    Ok(Some(found))
}

/// The match of each position.
pub(crate) fn all_matched(
    alloc: Global,
    encoding: PositionEncoding,
    index: &TextIndex,
    positions: &[Position],
) -> Result<Option<Items<Position>>, AllocError>
    ensures { IfOk result (λ found. found ≡ all_matched encoding index.now positions.now) }
{
    let asked = asked_in(alloc, encoding, index, positions)?;
    let partners = partners_in(alloc, index, &asked)?;
    all_matched_by(alloc, encoding, index, &asked, &partners, positions)
}
