// The brackets of a text that match.
ghost use Rattle.std.specs.Prelude.{◌≡◌, ◌<◌, ◌^◌, length, IfOk, OnOk};
ghost use Rattle.small_analysis.specs.Asked.{paired_asked, with_partner, KeepsAsked};
ghost use Rattle.small_analysis.specs.Brackets.{closes, is_bracket, is_bracket_at, is_opener, bracket_near, opener_of, openers_with, partners_of};

use plain::ByNumber;
use std::alloc::{AllocError, Global};
use std::collections::VecDeque;

/// A byte of a text with its place.
#[derive(Clone, Copy, Drop)]
pub(crate) struct Bracket {
    pub(crate) place: u32,
    pub(crate) byte: u8,
}

fn is_opener(byte: u8) -> bool
    ensures { result ≡ is_opener byte }
{
    byte == b'(' || byte == b'[' || byte == b'{'
}

pub(crate) fn is_bracket(byte: u8) -> bool
    ensures { result ≡ is_bracket byte }
{
    is_opener(byte) || byte == b')' || byte == b']' || byte == b'}'
}

/// Whether a byte closes an opener.
fn closes(opener: u8, byte: u8) -> bool
    ensures { result ≡ closes opener byte }
{
    opener == b'(' && byte == b')'
        || opener == b'[' && byte == b']'
        || opener == b'{' && byte == b'}'
}

/// Takes one byte more of the text, and gives the opener that it closes.
pub(crate) fn take_byte(
    openers: &mut VecDeque<Bracket>,
    here: Bracket,
) -> Result<Option<Bracket>, AllocError>
    ensures openers { OnOk result (openers.new.items ≡ openers_with here openers.old.items) }
    ensures opener { IfOk result (λ opener. opener ≡ opener_of here openers.old.items) }
{
    if is_opener(here.byte) {
        openers.push_front(here)?;
        return Ok(None);
    }
    match openers.front().copied() {
        Some(opener) if closes(opener.byte, here.byte) => {
            openers.pop_front();
            Ok(Some(opener))
        }
        _ => Ok(None),
    }
}

/// Keeps the partner of a bracket that is asked for.
fn keep(
    asked: &ByNumber<()>,
    partners: &mut ByNumber<Bracket>,
    place: u32,
    partner: Bracket,
) -> Result<(), AllocError>
    ensures { OnOk result (partners.new ≡ with_partner asked.now partners.old place partner) }
{
    let place = u64::from(place);
    if asked.contains(place) {
        partners.insert(place, partner)?;
    }
    Ok(())
}

/// Keeps a bracket and the opener that it closes as partners, where they are asked for.
fn keep_pair(
    asked: &ByNumber<()>,
    partners: &mut ByNumber<Bracket>,
    here: Bracket,
    opener: Option<Bracket>,
) -> Result<(), AllocError>
    ensures { OnOk result (partners.new ≡ paired_asked asked.now here opener partners.old) }
{
    if let Some(opener) = opener {
        keep(asked, partners, opener.place, here)?;
        keep(asked, partners, here.place, opener)?;
    }
    Ok(())
}

/// The partner of each bracket that is asked for and matched, by its place.
pub(crate) fn partners_of(
    alloc: Global,
    text: &[u8],
    asked: &ByNumber<()>,
) -> Result<ByNumber<Bracket>, AllocError>
    requires { length text.now < 2 ^ 32 }
    ensures { IfOk result (KeepsAsked asked.now (partners_of text.now)) }
{
    let mut openers = VecDeque::new(alloc);
    let mut partners = ByNumber::new(alloc);
    for (place, byte) in text.iter().enumerate() {
        let here = Bracket {
            place: place as u32,
            byte: *byte,
        };
        let opener = take_byte(&mut openers, here)?;
        keep_pair(asked, &mut partners, here, opener)?;
    }
    Ok(partners)
}

pub(crate) fn is_bracket_at(text: &[u8], place: usize) -> bool
    ensures { result ≡ is_bracket_at text.now place }
{
    match text.get(place) {
        Some(byte) => is_bracket(*byte),
        None => false,
    }
}

/// The place itself where a bracket is there, else the one right before it.
pub(crate) fn bracket_near(text: &[u8], place: usize) -> Option<usize>
    ensures { result ≡ bracket_near text.now place }
{
    if is_bracket_at(text, place) {
        return Some(place);
    }
    if place > 0 && is_bracket_at(text, place - 1) {
        Some(place - 1)
    } else {
        None
    }
}
