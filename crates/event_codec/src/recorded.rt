// Types whose values are recorded, and those of them that other types are made of.
ghost use Rattle.std.specs.Prelude.{◌≡◌};
ghost use Rattle.record_codec.specs.Codec.{Codec, ◌and◌, nothing};
ghost use Rattle.record_codec.specs.Numbers.{number32, number64, signed32, counted, text};
ghost use Rattle.record_codec.specs.Lists.{list_of, items_fit, spell_items, read_items, marked};
ghost use Rattle.record_codec.specs.Cases.{byte, truth, optional, outcome};
ghost use Rattle.record_codec.specs.Meets.{Appends, Encodes, Decodes};

use plain::{Bytes, Items, Text};
use record_codec::{Cursor, DecodeFault, EncodeFault, encode_counted, encode_length};
use std::alloc::Global;

/// A type whose values have spellings.
pub trait Recorded {
    ghost code: { Codec Self };

    /// Appends the spelling. After an error what was appended says nothing.
    fn encode(&self, out: &mut Vec<u8>) -> Result<(), EncodeFault>
        ensures { Encodes code self.now out.old.items out.new.items result };

    /// Reads the spelling at the front.
    fn decode(alloc: Global, cursor: &mut Cursor<'_>) -> Result<Self, DecodeFault>
        ensures { Decodes (code.read cursor.old) cursor.new result };
}

impl Recorded for u8 {
    ghost code = { byte };

    fn encode(&self, out: &mut Vec<u8>) -> Result<(), EncodeFault> {
        out.push(*self)?;
        Ok(())
    }

    fn decode(_alloc: Global, cursor: &mut Cursor<'_>) -> Result<u8, DecodeFault> {
        cursor.byte()
    }
}

impl Recorded for u32 {
    ghost code = { number32 };

    fn encode(&self, out: &mut Vec<u8>) -> Result<(), EncodeFault> {
        out.extend_from_slice(&self.to_le_bytes())?;
        Ok(())
    }

    fn decode(_alloc: Global, cursor: &mut Cursor<'_>) -> Result<u32, DecodeFault> {
        cursor.number32()
    }
}

impl Recorded for u64 {
    ghost code = { number64 };

    fn encode(&self, out: &mut Vec<u8>) -> Result<(), EncodeFault> {
        out.extend_from_slice(&self.to_le_bytes())?;
        Ok(())
    }

    fn decode(_alloc: Global, cursor: &mut Cursor<'_>) -> Result<u64, DecodeFault> {
        cursor.number64()
    }
}

impl Recorded for i32 {
    ghost code = { signed32 };

    #[tactic(auto, using(crate::proofs::SignedLemmas::fits_signed32), unfolding(record_codec::specs::Numbers::signed32))]
    fn encode(&self, out: &mut Vec<u8>) -> Result<(), EncodeFault> {
        let bits = self.cast_unsigned();
        out.extend_from_slice(&bits.to_le_bytes())?;
        Ok(())
    }

    #[tactic(auto, unfolding(record_codec::specs::Numbers::signed32))]
    fn decode(_alloc: Global, cursor: &mut Cursor<'_>) -> Result<i32, DecodeFault> {
        let bits = cursor.number32()?;
        Ok(bits.cast_signed())
    }
}

impl Recorded for () {
    ghost code = { nothing };

    fn encode(&self, _out: &mut Vec<u8>) -> Result<(), EncodeFault> {
        Ok(())
    }

    fn decode(_alloc: Global, _cursor: &mut Cursor<'_>) -> Result<(), DecodeFault> {
        Ok(())
    }
}

impl Recorded for bool {
    ghost code = { truth };

    #[tactic(auto, unfolding(record_codec::specs::Cases::truth))]
    fn encode(&self, out: &mut Vec<u8>) -> Result<(), EncodeFault> {
        if *self {
            out.push(1)?;
        } else {
            out.push(0)?;
        }
        Ok(())
    }

    #[tactic(auto, unfolding(record_codec::specs::Cases::truth))]
    fn decode(_alloc: Global, cursor: &mut Cursor<'_>) -> Result<bool, DecodeFault> {
        match cursor.byte()? {
            0 => Ok(false),
            1 => Ok(true),
            _ => Err(DecodeFault::Malformed),
        }
    }
}

impl Recorded for Bytes {
    ghost code = { counted };

    fn encode(&self, out: &mut Vec<u8>) -> Result<(), EncodeFault> {
        encode_counted(out, self.as_slice())
    }

    fn decode(alloc: Global, cursor: &mut Cursor<'_>) -> Result<Bytes, DecodeFault> {
        Ok(Bytes::from_slice(alloc, cursor.counted()?)?)
    }
}

impl Recorded for Text {
    ghost code = { text };

    #[tactic(auto, using(crate::proofs::TextLemmas::utf8_some), unfolding(record_codec::specs::Numbers::text))]
    fn encode(&self, out: &mut Vec<u8>) -> Result<(), EncodeFault> {
        encode_counted(out, self.as_str().as_bytes())
    }

    #[tactic(auto, using(crate::proofs::TextLemmas::utf8_some, crate::proofs::TextLemmas::utf8_none), unfolding(record_codec::specs::Numbers::text))]
    fn decode(alloc: Global, cursor: &mut Cursor<'_>) -> Result<Text, DecodeFault> {
        match str::from_utf8(cursor.counted()?) {
            Ok(text) => Ok(Text::from_str(alloc, text)?),
            Err(_) => Err(DecodeFault::Malformed),
        }
    }
}

impl<T: Recorded> Recorded for Option<T> {
    ghost code = { optional T.code };

    #[tactic(auto, unfolding(record_codec::specs::Cases::optional))]
    fn encode(&self, out: &mut Vec<u8>) -> Result<(), EncodeFault> {
        match self {
            None => {
                out.push(0)?;
                Ok(())
            }
            Some(value) => {
                out.push(1)?;
                value.encode(out)
            }
        }
    }

    #[tactic(auto, unfolding(record_codec::specs::Cases::optional))]
    fn decode(alloc: Global, cursor: &mut Cursor<'_>) -> Result<Option<T>, DecodeFault> {
        match cursor.byte()? {
            0 => Ok(None),
            1 => Ok(Some(T::decode(alloc, cursor)?)),
            _ => Err(DecodeFault::Malformed),
        }
    }
}

impl<T: Recorded, E: Recorded> Recorded for Result<T, E> {
    ghost code = { outcome T.code E.code };

    #[tactic(auto, unfolding(record_codec::specs::Cases::outcome))]
    fn encode(&self, out: &mut Vec<u8>) -> Result<(), EncodeFault> {
        match self {
            Ok(value) => {
                out.push(0)?;
                value.encode(out)
            }
            Err(fault) => {
                out.push(1)?;
                fault.encode(out)
            }
        }
    }

    #[tactic(auto, unfolding(record_codec::specs::Cases::outcome))]
    fn decode(alloc: Global, cursor: &mut Cursor<'_>) -> Result<Result<T, E>, DecodeFault> {
        match cursor.byte()? {
            0 => Ok(Ok(T::decode(alloc, cursor)?)),
            1 => Ok(Err(E::decode(alloc, cursor)?)),
            _ => Err(DecodeFault::Malformed),
        }
    }
}

impl<A: Recorded + Drop, B: Recorded> Recorded for (A, B) {
    ghost code = { A.code and B.code };

    fn encode(&self, out: &mut Vec<u8>) -> Result<(), EncodeFault> {
        self.0.encode(out)?;
        self.1.encode(out)
    }

    fn decode(alloc: Global, cursor: &mut Cursor<'_>) -> Result<(A, B), DecodeFault> {
        Ok((A::decode(alloc, cursor)?, B::decode(alloc, cursor)?))
    }
}

/// Appends items, one after another.
fn encode_items<T: Recorded>(out: &mut Vec<u8>, items: &[T]) -> Result<(), EncodeFault>
    ensures { Appends (items_fit T.code items.now) (spell_items T.code items.now) out.old.items out.new.items result }
{
    for item in items {
        item.encode(out)?;
    }
    Ok(())
}

/// Reads so many items. Room is made for an item once it was read, so that a large count asks for no memory.
fn decode_items<T: Recorded + Drop>(
    alloc: Global,
    count: u32,
    cursor: &mut Cursor<'_>,
) -> Result<Items<T>, DecodeFault>
    ensures { Decodes (read_items T.code count cursor.old) cursor.new result }
{
    let mut items = Items::new(alloc);
    for _ in 0..count {
        let item = T::decode(alloc, cursor)?;
        items.push(item)?;
    }
    Ok(items)
}

impl<T: Recorded + Drop> Recorded for Items<T> {
    ghost code = { list_of T.code };

    #[tactic(auto, unfolding(record_codec::specs::Lists::list_of))]
    fn encode(&self, out: &mut Vec<u8>) -> Result<(), EncodeFault> {
        let items = self.as_slice();
        encode_length(out, items.len())?;
        encode_items(out, items)
    }

    #[tactic(auto, unfolding(record_codec::specs::Lists::list_of))]
    fn decode(alloc: Global, cursor: &mut Cursor<'_>) -> Result<Items<T>, DecodeFault> {
        let count = cursor.number32()?;
        decode_items(alloc, count, cursor)
    }
}

/// Reads items that stand behind a byte 1 each, up to a byte 0.
pub fn decode_marked<T: Recorded + Drop>(
    alloc: Global,
    cursor: &mut Cursor<'_>,
) -> Result<Items<T>, DecodeFault>
    ensures { Decodes ((marked T.code).read cursor.old) cursor.new result }
{
    let mut items = Items::new(alloc);
    for _ in 0..cursor.len() {
        match cursor.byte()? {
            0 => return Ok(items),
            1 => {
                let item = T::decode(alloc, cursor)?;
                items.push(item)?;
            }
            _ => return Err(DecodeFault::Malformed),
        }
    }
    Err(DecodeFault::Malformed)
}
