// A place in bytes that are read from left to right.
ghost use Rattle.std.specs.Prelude.{◌≡◌, ◌↔◌, ℕ, List, [], length, IsTrue, Some, Ok};
ghost use Rattle.std.specs.Int.{w32, w64};
ghost use Rattle.record_codec.specs.Numbers.{front_of, read_number, read_counted};
ghost use Rattle.record_codec.specs.Cases.{first_of};
ghost use Rattle.record_codec.specs.Meets.{Decodes, DecodesLent};

use crate::faults::DecodeFault;
use std::marker::Model;

/// What is left of bytes that are read from left to right.
#[derive(Drop)]
pub struct Cursor<'a> {
    bytes: &'a [u8],
}

impl<'a> Model for Cursor<'a> {
    ghost use Rattle.std.specs.Prelude.{ℕ, List};

    ghost Value = { List ℕ };

    ghost view = { λ c. c.bytes.now };
}

impl<'a> Cursor<'a> {
    pub fn new(bytes: &'a [u8]) -> Cursor<'a>
        ensures { result ≡ bytes.now }
    {
        Cursor { bytes }
    }

    /// Whether nothing is left.
    pub fn is_empty(&self) -> bool
        ensures { IsTrue result ↔ (self.now ≡ []) }
    {
        self.bytes.is_empty()
    }

    /// How many bytes are left.
    pub fn len(&self) -> usize
        ensures { result ≡ length self.now }
    {
        self.bytes.len()
    }

    /// The next byte.
    pub fn byte(&mut self) -> Result<u8, DecodeFault>
        ensures { Decodes (first_of self.old) self.new result }
    {
        match self.bytes {
            [] => Err(DecodeFault::Malformed),
            [first, rest @ ..] => {
                self.bytes = rest;
                Ok(*first)
            }
        }
    }

    /// So many bytes. Nothing is set aside for bytes that aren't there.
    pub fn take(&mut self, count: usize) -> Result<&'a [u8], DecodeFault>
        ensures { DecodesLent (λ x. x.now) (front_of count self.old) self.new result }
    {
        let bytes = self.bytes;
        if bytes.len() < count {
            return Err(DecodeFault::Malformed);
        }
        let (front, rest) = bytes.split_at(count);
        self.bytes = rest;
        Ok(front)
    }

    /// Bytes behind their length.
    pub fn counted(&mut self) -> Result<&'a [u8], DecodeFault>
        ensures { DecodesLent (λ x. x.now) (read_counted self.old) self.new result }
    {
        let count = self.number32()?;
        self.take(count as usize)
    }

    pub fn number32(&mut self) -> Result<u32, DecodeFault>
        ensures { Decodes (read_number w32 self.old) self.new result }
    {
        let b = self.take(4)?;
        Ok(u32::from_le_bytes([b[0], b[1], b[2], b[3]]))
    }

    pub fn number64(&mut self) -> Result<u64, DecodeFault>
        ensures { Decodes (read_number w64 self.old) self.new result }
    {
        let b = self.take(8)?;
        Ok(u64::from_le_bytes([b[0], b[1], b[2], b[3], b[4], b[5], b[6], b[7]]))
    }
}
