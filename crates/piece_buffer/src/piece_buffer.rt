ghost use Rattle.std.specs.Prelude.{◌≡◌, ◌↔◌, ◌≤◌, ◌++◌, [], length, take, drop, IsTrue, IfOk, OnOk, OnErr};

use plain::{Bytes, NoMemory};
use std::alloc::Global;
use std::marker::Model;

/// Bytes that come at the end, piece by piece, and go from the front. A piece that comes where none are left is taken over,
/// and all that is left is given away, without a copy. Contracts see the bytes that are left.
pub struct PieceBuffer {
    alloc: Global,
    bytes: Vec<u8>,
    // Where those begin that are left.
    start: usize,
}

impl Drop for PieceBuffer {
    fn drop(self) {
        let PieceBuffer {
            alloc: _,
            bytes: _,
            start: _,
        } = self;
    }
}

impl Model for PieceBuffer {
    ghost use Rattle.std.specs.Prelude.{ℕ, List, ◌≤◌, length, drop};

    ghost Value = { List ℕ };

    ghost view = { λ b. drop b.start b.bytes.items };

    ghost invariant = { λ b. b.start ≤ length b.bytes.items };
}

/// Moves the bytes from a place on to the front.
fn drop_front(bytes: &mut Vec<u8>, start: usize)
    requires { start ≤ length bytes.old.items }
    ensures { bytes.new.items ≡ drop start bytes.old.items }
{
    let end = bytes.len();
    bytes.copy_within(start..end, 0);
    bytes.truncate(end - start);
}

impl PieceBuffer {
    pub fn new(alloc: Global) -> PieceBuffer
        ensures { result ≡ [] }
    {
        PieceBuffer {
            alloc,
            bytes: Vec::new(alloc),
            start: 0,
        }
    }

    /// A buffer of this piece.
    pub fn from_bytes(alloc: Global, piece: Bytes) -> PieceBuffer
        ensures { result ≡ piece }
    {
        PieceBuffer {
            alloc,
            bytes: piece.into_vec(),
            start: 0,
        }
    }

    /// The bytes that are left.
    pub fn as_slice(&self) -> &[u8]
        ensures { result.now ≡ self.now }
    {
        &self.bytes[self.start..]
    }

    pub fn len(&self) -> usize
        ensures { result ≡ length self.now }
    {
        self.as_slice().len()
    }

    pub fn is_empty(&self) -> bool
        ensures { IsTrue result ↔ (self.now ≡ []) }
    {
        self.as_slice().is_empty()
    }

    /// Takes so many bytes from the front.
    pub fn consume(&mut self, count: usize)
        requires { count ≤ length self.old }
        ensures { self.new ≡ drop count self.old }
    {
        self.start += count;
    }

    /// Moves what is left to the front of its room, so that it can be given away without a copy once it is whole.
    pub fn compact(&mut self)
        ensures { self.new ≡ self.old }
    {
        if self.start > 0 {
            drop_front(&mut self.bytes, self.start);
            self.start = 0;
        }
    }

    /// Puts a copy of bytes at the end. What is left is moved only where it is the smaller part, so that no byte is moved
    /// more often than bytes go.
    pub fn extend_from_slice(&mut self, more: &[u8]) -> Result<(), NoMemory>
        ensures ok { OnOk result (self.new ≡ self.old ++ more.now) }
        ensures err { OnErr result (self.new ≡ self.old) }
    {
        if self.start > self.bytes.len() - self.start {
            self.compact();
        }
        self.bytes.extend_from_slice(more)
    }

    /// Puts a piece at the end. It isn't copied where none are left.
    pub fn feed(&mut self, piece: Bytes) -> Result<(), NoMemory>
        ensures ok { OnOk result (self.new ≡ self.old ++ piece) }
        ensures err { OnErr result (self.new ≡ self.old) }
    {
        if self.is_empty() {
            self.bytes = piece.into_vec();
            self.start = 0;
            return Ok(());
        }
        self.extend_from_slice(piece.as_slice())
    }

    /// Gives the first bytes away. They aren't copied where they are all that came since the last piece was taken over.
    pub fn give(&mut self, count: usize) -> Result<Bytes, NoMemory>
        requires { count ≤ length self.old }
        ensures bytes { IfOk result (λ piece. piece ≡ take count self.old) }
        ensures ok { OnOk result (self.new ≡ drop count self.old) }
        ensures err { OnErr result (self.new ≡ self.old) }
    {
        if self.start == 0 && count == self.bytes.len() {
            let bytes = std::mem::replace(&mut self.bytes, Vec::new(self.alloc));
            return Ok(Bytes::from_vec(bytes));
        }
        let piece = Bytes::from_slice(self.alloc, &self.as_slice()[..count])?;
        self.consume(count);
        Ok(piece)
    }
}
