//! What stands in the inbox, and what a thread knows of it.
ghost use Rattle.std.specs.Prelude.{◌≡◌, true, ◌∷◌, [], length};
ghost use Rattle.inbox.specs.Posting.{bytes_of};

use crate::told::Token;
use plain::Bytes;
use std::collections::LinkedList;

/// One entry of the inbox.
#[derive(Drop)]
pub enum Entry {
    /// The source as it was when the host was made.
    Opened(Token),
    /// A piece that the reader read.
    Piece(Bytes),
    /// The source has ended.
    Ended,
    /// The source failed, and is now this one.
    Failed(Token),
    /// The reader found no memory.
    NoMemory,
    /// The job with this number is done.
    Done(u64),
}

impl Entry {
    /// Whether it is the source's end.
    pub fn is_end(&self) -> bool
        ensures { result ≡ true → self.now ≡ Entry.Ended }
    {
        matches!(self, Entry::Ended)
    }

    /// Whether the reader posted it.
    pub fn is_read(&self) -> bool {
        !matches!(self, Entry::Opened(_) | Entry::Done(_))
    }

    /// How many bytes it brings.
    pub fn len(&self) -> u64
        ensures { result ≡ length (bytes_of (self.now ∷ [])) }
    {
        match self {
            Entry::Piece(bytes) => bytes.len() as u64,
            Entry::Opened(_) | Entry::Ended | Entry::Failed(_) | Entry::NoMemory | Entry::Done(_) =>
                0,
        }
    }
}

/// What a pass knows. No value of it is made.
pub struct Knows {
    /// It is the reader's pass.
    pub reads: bool,
    /// It is the host's pass.
    pub takes: bool,
    /// Whether the reader has posted its last entry.
    pub closed: bool,
    /// The bytes that the source held at the start.
    pub held: Option<LinkedList<u8>>,
    /// The faults that it had then.
    pub faults: u64,
    /// The bytes that the source holds now.
    pub left: Option<LinkedList<u8>>,
    pub posted: LinkedList<Entry>,
    pub taken: LinkedList<Entry>,
    pub done: LinkedList<u64>,
}
