// The messages of a stream that comes in pieces.
ghost use Rattle.std.specs.Prelude.{◌≡◌, ◌+◌, ◌<◌, ◌^◌, ◌++◌, [], ℕ, List, Some, false, length, IfOk, OnOk, MatchOption};
ghost use Rattle.lsp_frame.specs.Frames.{cut_of, frames_from};
ghost use Rattle.lsp_frame.specs.Reader.{fed};
ghost use Rattle.lsp_frame.specs.Pieces.{stream_of, reading_of, behind};

use crate::fault::FrameFault;
use crate::frame::Cut;
use crate::message::Message;
use crate::reader::FrameReader;
use plain::{Bytes, Items, NoMemory};
use std::alloc::{AllocError, Global};

/// The messages of a stream up to its first fault, and that fault.
pub struct Reading {
    pub messages: Items<Message>,
    pub fault: Option<FrameFault>,
}

impl Drop for Reading {
    fn drop(self) {
        let Reading {
            messages: _,
            fault: _,
        } = self;
    }
}

/// Takes out each message that is whole, and answers the fault that comes after them.
fn take_messages(
    reader: &mut FrameReader,
    messages: &mut Items<Message>,
) -> Result<Option<FrameFault>, AllocError>
    ensures reading { OnOk result ((more : List ℕ)
        → behind messages.new (reading_of (frames_from reader.new.place (reader.new.held ++ more)))
        ≡ behind messages.old (reading_of (frames_from reader.old.place (reader.old.held ++ more)))) }
    ensures counted { OnOk result (reader.new.place + length reader.new.held
        ≡ reader.old.place + length reader.old.held) }
    ensures end { IfOk result (λ o. MatchOption o
        ((cut_of reader.new.held ≡ Cut.NeedMore) × (reader.new.failed ≡ false))
        (λ fault. (more : List ℕ) → reading_of (frames_from reader.new.place (reader.new.held ++ more))
        ≡ record { messages = []; fault = Some fault })) }
{
    'messages: loop {
        match reader.next() {
            Ok(None) => return Ok(None),
            Ok(Some(message)) => messages.push(message)?,
            Err(FrameFault::BadFrame { at }) => return Ok(Some(FrameFault::BadFrame { at })),
            Err(FrameFault::BadMessage { at }) => return Ok(Some(FrameFault::BadMessage { at })),
            Err(FrameFault::NoMemory) => return Err(AllocError),
        }
    }
}

/// Feeds a copy of a piece.
fn feed(alloc: Global, reader: &mut FrameReader, piece: &[u8]) -> Result<(), NoMemory>
    requires { reader.old.place + length reader.old.held + length piece.now < 2 ^ 64 }
    ensures { OnOk result (reader.new ≡ fed reader.old piece.now) }
{
    reader.feed(Bytes::from_slice(alloc, piece)?)
}

/// The messages of the stream that comes in these pieces. They are those of the whole stream, however it was cut.
pub fn read_pieces(alloc: Global, pieces: &[Vec<u8>]) -> Result<Reading, NoMemory>
    requires { length (stream_of pieces.now) < 2 ^ 64 }
    ensures { IfOk result (λ r. r ≡ reading_of (frames_from 0 (stream_of pieces.now))) }
{
    let mut reader = FrameReader::new(alloc);
    let mut messages = Items::new(alloc);
    for piece in pieces {
        feed(alloc, &mut reader, piece)?;
        if let Some(fault) = take_messages(&mut reader, &mut messages)? {
            return Ok(Reading {
                messages,
                fault: Some(fault),
            });
        }
    }
    Ok(Reading {
        messages,
        fault: None,
    })
}
