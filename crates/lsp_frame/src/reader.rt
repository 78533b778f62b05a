// A reader that is fed a stream in pieces, and gives the messages of its frames.
ghost use Rattle.std.specs.Prelude.{◌≡◌, ◌+◌, ◌-◌, ◌<◌, ◌≤◌, ◌^◌, ◌↔◌, ◌++◌, [], ℕ, List, true, false, length, slice_range, IsTrue, IfOk, IfErr, IfNone, IfSome, OnOk, OnErr, Ok, Err, None};
ghost use Rattle.lsp_frame.specs.Frames.{header_limit, head_of, cut_of, LiesWithin};
ghost use Rattle.lsp_frame.specs.Header.{size_limit};
ghost use Rattle.lsp_frame.specs.Kept.{Knows};
ghost use Rattle.lsp_frame.specs.Reader.{Reader, fed, is_faulty, fault_of, GivesMessage, FaultIs};

use crate::cutting::{cut_at, read_head};
use crate::fault::FrameFault;
use crate::frame::{Cut, Head};
use crate::message::Message;
use crate::reading::read_body;
use piece_buffer::PieceBuffer;
use plain::{Bytes, NoMemory};
use std::alloc::{AllocError, Global};
use std::marker::Model;

/// What is known of the next header, and below which place no empty line begins.
#[derive(Clone, Copy)]
struct Known {
    head: Head,
    searched: usize,
}

impl Known {
    const NOTHING: Known = Known {
        head: Head::Open,
        searched: 0,
    };
}

/// A reader of messages.
pub struct FrameReader {
    alloc: Global,
    // The bytes that belong to no message given so far, and where in the stream they begin.
    held: PieceBuffer,
    place: u64,
    known: Known,
    failed: bool,
}

impl Drop for FrameReader {
    fn drop(self) {
        let FrameReader {
            alloc: _,
            held: _,
            place: _,
            known: _,
            failed: _,
        } = self;
    }
}

impl Model for FrameReader {
    ghost use Rattle.lsp_frame.specs.Reader.{Reader};
    ghost use Rattle.lsp_frame.specs.Kept.{IsKept};

    ghost Value = { Reader };

    ghost view = { λ r. record { place = r.place; held = r.held; failed = r.failed } };

    ghost invariant = { λ r. IsKept r.place r.held r.known.head r.known.searched r.failed };
}

/// Looks for a header at the front of the bytes, where none is known yet.
fn find_header(held: &[u8], known: Known) -> Known
    requires { Knows held.now known.head known.searched }
    ensures head { result.head ≡ head_of held.now }
    ensures knows { Knows held.now result.head result.searched }
{
    match known.head {
        Head::Open => search_header(held, known.searched),
        _ => known,
    }
}

/// Looks for a header at the front of the bytes, where no empty line begins below a place.
fn search_header(held: &[u8], searched: usize) -> Known
    requires { Knows held.now Head.Open searched }
    ensures head { result.head ≡ head_of held.now }
    ensures knows { Knows held.now result.head result.searched }
{
    let head = read_head(held, searched);
    match head {
        Head::Open => Known {
            head,
            searched: held.len().saturating_sub(3),
        },
        _ => Known { head, searched },
    }
}

impl FrameReader {
    pub fn new(alloc: Global) -> Self
        ensures { result ≡ record { place = 0; held = []; failed = false } }
    {
        FrameReader::new_at(alloc, 0)
    }

    /// A reader of what follows so many bytes of a stream, which another has read.
    pub fn new_at(alloc: Global, place: u64) -> Self
        ensures { result ≡ record { place = place; held = []; failed = false } }
    {
        FrameReader {
            alloc,
            held: PieceBuffer::new(alloc),
            place,
            known: Known::NOTHING,
            failed: false,
        }
    }

    /// How many bytes were fed before a fault.
    pub fn taken(&self) -> u64
        ensures { result ≡ self.now.place + length self.now.held }
    {
        self.place + self.held() as u64
    }

    /// How many bytes belong to no message given so far.
    pub fn held(&self) -> usize
        ensures { result ≡ length self.now.held }
    {
        self.held.len()
    }

    /// Where in the stream these bytes begin.
    pub fn place(&self) -> u64
        ensures { result ≡ self.now.place }
    {
        self.place
    }

    /// Whether bytes of an unfinished frame are held.
    pub fn mid_frame(&self) -> bool
        ensures { IsTrue result ↔ ((0 < length self.now.held) × (cut_of self.now.held ≡ Cut.NeedMore)) }
    {
        self.held() > 0 && self.first_frame() == Cut::NeedMore
    }

    /// What the next frame is, by what has come of it.
    fn first_frame(&self) -> Cut
        ensures { result ≡ cut_of self.now.held }
    {
        let known = find_header(self.held.as_slice(), self.known);
        cut_at(self.held.len(), known.head)
    }

    /// Takes the next piece of the stream. It isn't copied where no byte is held.
    pub fn feed(&mut self, bytes: Bytes) -> Result<(), NoMemory>
        requires { self.old.place + length self.old.held + length bytes < 2 ^ 64 }
        ensures ok { OnOk result (self.new ≡ fed self.old bytes) }
        ensures err { OnErr result (self.new ≡ self.old) }
    {
        if self.failed {
            return Ok(());
        }
        self.held.feed(bytes)?;
        Ok(())
    }

    /// Reads the next header as far as it has come, and says what the next frame is.
    fn look(&mut self) -> Cut
        ensures cut { result ≡ cut_of self.old.held }
        ensures within { LiesWithin result (length self.old.held) }
        ensures same { self.new ≡ self.old }
        ensures faulty { self.old.failed ≡ true → is_faulty self.old.held ≡ true }
    {
        self.known = find_header(self.held.as_slice(), self.known);
        cut_at(self.held.len(), self.known.head)
    }

    /// Takes out the message of the first frame.
    fn take(&mut self, start: usize, end: usize) -> Result<Message, FrameFault>
        requires whole { cut_of self.old.held ≡ Cut.Frame start end }
        requires within { LiesWithin (Cut.Frame start end) (length self.old.held) }
        ensures message { IfOk result (λ m. GivesMessage self.old self.new m) }
        ensures fault { IfErr result (FaultIs self.old self.new) }
        ensures again { self.old.failed ≡ true
            → (result ≡ Err (fault_of self.old)) × (self.new ≡ self.old) }
        ensures frame { IfErr result (λ fault. fault ≡ FrameFault.BadFrame self.old.place → ⊥) }
    {
        if self.failed {
            return Err(FrameFault::BadMessage { at: self.place });
        }
        match read_body(self.alloc, &self.held.as_slice()[start..end]) {
            Ok(Some(message)) => {
                self.held.consume(end);
                self.place += end as u64;
                self.known = Known::NOTHING;
                Ok(message)
            }
            Ok(None) => {
                self.failed = true;
                Err(FrameFault::BadMessage { at: self.place })
            }
            Err(AllocError) => Err(FrameFault::NoMemory),
        }
    }

    /// The next message, or `None` where more bytes are needed.
    pub fn next(&mut self) -> Result<Option<Message>, FrameFault>
        // What comes, and what is left.
        ensures none { IfOk result (λ o. IfNone o ((cut_of self.old.held ≡ Cut.NeedMore)
            × (self.new ≡ self.old) × (self.old.failed ≡ false))) }
        ensures message { IfOk result (λ o. IfSome o (GivesMessage self.old self.new)) }
        ensures fault { IfErr result (FaultIs self.old self.new) }

        // None and a bad frame come exactly where they are due, and a fault is answered again.
        ensures waits { (result ≡ Ok None) ↔ (cut_of self.old.held ≡ Cut.NeedMore) }
        ensures bad_frame { (result ≡ Err (FrameFault.BadFrame self.old.place))
            ↔ (cut_of self.old.held ≡ Cut.Bad) }
        ensures again { self.old.failed ≡ true
            → (result ≡ Err (fault_of self.old)) × (self.new ≡ self.old) }

        // What is held back is bounded, and each message takes some of it.
        ensures bound { IfOk result (λ o. IfNone o (length self.new.held < header_limit + size_limit)) }
        ensures shorter { IfOk result (λ o. IfSome o (λ _. length self.new.held < length self.old.held)) }
    {
        match self.look() {
            Cut::NeedMore => Ok(None),
            Cut::Bad => {
                self.failed = true;
                Err(FrameFault::BadFrame { at: self.place })
            }
            Cut::Frame {
                body_start,
                body_end,
            } => Ok(Some(self.take(body_start, body_end)?)),
        }
    }
}
