// A source whose bytes are given frame by frame.
ghost use Rattle.std.specs.Prelude.{◌≡◌, ◌≢◌, ◌≤◌, ◌<◌, ◌↔◌, ◌++◌, false, [], length, take, drop, IsTrue, IfOk, OnOk, OnErr};
ghost use Rattle.lsp_frame.specs.Frames.{cut_of};
ghost use Rattle.lsp_frame.specs.declared.frame.Cut.TheVariants.{NeedMore};
ghost use Rattle.inline_host.specs.Framed.{waiting, IsRead, EndsPiece, Shows};
ghost use Rattle.inline_host.specs.Inline.{IsDry};
ghost use Rattle.session_port.specs.Record.{HasCause, before_piece};

use lsp_frame::{HEADER_LIMIT, Head, read_head};
use piece_buffer::PieceBuffer;
use plain::{Bytes, NoMemory};
use session_port::{HostError, Source};
use std::alloc::Global;
use std::marker::Model;
use std::mem;

/// How many bytes are read at once, at most.
const PIECE: usize = 65536;

/// What the bytes held show of the next piece.
#[derive(Clone, Copy)]
pub(crate) enum NextPiece {
    /// It ends here: with a frame, or with all that is held.
    EndsAt(usize),
    /// Where it ends doesn't show yet; so many bytes are lacking.
    Lacks(usize),
}

/// A source, and the bytes that were read of it and not given yet.
pub(crate) struct FramedSource<S: Source> {
    alloc: Global,
    source: S,
    // The bytes of which the next piece is cut.
    held: PieceBuffer,
    // What is left of the piece that was read last.
    pending: PieceBuffer,
}

impl<S: Source + Drop> Drop for FramedSource<S> {
    fn drop(self) {
        let FramedSource {
            alloc: _,
            source: _,
            held: _,
            pending: _,
        } = self;
    }
}

impl<S: Source> Model for FramedSource<S> {
    ghost use Rattle.inline_host.specs.Framed.{FramedData};
    ghost use Rattle.session_port.specs.Record.{before_piece};

    ghost Value = { FramedData };

    ghost view = { λ s. record { held = s.held; left = before_piece s.pending (S.left s.source); faults = S.faults s.source; poisoned = S.poisoned s.source } };
}

/// Reads a piece where none is pending, and says whether one is pending now.
fn fill<S: Source>(
    alloc: Global,
    source: &mut S,
    pending: &mut PieceBuffer,
) -> Result<bool, HostError>
    requires usable { S.poisoned source.old ≡ false }
    ensures usable { IfOk result (λ _. S.poisoned source.new ≡ false) }
    ensures left { before_piece pending.new (S.left source.new) ≡ before_piece pending.old (S.left source.old) }
    ensures more { IfOk result (λ more. IsTrue more ↔ (0 < length pending.new)) }
    ensures dry { IfOk result (λ more. more ≡ false → IsDry (before_piece pending.new (S.left source.new))) }
    ensures cause { HasCause (S.faults source.old) (S.faults source.new) result }
{
    if !pending.is_empty() {
        return Ok(true);
    }
    match source.read_piece(PIECE)? {
        Some(piece) => {
            *pending = PieceBuffer::from_bytes(alloc, piece);
            Ok(true)
        }
        None => Ok(false),
    }
}

/// Moves the first of the pending bytes behind those held, at most so many. Where none are held it takes all, without a
/// copy.
fn take_pending(
    held: &mut PieceBuffer,
    pending: &mut PieceBuffer,
    most: usize,
) -> Result<(), NoMemory>
    requires some { 0 < most }
    requires pending { 0 < length pending.old }
    ensures longer { OnOk result (length held.old < length held.new) }
    ensures all { held.new ++ pending.new ≡ held.old ++ pending.old }
    ensures kept { OnErr result (held.new ≡ held.old) }
    ensures left { OnErr result (pending.new ≡ pending.old) }
{
    if held.is_empty() {
        mem::swap(held, pending);
        return Ok(());
    }
    held.compact();
    let count = pending.len().min(most);
    held.extend_from_slice(&pending.as_slice()[..count])?;
    pending.consume(count);
    Ok(())
}

impl<S: Source> FramedSource<S> {
    pub fn new(alloc: Global, source: S) -> Self
        ensures { result
            ≡ record { held = []; left = S.left source; faults = S.faults source; poisoned = S.poisoned source } }
    {
        FramedSource {
            alloc,
            source,
            held: PieceBuffer::new(alloc),
            pending: PieceBuffer::new(alloc),
        }
    }

    /// The first of the bytes held.
    pub fn front(&self, end: usize) -> &[u8]
        requires { end ≤ length self.now.held }
        ensures { result.now ≡ take end self.now.held }
    {
        &self.held.as_slice()[..end]
    }

    /// Lets go of the first of the bytes held.
    pub fn advance(&mut self, end: usize)
        requires { end ≤ length self.old.held }
        ensures { self.new ≡ record self.old { held = drop end self.old.held } }
    {
        self.held.consume(end);
    }

    /// Gives the first of the bytes held away. They aren't copied where nothing is held behind them.
    pub fn give(&mut self, end: usize) -> Result<Bytes, NoMemory>
        requires { end ≤ length self.old.held }
        ensures bytes { IfOk result (λ piece. piece ≡ take end self.old.held) }
        ensures ok { OnOk result (self.new ≡ record self.old { held = drop end self.old.held }) }
        ensures err { OnErr result (self.new ≡ self.old) }
    {
        self.held.give(end)
    }

    /// Takes in more bytes, at most as many as are lacking where some are held, and says whether there were more.
    fn read_more(&mut self, lacking: usize) -> Result<bool, HostError>
        requires usable { self.old.poisoned ≡ false }
        requires some { 0 < lacking }
        ensures usable { IfOk result (λ _. self.new.poisoned ≡ false) }
        ensures more { IfOk result (IsRead self.old self.new) }
        ensures held { OnErr result (self.new.held ≡ self.old.held) }
        ensures left { OnErr result (self.new.left ≡ self.old.left) }
        ensures cause { HasCause self.old.faults self.new.faults result }
    {
        if !fill(self.alloc, &mut self.source, &mut self.pending)? {
            return Ok(false);
        }
        take_pending(&mut self.held, &mut self.pending, lacking)?;
        Ok(true)
    }

    /// Looks for the header of the next piece among the bytes held.
    #[tactic(auto, using(crate::proofs::FirstPieces::cut_nothing), unfolding(lsp_frame::specs::Frames::cut_of))]
    fn next_piece(&self) -> NextPiece
        ensures { Shows self.now result }
    {
        if self.held.is_empty() {
            return NextPiece::Lacks(HEADER_LIMIT);
        }
        let held = self.held.as_slice();
        match read_head(held, 0) {
            Head::Open => NextPiece::Lacks(HEADER_LIMIT),
            Head::Broken => NextPiece::EndsAt(held.len()),
            Head::Body { end, .. } => {
                if held.len() < end {
                    NextPiece::Lacks(end - held.len())
                } else {
                    NextPiece::EndsAt(end)
                }
            }
        }
    }

    /// Reads until it is known where the next piece ends, which is with all that is held where the source has ended.
    fn read_on(&mut self, lacking: usize) -> Result<usize, HostError>
        requires usable { self.old.poisoned ≡ false }
        requires needs { cut_of self.old.held ≡ NeedMore }
        requires some { 0 < lacking }
        ensures usable { IfOk result (λ _. self.new.poisoned ≡ false) }
        ensures waiting { waiting self.new ≡ waiting self.old }
        ensures end { IfOk result (EndsPiece self.new) }
        ensures within { IfOk result (λ end. end ≤ length self.new.held) }
        ensures cause { HasCause self.old.faults self.new.faults result }
    {
        let mut lacking = lacking;
        'reading: loop {
            if !self.read_more(lacking)? {
                return Ok(self.held.len());
            }
            match self.next_piece() {
                NextPiece::EndsAt(end) => return Ok(end),
                NextPiece::Lacks(count) => lacking = count,
            }
        }
    }

    /// Where the next piece ends. It reads only where the bytes held don't show it. All that is held may be nothing,
    /// at the end.
    pub fn next_end(&mut self) -> Result<usize, HostError>
        requires usable { self.old.poisoned ≡ false }
        ensures usable { IfOk result (λ _. self.new.poisoned ≡ false) }
        ensures waiting { waiting self.new ≡ waiting self.old }
        ensures unread { cut_of self.old.held ≢ NeedMore → self.new ≡ self.old }
        ensures end { IfOk result (EndsPiece self.new) }
        ensures within { IfOk result (λ end. end ≤ length self.new.held) }
        ensures cause { HasCause self.old.faults self.new.faults result }
        ensures needs { result ≡ Err HostError.Failed → cut_of self.old.held ≡ NeedMore }
    {
        match self.next_piece() {
            NextPiece::EndsAt(end) => Ok(end),
            NextPiece::Lacks(count) => self.read_on(count),
        }
    }
}
