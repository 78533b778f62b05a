// A reader as a source.
ghost use Rattle.std.specs.Prelude.{◌≡◌, ◌≤◌, ◌<◌, [], length, ℕ, List, false, Option, None, Err, IfOk, IfSome, OnErr};
ghost use Rattle.std.specs.Io.KnownBytes.{Keeps};
ghost use Rattle.session_port.specs.Record.{HasCause, IsPiece};
ghost use Rattle.server.specs.Streams.{IsTaken};

use plain::Bytes;
use session_port::{HostError, Source};
use std::alloc::{AllocError, Global};
use std::io::{self, BufRead, BufReader, ErrorKind, Read};
use std::marker::Model;

/// How many bytes are read at once, at most.
const ROOM: usize = 65536;

/// Reads from a reader, such as standard input, into one buffer.
#[derive(Drop)]
pub struct StandardInput<R: Read + Drop> {
    alloc: Global,
    reader: BufReader<R>,
    faults: u64,
}

impl<R: Read + Drop> Model for StandardInput<R> {
    ghost use Rattle.std.specs.Io.Buffered.{reader_buffer, reader_remaining};
    ghost use Rattle.server.specs.Streams.{InputData};

    ghost Value = { InputData };

    ghost view = { λ s. record { left = reader_remaining R.remaining s.reader; ahead = reader_buffer s.reader; faults = s.faults } };
}

impl<R: Read + Drop> StandardInput<R> {
    pub fn new(alloc: Global, reader: R) -> io::Result<Self>
        ensures { IfOk result (λ s. s ≡ record { left = R.remaining reader; ahead = []; faults = 0 }) }
    {
        Ok(StandardInput {
            alloc,
            reader: BufReader::with_capacity(alloc, ROOM, reader)?,
            faults: 0,
        })
    }
}

/// Why no piece was taken.
#[derive(Drop)]
enum Refusal {
    /// A signal came in between.
    Interrupted,
    Failed,
    NoMemory,
}

impl From<io::Error> for Refusal {
    fn from(error: io::Error) -> Self {
        if error.kind() == ErrorKind::Interrupted {
            Refusal::Interrupted
        } else {
            Refusal::Failed
        }
    }
}

impl From<AllocError> for Refusal {
    fn from(_: AllocError) -> Self {
        Refusal::NoMemory
    }
}

/// Takes a piece of at most so many bytes, or finds the end.
fn take_piece<B: BufRead>(
    alloc: Global,
    reader: &mut B,
    max: usize,
) -> Result<Option<Bytes>, Refusal>
    requires { 1 ≤ max }
    ensures some { IfOk result (λ found. IfSome found (λ piece. 0 < length piece)) }
    ensures most { IfOk result (λ found. IfSome found (λ piece. length piece ≤ max)) }
    ensures taken { IfOk result (IsTaken (B.remaining reader.old) (B.remaining reader.new)) }
    ensures kept { OnErr result (Keeps (B.remaining reader.old) (B.remaining reader.new)) }
{
    let shown = match reader.fill_buf() {
        Ok(shown) => shown,
        Err(error) => return Err(Refusal::from(error)),
    };
    let len = shown.len().min(max);
    if len == 0 {
        return Ok(None);
    }
    // With the piece made first, no byte is lost for want of memory.
    let piece = Bytes::from_slice(alloc, &shown[..len])?;
    reader.consume(len);
    Ok(Some(piece))
}

impl<R: Read + Drop> StandardInput<R> {
    /// Counts a failure of the reader. Where bytes were read ahead it is none: they can be taken.
    fn fail(&mut self) -> HostError
        ensures failed { result ≡ HostError.Failed → self.new.ahead ≡ [] }
        ensures left { self.new.left ≡ self.old.left }
        ensures cause { HasCause {T = Option (List ℕ)} self.old.faults self.new.faults (Err result) }
    {
        if !self.reader.buffer().is_empty() {
            return HostError::NoMemory;
        }
        self.faults = self.faults.saturating_add(1);
        HostError::Failed
    }

    fn take(&mut self, max: usize) -> Result<Option<Bytes>, Refusal>
        requires { 1 ≤ max }
        ensures some { IfOk result (λ found. IfSome found (λ piece. 0 < length piece)) }
        ensures most { IfOk result (λ found. IfSome found (λ piece. length piece ≤ max)) }
        ensures taken { IfOk result (IsTaken self.old.left self.new.left) }
        ensures kept { OnErr result (Keeps self.old.left self.new.left) }
        ensures faults { self.new.faults ≡ self.old.faults }
    {
        take_piece(self.alloc, &mut self.reader, max)
    }
}

impl<R: Read + Drop> Source for StandardInput<R> {
    ghost left = { λ _. None };

    ghost faults = { λ s. s.faults };

    ghost poisoned = { λ _. false };

    fn read_piece(&mut self, max: usize) -> Result<Option<Bytes>, HostError>
        requires some { 1 ≤ max }
        ensures piece { IfOk result (IsPiece max None None) }
        ensures cause { HasCause self.old.faults self.new.faults result }

        // What the reader has left, if it tells.
        ensures taken { IfOk result (IsTaken self.old.left self.new.left) }
        ensures untaken { OnErr result (Keeps self.old.left self.new.left) }

        // It fails where nothing was read ahead. So want of memory for a piece, which stands there then, is no failure.
        ensures failed { result ≡ Err HostError.Failed → self.new.ahead ≡ [] }
    {
        // Reads again where a signal came in between.
        'reading: for _ in 0..u64::MAX {
            match self.take(max) {
                Ok(piece) => return Ok(piece),
                Err(Refusal::Interrupted) => {}
                Err(Refusal::Failed) => return Err(self.fail()),
                Err(Refusal::NoMemory) => return Err(HostError::NoMemory),
            }
        }
        Err(self.fail())
    }
}
