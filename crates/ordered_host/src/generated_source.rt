// A source of generated messages.
ghost use Rattle.std.specs.Prelude.{◌≡◌, ◌≤◌, ◌↔◌, ◌<◌, ◌++◌, [], false, Some, length, IsTrue, IfOk, OnErr};
ghost use Rattle.message_generator.specs.Stream.{bytes_left, stream_of};
ghost use Rattle.session_port.specs.Record.{HasCause, IsPiece};

use message_generator::Generator;
use piece_buffer::PieceBuffer;
use plain::{Bytes, NoMemory};
use session_port::{HostError, Source};
use std::alloc::Global;
use std::marker::Model;

/// Gives the frames of one document after another, as a generator makes them. It never fails.
pub struct GeneratedSource {
    alloc: Global,
    generator: Generator,
    // What is left of the frames that were made last.
    pending: PieceBuffer,
}

impl Drop for GeneratedSource {
    fn drop(self) {
        let GeneratedSource {
            alloc: _,
            generator: _,
            pending: _,
        } = self;
    }
}

impl Model for GeneratedSource {
    ghost use Rattle.std.specs.Prelude.{ℕ, List, ◌++◌};
    ghost use Rattle.message_generator.specs.Stream.{bytes_left};

    ghost Value = { List ℕ };

    ghost view = { λ s. s.pending ++ bytes_left s.generator };
}

/// Makes the next frames where none are pending, and says whether some are pending now.
fn fill(
    alloc: Global,
    generator: &mut Generator,
    pending: &mut PieceBuffer,
) -> Result<bool, NoMemory>
    ensures left { pending.new ++ bytes_left generator.new ≡ pending.old ++ bytes_left generator.old }
    ensures more { IfOk result (λ more. IsTrue more ↔ (0 < length pending.new)) }
    ensures dry { IfOk result (λ more. more ≡ false → pending.new ++ bytes_left generator.new ≡ []) }
{
    if !pending.is_empty() {
        return Ok(true);
    }
    match generator.next_frames()? {
        Some(frames) => {
            *pending = PieceBuffer::from_bytes(alloc, frames);
            Ok(true)
        }
        None => Ok(false),
    }
}

impl GeneratedSource {
    /// The messages of this many documents.
    pub fn new(alloc: Global, count: u16) -> Self
        ensures { result ≡ stream_of count }
    {
        GeneratedSource {
            alloc,
            generator: Generator::new(alloc, count),
            pending: PieceBuffer::new(alloc),
        }
    }
}

impl Source for GeneratedSource {
    ghost left = { λ s. Some s };

    ghost faults = { λ _. 0 };

    ghost poisoned = { λ _. false };

    fn read_piece(&mut self, max: usize) -> Result<Option<Bytes>, HostError> {
        if !fill(self.alloc, &mut self.generator, &mut self.pending)? {
            return Ok(None);
        }
        let len = self.pending.len().min(max);
        Ok(Some(self.pending.give(len)?))
    }
}
