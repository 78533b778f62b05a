// The frames of all documents.
ghost use Rattle.std.specs.Prelude.{◌+◌, ◌≤◌};

use crate::writing::{write_document, write_exit};
use plain::{Bytes, NoMemory};
use std::alloc::Global;

// The room for a document's frames.
const ROOM: usize = 4096;

/// Gives the frames of one document after another, and last that of `exit`.
pub struct Generator {
    alloc: Global,
    // The place of the next document.
    place: u16,
    // How many documents are left.
    left: u16,
    // The state of the draws.
    state: u64,
    // The `exit` was given too.
    ended: bool,
    ghost fits: { place + left ≤ 65535 },
}

impl Drop for Generator {
    fn drop(self) {
        let Generator {
            alloc: _,
            place: _,
            left: _,
            state: _,
            ended: _,
        } = self;
    }
}

impl Generator {
    ghost use Rattle.std.specs.Prelude.{◌≡◌, ◌<◌, false, Some, IfOk, OnErr};
    ghost use Rattle.message_generator.specs.Stream.{Gives, bytes_left, stream_of};

    /// A generator of this many documents.
    #[tactic(auto, using(std::proofs::lemmas::Grind::common_steps))]
    pub fn new(alloc: Global, count: u16) -> Generator
        ensures { bytes_left result ≡ stream_of count }
    {
        Generator {
            alloc,
            place: 0,
            left: count,
            state: u64::from(count),
            ended: false,
        }
    }

    fn end(&mut self) -> Result<Bytes, NoMemory>
        requires left { self.old.left ≡ 0 }
        requires going { self.old.ended ≡ false }
        ensures frames { IfOk result (λ piece. Gives (bytes_left self.old) (bytes_left self.new) (Some piece)) }
        ensures err { OnErr result (self.new ≡ self.old) }
    {
        let mut frames = Vec::new(self.alloc);
        write_exit(self.alloc, &mut frames)?;
        self.ended = true;
        Ok(Bytes::from_vec(frames))
    }

    fn next_document(&mut self) -> Result<Bytes, NoMemory>
        requires left { 0 < self.old.left }
        requires going { self.old.ended ≡ false }
        ensures frames { IfOk result (λ piece. Gives (bytes_left self.old) (bytes_left self.new) (Some piece)) }
        ensures err { OnErr result (self.new ≡ self.old) }
    {
        let mut frames = Vec::with_capacity(self.alloc, ROOM)?;
        let state = write_document(self.alloc, self.place, self.state, &mut frames)?;
        self.place += 1;
        self.left -= 1;
        self.state = state;
        Ok(Bytes::from_vec(frames))
    }

    /// The frames of the next document, or that of `exit`, or none behind it. On an error nothing was given.
    pub fn next_frames(&mut self) -> Result<Option<Bytes>, NoMemory>
        ensures frames { IfOk result (Gives (bytes_left self.old) (bytes_left self.new)) }
        ensures err { OnErr result (self.new ≡ self.old) }
    {
        if self.ended {
            Ok(None)
        } else if self.left == 0 {
            Ok(Some(self.end()?))
        } else {
            Ok(Some(self.next_document()?))
        }
    }
}
