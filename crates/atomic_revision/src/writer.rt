//! The one that raises the revision word, and hands out the seats of workers.
ghost use Rattle.std.specs.Prelude.{◌≡◌, ◌≤◌, true, None, IfOk, max};
ghost use Rattle.std.specs.Arc.{arc_value};
ghost use Rattle.atomic_revision.specs.Seated.{IsSeatOf};
ghost use Rattle.atomic_revision.specs.Sights.{IsWriter, onlooker};

use crate::atomic_revision::AtomicRevision;
use crate::observed::ReaderHandle;
use crate::revision_cancel::RevisionCancel;
use std::alloc::{AllocError, Global};
use std::sync::Arc;

/// The word, the seat that raises it, and the number that it holds.
#[derive(Drop)]
pub struct Writer {
    pub word: Arc<AtomicRevision, Global>,
    pub seat: ReaderHandle,
    pub number: u64,
    ghost seated: { IsSeatOf (arc_value word) seat },
    ghost writes: { IsWriter seat.me.0 },
    ghost holds: { seat.me.0.number ≡ number },
}

impl Writer {
    /// A word that holds 0.
    pub fn new(alloc: Global) -> Result<Writer, AllocError>
        ensures { IfOk result (λ writer. writer.number ≡ 0) }
    {
        let (word, seat) = AtomicRevision::new(alloc)?;
        let word = Arc::new(alloc, word)?;
        Ok(Writer {
            word,
            seat,
            number: 0,
        })
    }

    /// Raises the word; a number that isn't above it changes nothing.
    pub fn raise(&mut self, number: u64)
        ensures number { self.new.number ≡ max self.old.number number }
        ensures same { self.new.word ≡ self.old.word }
    {
        if number > self.number {
            self.word.raise(&mut self.seat, number);
            self.number = number;
        }
    }

    /// What a job on a snapshot of this revision polls. Its seat has loaded nothing yet.
    pub fn cancel(&mut self, floor: u64) -> Result<RevisionCancel, AllocError>
        ensures seat { IfOk result (λ cancel. (cancel.seat.me.0 ≡ onlooker self.old.seat.me.0) × (cancel.floor ≡ floor) × (cancel.seen ≡ None)) }
        ensures word { IfOk result (λ cancel. IsSeatOf (arc_value self.old.word) cancel.seat) }
        ensures same { (self.new.word ≡ self.old.word) × (self.new.number ≡ self.old.number) }
    {
        let word = Arc::try_clone(&self.word)?;
        let seat = self.word.split(&mut self.seat);
        Ok(RevisionCancel::new(word, seat, floor))
    }

    /// Takes in the seat of a job that has ended. What it saw was never above the word.
    pub fn join(&mut self, cancel: RevisionCancel)
        requires { IsSeatOf (arc_value self.old.word) cancel.seat }
        ensures seen { cancel.seat.me.0.number ≤ self.old.number }
        ensures same { (self.new.word ≡ self.old.word) × (self.new.number ≡ self.old.number) }
    {
        let other = cancel.into_seat();
        self.word.join(&mut self.seat, other);
    }
}
