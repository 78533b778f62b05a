//! A worker's look at the revision word, as what a query polls.
ghost use Rattle.std.specs.Prelude.{◌≡◌, ◌≤◌, true, None};
ghost use Rattle.std.specs.Arc.{arc_value};
ghost use Rattle.analysis_host.specs.Polls.{last_seen};
ghost use Rattle.atomic_revision.specs.Polled.{is_seen, polled};
ghost use Rattle.atomic_revision.specs.Seated.{IsSeatOf};
ghost use Rattle.atomic_revision.specs.Sights.{looked};

use crate::atomic_revision::AtomicRevision;
use crate::observed::ReaderHandle;
use analysis_host::Cancel;
use std::alloc::Global;
use std::sync::Arc;

/// The seat of one job, which works on a snapshot of the revision `floor`.
#[derive(Drop)]
pub struct RevisionCancel {
    pub word: Arc<AtomicRevision, Global>,
    pub seat: ReaderHandle,
    pub floor: u64,
    /// The last revision above the floor that a poll gave.
    pub seen: Option<u64>,
    ghost seated: { IsSeatOf (arc_value word) seat },
    ghost live: { seat.me.0.live ≡ true },
    ghost above: { is_seen floor seat.me.0.number seen ≡ true },
}

impl RevisionCancel {
    /// Nothing was polled yet.
    pub fn new(word: Arc<AtomicRevision, Global>, seat: ReaderHandle, floor: u64) -> RevisionCancel
        requires { IsSeatOf (arc_value word) seat × (seat.me.0.live ≡ true) }
        ensures { (result.word ≡ word) × (result.seat ≡ seat) × (result.floor ≡ floor) × (result.seen ≡ None) }
    {
        RevisionCancel {
            word,
            seat,
            floor,
            seen: None,
        }
    }

    /// Loads the word once, and answers it where it is above the floor.
    pub fn look(&mut self) -> Option<u64>
        ensures load { self.new.seat.me.0 ≡ looked self.old.seat.me.0 self.new.seat.me.0.number }
        ensures rising { self.old.seat.me.0.number ≤ self.new.seat.me.0.number }
        ensures answer { result ≡ polled self.old.floor self.new.seat.me.0.number }
        ensures seen { self.new.seen ≡ last_seen self.old.seen result }
        ensures same { (self.new.floor ≡ self.old.floor) × (self.new.word ≡ self.old.word) × (self.new.seat.table_id ≡ self.old.seat.table_id) }
    {
        let found = self.word.look(&mut self.seat);
        if found > self.floor {
            self.seen = Some(found);
            Some(found)
        } else {
            None
        }
    }

    /// Gives the seat back, for the writer to join.
    pub fn into_seat(self) -> ReaderHandle
        ensures { result ≡ self.seat }
    {
        let RevisionCancel {
            word: _,
            seat,
            floor: _,
            seen: _,
        } = self;
        seat
    }
}

impl Cancel for RevisionCancel {
    ghost use Rattle.std.specs.Prelude.{◌-◌, ◌^◌, ◌∷◌, min};
    ghost use Rattle.atomic_revision.specs.Keys.{key_of};
    ghost use Rattle.atomic_revision.specs.Polled.{seen_above};

    ghost key = { λ c. c.floor ∷ key_of c.seat.table_id };

    ghost floor = { λ c. c.floor };

    ghost held = { λ c. c.seen };

    ghost polls = { λ c. min c.seat.me.0.loads (2 ^ 64 - 1) };

    ghost above_floor = { λ c. seen_above c.floor c.seat.me.0.number c.seen c.above };

    fn poll(&mut self) -> Option<u64> {
        self.look()
    }

    fn held(&self) -> Option<u64> {
        self.seen
    }
}
