//! The word on its table, and its steps.
ghost use Rattle.std.specs.Prelude.{◌≡◌, ◌+◌, ◌≤◌, true, [], IfOk};
ghost use Rattle.atomic_revision.specs.Sights.{writer, onlooker, looked, raised, IsWriter};

use crate::observed::{Observed, ReaderHandle};
use atomic_table::{Join, Play, Split, Table, TableRule};
use std::alloc::{AllocError, Global};

pub struct Rising;

impl TableRule<u8, Observed, ()> for Rising {
    ghost use Rattle.atomic_revision.specs.Sights.{Kept, writer};

    ghost holds = { λ key. Kept };

    ghost first = { λ key. writer 0 };
}

struct Looking;

impl Play<u8, Observed> for Looking {
    ghost use Rattle.atomic_revision.specs.Sights.{Looks};

    ghost then = { Looks };
}

struct Raising;

impl Play<u8, Observed> for Raising {
    ghost use Rattle.atomic_revision.specs.Sights.{Raises};

    ghost then = { Raises };
}

struct Checking;

impl Play<u8, Observed> for Checking {
    ghost use Rattle.atomic_revision.specs.Sights.{Checks};

    ghost then = { Checks };
}

struct Onlookers;

impl Split<Observed> for Onlookers {
    ghost use Rattle.atomic_revision.specs.Sights.{onlooker};

    ghost left = { λ v. v };

    ghost right = { onlooker };
}

impl Join<Observed> for Onlookers {
    ghost use Rattle.atomic_revision.specs.Sights.{told_of, spent};

    ghost both = { told_of };

    ghost spent = { spent };
}

type Rows = Table<u8, Observed, (), Rising, Global>;

/// The word. It holds 0 at first.
#[derive(Drop)]
pub struct AtomicRevision {
    table: Rows,
    ghost one_word: { table.shared.table_id.words ≡ 1 },
}

impl AtomicRevision {
    ghost use Rattle.atomic_revision.specs.Seated.{IsSeatOf};

    /// A word that is 0, with the seat that raises it.
    pub fn new(alloc: Global) -> Result<(AtomicRevision, ReaderHandle), AllocError>
        ensures { IfOk result (λ w. IsSeatOf w.0 w.1 × (w.1.me.0 ≡ writer 0)) }
    {
        let (table, seat) = Rows::of_words(alloc, &[0], &())?;
        Ok((AtomicRevision { table }, seat))
    }

    /// Raises the word.
    pub fn raise(&self, seat: &mut ReaderHandle, number: u64)
        requires seat { IsSeatOf self.now seat.old × IsWriter seat.old.me.0 }
        requires rising { seat.old.me.0.number ≤ number }
        ensures { IsSeatOf self.now seat.new × (seat.new.me.0 ≡ raised seat.old.me.0 number) }
    {
        self.table.shared.store::<Raising>(seat, 0, number);
    }

    /// Looks at the word once.
    pub fn look(&self, seat: &mut ReaderHandle) -> u64
        requires { IsSeatOf self.now seat.old × (seat.old.me.0.live ≡ true) }
        ensures seat { IsSeatOf self.now seat.new × (seat.new.me.0 ≡ looked seat.old.me.0 result) }
        ensures rising { seat.old.me.0.number ≤ result }
    {
        self.table.shared.load::<Looking>(seat, 0)
    }

    /// A seat for a worker, which has looked at nothing yet.
    pub fn split(&self, seat: &mut ReaderHandle) -> ReaderHandle
        requires { IsSeatOf self.now seat.old × IsWriter seat.old.me.0 }
        ensures writer { IsSeatOf self.now seat.new × (seat.new.me.0 ≡ seat.old.me.0) }
        ensures worker { IsSeatOf self.now result × (result.me.0 ≡ onlooker seat.old.me.0) }
    {
        self.table.shared.split_seat::<Onlookers>(seat)
    }

    /// Takes a worker's seat in. What it saw was never above what the writer stored.
    pub fn join(&self, seat: &mut ReaderHandle, other: ReaderHandle)
        requires writer { IsSeatOf self.now seat.old × IsWriter seat.old.me.0 }
        requires other { IsSeatOf self.now other × (other.me.0.live ≡ true) }
        ensures writer { IsSeatOf self.now seat.new × IsWriter seat.new.me.0 × (seat.new.me.0.number ≡ seat.old.me.0.number) }
        ensures seen { other.me.0.number ≤ seat.old.me.0.number }
    {
        self.table.shared.join_seat::<Onlookers>(seat, other);
        self.table.shared.load::<Checking>(seat, 0);
    }
}
