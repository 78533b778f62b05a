// Why there is no record, or no session in a record.
ghost use Rattle.std.specs.Prelude.{◌≡◌};
ghost use Rattle.session_record.specs.declared.fault.RecordFault.TheVariants.{NoMemory};

use std::alloc::{AllocError, AllocFailed};

/// Why there is no record, or no session in a record.
#[derive(Clone, Copy, Debug, PartialEq, Eq)]
pub enum RecordFault {
    /// This event has no spelling; the number of events where only the beginning has none.
    Unrecordable { event: u64 },
    BadRecord,
    NoMemory,
}

impl From<AllocError> for RecordFault {
    ghost from_gives = { λ _ e. e ≡ NoMemory };

    fn from(_: AllocError) -> Self {
        RecordFault::NoMemory
    }
}

impl<T: Drop> From<AllocFailed<T>> for RecordFault {
    ghost from_gives = { λ _ e. e ≡ NoMemory };

    fn from(_: AllocFailed<T>) -> Self {
        RecordFault::NoMemory
    }
}
