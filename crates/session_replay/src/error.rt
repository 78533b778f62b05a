// Why no record was written, or none was run.
ghost use Rattle.std.specs.Prelude.{◌≡◌};
ghost use Rattle.session_replay.specs.declared.error.ReplayError.TheVariants.{Session};
ghost use Rattle.session_laws.specs.SessionError.TheVariants.{NoMemory};

use session::SessionError;
use std::alloc::{AllocError, AllocFailed};

/// Why no record was written, or why none was run to a good end.
#[derive(Clone, Copy, Debug, PartialEq, Eq)]
pub enum ReplayError {
    /// The session ended so, or what is done around it.
    Session(SessionError),
    /// The bytes are no record.
    BadRecord,
    /// The session can't be recorded.
    Unrecordable,
    /// More bytes came than are read of a record.
    TooLong,
}

impl From<AllocError> for ReplayError {
    ghost from_gives = { λ _ e. e ≡ Session NoMemory };

    fn from(_: AllocError) -> Self {
        ReplayError::Session(SessionError::NoMemory)
    }
}

impl<T: Drop> From<AllocFailed<T>> for ReplayError {
    ghost from_gives = { λ _ e. e ≡ Session NoMemory };

    fn from(_: AllocFailed<T>) -> Self {
        ReplayError::Session(SessionError::NoMemory)
    }
}
