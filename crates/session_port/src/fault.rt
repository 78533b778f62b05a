// Why a turn is broken off.
ghost use Rattle.std.specs.Prelude.{◌≡◌};
ghost use Rattle.session_port.specs.declared.fault.TurnError.TheVariants.{NoMemory as TurnOutOfMemory};

use std::alloc::{AllocError, AllocFailed};

/// What is counted, each up to the greatest number of its type.
#[derive(Clone, Copy, Debug, PartialEq, Eq, PartialOrd, Ord, Hash)]
pub enum Counter {
    Turns,
    Bytes,
    Jobs,
    Revisions,
    /// The discoveries that are ordered.
    Discoveries,
    /// The numbers of the session's own requests.
    Outgoing,
    /// The numbers of files.
    Files,
    /// The versions of the loader's settings.
    LoaderSettings,
}

/// Why a turn was broken off. The state is poisoned after it.
#[derive(Clone, Copy, PartialEq, Eq)]
pub enum TurnError {
    /// One more of this counter was needed than there are.
    Exhausted { counter: Counter },
    NoMemory,
}

impl From<AllocError> for TurnError {
    ghost from_gives = { λ _ e. e ≡ TurnOutOfMemory };

    fn from(_: AllocError) -> Self {
        TurnError::NoMemory
    }
}

impl<T: Drop> From<AllocFailed<T>> for TurnError {
    ghost from_gives = { λ _ e. e ≡ TurnOutOfMemory };

    fn from(_: AllocFailed<T>) -> Self {
        TurnError::NoMemory
    }
}
