// Why a value is not written, or not read.
ghost use Rattle.std.specs.Prelude.{◌≡◌};
ghost use Rattle.record_codec.specs.declared.faults.EncodeFault.TheVariants.{NoMemory as EncodeMemory};
ghost use Rattle.record_codec.specs.declared.faults.DecodeFault.TheVariants.{NoMemory as DecodeMemory};

use std::alloc::{AllocError, AllocFailed};

/// Why a value is not written.
#[derive(Clone, Copy, Debug, PartialEq, Eq)]
pub enum EncodeFault {
    /// It has no spelling.
    Unrecordable,
    NoMemory,
}

/// Why no value is read.
#[derive(Clone, Copy, Debug, PartialEq, Eq)]
pub enum DecodeFault {
    /// The bytes don't begin with a spelling.
    Malformed,
    NoMemory,
}

impl From<AllocError> for EncodeFault {
    ghost from_gives = { λ _ e. e ≡ EncodeMemory };

    fn from(_: AllocError) -> Self {
        EncodeFault::NoMemory
    }
}

impl<T: Drop> From<AllocFailed<T>> for EncodeFault {
    ghost from_gives = { λ _ e. e ≡ EncodeMemory };

    fn from(_: AllocFailed<T>) -> Self {
        EncodeFault::NoMemory
    }
}

impl From<AllocError> for DecodeFault {
    ghost from_gives = { λ _ e. e ≡ DecodeMemory };

    fn from(_: AllocError) -> Self {
        DecodeFault::NoMemory
    }
}

impl<T: Drop> From<AllocFailed<T>> for DecodeFault {
    ghost from_gives = { λ _ e. e ≡ DecodeMemory };

    fn from(_: AllocFailed<T>) -> Self {
        DecodeFault::NoMemory
    }
}
