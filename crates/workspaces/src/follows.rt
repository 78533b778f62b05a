// What follows a switch, and why one isn't made.
ghost use Rattle.std.specs.Prelude.{◌≡◌};
ghost use Rattle.workspaces.specs.declared.follows.SwitchFault.TheVariants.{NoMemory as OutOfMemory};

use plain::{Items, Text};
use std::alloc::{AllocError, AllocFailed};

/// What follows a switch.
#[derive(Drop)]
pub enum Follows {
    /// Nothing.
    Nothing,
    /// Crate data is built anew.
    CrateData,
    /// The workspaces are new, and wait for their build data. The warnings of outdated toolchains are shown.
    Wait {
        msrv: Items<Text>,
    },
    /// The workspaces are new or have build data: watchers, the loader's settings, roots and crate data follow.
    GoOn {
        /// The warnings of outdated toolchains that are shown.
        msrv: Items<Text>,
        /// The version of the loader's settings.
        loader_version: u32,
        /// Whether there were no workspaces before.
        initial: bool,
    },
}

/// Why a switch isn't made.
#[derive(Clone, Copy, Debug, PartialEq, Eq)]
pub enum SwitchFault {
    /// The loader's settings had the last version that there is.
    Exhausted,
    NoMemory,
}

impl From<AllocError> for SwitchFault {
    ghost from_gives = { λ _ e. e ≡ OutOfMemory };

    fn from(_: AllocError) -> Self {
        SwitchFault::NoMemory
    }
}

impl<T: Drop> From<AllocFailed<T>> for SwitchFault {
    ghost from_gives = { λ _ e. e ≡ OutOfMemory };

    fn from(_: AllocFailed<T>) -> Self {
        SwitchFault::NoMemory
    }
}
