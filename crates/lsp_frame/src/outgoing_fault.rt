// Why a request is not sent.
ghost use Rattle.std.specs.Prelude.{◌≡◌};
ghost use Rattle.lsp_frame.specs.declared.outgoing_fault.OutgoingFault.TheVariants.{NoMemory as OutOfMemory};

use std::alloc::AllocError;

/// Why a request got no number.
#[derive(Clone, Copy, Debug, PartialEq, Eq)]
pub enum OutgoingFault {
    /// All numbers were given.
    Exhausted,
    NoMemory,
}

impl From<AllocError> for OutgoingFault {
    ghost from_gives = { λ _ e. e ≡ OutOfMemory };

    fn from(_: AllocError) -> Self {
        OutgoingFault::NoMemory
    }
}
