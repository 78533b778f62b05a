use std::alloc::AllocError;

/// Why nothing is read of a notification.
#[derive(Clone, Copy, Debug, PartialEq, Eq)]
pub enum NoticeFault {
    /// Its method is known, and its params aren't plain or lack what the method needs.
    Malformed,
    /// The allocator had no memory.
    NoMemory,
}

impl From<AllocError> for NoticeFault {
    ghost use Rattle.std.specs.Prelude.{◌≡◌};
    ghost use Rattle.notify.specs.declared.fault.NoticeFault.TheVariants.{NoMemory};

    ghost from_gives = { λ _ e. e ≡ NoMemory };

    fn from(_: AllocError) -> NoticeFault {
        NoticeFault::NoMemory
    }
}
