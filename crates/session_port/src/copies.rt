// Copies of what may be there.
ghost use Rattle.std.specs.Prelude.{◌≡◌, IfOk};

use plain::ExactClone;
use std::alloc::AllocError;

/// A copy of a value, where there is one.
pub(crate) fn copy_of<T: ExactClone>(value: &Option<T>) -> Result<Option<T>, AllocError>
    ensures { IfOk result (λ copy. copy ≡ value.now) }
{
    value.clone()
}
