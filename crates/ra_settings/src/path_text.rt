// The path that a text of a setting is.
ghost use Rattle.std.specs.Prelude.{◌≡◌, IfOk};
ghost use Rattle.ra_settings.specs.Paths.{resolve};

use docs_vfs::{EmptySegments, VfsPath};
use std::alloc::AllocError;

/// The path that a text is, taken from a base unless it begins with `/`.
pub(crate) fn resolve(base: &VfsPath, text: &str) -> Result<Option<VfsPath>, AllocError>
    ensures { IfOk result (λ path. path ≡ resolve base.now text.now) }
{
    base.resolve(text, EmptySegments::Refused)
}
