// What a world keeps of a file.
ghost use Rattle.std.specs.Prelude.{◌≡◌};
ghost use Rattle.std.proofs.Common.{rules};

use plain::ExactClone;
use text_core::{LineEndings, SharedText};

/// A file's text, and how its lines ended before it was normalised. Its clones share the text and the index of its lines.
#[derive(Clone)]
pub struct TextEntry {
    pub text: SharedText,
    pub endings: LineEndings,
}

impl Drop for TextEntry {
    fn drop(self) {
        let TextEntry {
            text: _,
            endings: _,
        } = self;
    }
}

impl ExactClone for TextEntry {
    ghost copies = { λ x y h. Prim.search rules };
}
