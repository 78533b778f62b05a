// The types of this crate as elements of lists: their clones are equal values, and `==` says whether two are equal.
ghost use Rattle.std.specs.Prelude.{◌≡◌};
ghost use Rattle.std.proofs.Common.{rules};
ghost use Rattle.text_core.specs.Same.{position_told, range_told};

use crate::change::{CompletionEdit, ContentChange, TextEdit};
use crate::line_endings::LineEndings;
use crate::position::{OffsetFault, Position, PositionEncoding, Range, WideEncoding};
use plain::{DecidableEq, ExactClone};

impl ExactClone for WideEncoding {
    ghost copies = { λ x y h. Prim.search rules };
}

impl ExactClone for PositionEncoding {
    ghost copies = { λ x y h. Prim.search rules };
}

impl ExactClone for Position {
    ghost copies = { λ x y h. Prim.search rules };
}

impl ExactClone for Range {
    ghost copies = { λ x y h. Prim.search rules };
}

impl ExactClone for OffsetFault {
    ghost copies = { λ x y h. Prim.search rules };
}

impl ExactClone for LineEndings {
    ghost copies = { λ x y h. Prim.search rules };
}

impl ExactClone for TextEdit {
    ghost copies = { λ x y h. Prim.search rules };
}

impl ExactClone for ContentChange {
    ghost copies = { λ x y h. Prim.search rules };
}

impl ExactClone for CompletionEdit {
    ghost copies = { λ x y h. Prim.search rules };
}

impl DecidableEq for Position {
    ghost decides = { position_told };
}

impl DecidableEq for Range {
    ghost decides = { range_told };
}
