// A text that others share, with the index of its lines.
ghost use Rattle.std.specs.Prelude.{◌≡◌, ◌<◌, ◌^◌, false, length, IfOk};
ghost use Rattle.std.specs.Arc.{arc_value};
ghost use Rattle.text_core.specs.LineEnds.{has_cr};

use crate::line_endings::has_cr;
use crate::text_index::TextIndex;
use plain::{ArcText, ExactClone, Text};
use std::alloc::{AllocError, Global};
use std::marker::Model;
use std::sync::Arc;

/// A text whose clones share its bytes and its index, which is built once.
pub struct SharedText {
    index: Arc<TextIndex, Global>,
    /// False where it is known that no CR stands in the text.
    may_have_cr: bool,
}

impl Drop for SharedText {
    fn drop(self) {
        let SharedText {
            index: _,
            may_have_cr: _,
        } = self;
    }
}

impl Model for SharedText {
    ghost use Rattle.std.specs.Prelude.{◌≡◌, ℕ, List, false};
    ghost use Rattle.std.specs.Arc.{arc_value};
    ghost use Rattle.text_core.specs.LineEnds.{has_cr};

    ghost Value = { List ℕ };

    ghost view = { λ t. arc_value t.index };

    ghost invariant = { λ t. t.may_have_cr ≡ false → has_cr (arc_value t.index) ≡ false };
}

impl SharedText {
    pub fn new(alloc: Global, text: Text) -> Result<SharedText, AllocError>
        requires { length text < 2 ^ 32 }
        ensures { IfOk result (λ shared. shared ≡ text) }
    {
        let may_have_cr = has_cr(text.as_str());
        SharedText::from_index(alloc, TextIndex::from_text(alloc, text)?, may_have_cr)
    }

    /// The same of a text that others share. It isn't searched for a CR.
    pub fn from_shared(alloc: Global, text: ArcText) -> Result<SharedText, AllocError>
        requires { length text < 2 ^ 32 }
        ensures { IfOk result (λ shared. shared ≡ text) }
    {
        SharedText::from_index(alloc, TextIndex::from_shared(alloc, text)?, true)
    }

    /// The text, shared, without its index.
    pub fn share_text(&self) -> Result<ArcText, AllocError>
        ensures value { IfOk result (λ text. text ≡ self.now) }
        ensures within { length self.now < 2 ^ 32 }
    {
        self.index.share_text()
    }

    /// The text of an index, and false where it is known that no CR stands in it.
    pub fn from_index(
        alloc: Global,
        index: TextIndex,
        may_have_cr: bool,
    ) -> Result<SharedText, AllocError>
        requires { may_have_cr ≡ false → has_cr index ≡ false }
        ensures { IfOk result (λ shared. shared ≡ index) }
    {
        Ok(SharedText {
            index: Arc::new(alloc, index)?,
            may_have_cr,
        })
    }

    /// False where it is known that no CR stands in the text.
    pub fn may_have_cr(&self) -> bool
        ensures { result ≡ false → has_cr self.now ≡ false }
    {
        self.may_have_cr
    }

    /// The text and its index, shared.
    pub fn share(&self) -> Result<Arc<TextIndex, Global>, AllocError>
        ensures { IfOk result (λ index. arc_value index ≡ self.now) }
    {
        Arc::try_clone(&self.index)
    }

    pub fn index(&self) -> &TextIndex
        ensures { result.now ≡ self.now }
    {
        &self.index
    }

    pub fn as_str(&self) -> &str
        ensures { result.now ≡ self.now }
    {
        self.index().text()
    }
}

impl Clone for SharedText {
    ghost is_clone = { λ text copy. copy ≡ text };

    fn clone(&self) -> Result<SharedText, AllocError> {
        Ok(SharedText {
            index: Arc::try_clone(&self.index)?,
            may_have_cr: self.may_have_cr,
        })
    }
}

impl ExactClone for SharedText {
    ghost copies = { λ x y h. h };
}
