ghost use Rattle.std.specs.Prelude.{◌≡◌, ◌↔◌, [], length, IsTrue, IfOk, IsUtf8};

use crate::NoMemory;
use crate::text::Text;
use std::alloc::Global;
use std::marker::Model;
use std::sync::Arc;

/// A text whose clones share it.
pub struct ArcText {
    text: Arc<Text, Global>,
}

impl Drop for ArcText {
    fn drop(self) {
        let ArcText { text: _ } = self;
    }
}

impl Model for ArcText {
    ghost use Rattle.std.specs.Arc.{arc_value};
    ghost use Rattle.std.specs.Prelude.{ℕ, List};

    ghost Value = { List ℕ };

    ghost view = { λ t. arc_value t.text };
}

impl ArcText {
    pub fn new(alloc: Global, text: Text) -> Result<ArcText, NoMemory>
        ensures { IfOk result (λ shared. shared ≡ text) }
    {
        Ok(ArcText {
            text: Arc::new(alloc, text)?,
        })
    }

    pub fn as_str(&self) -> &str
        ensures value { result.now ≡ self.now }
        ensures utf8 { IsUtf8 self.now }
    {
        let text: &Text = &self.text;
        text.as_str()
    }

    pub fn len(&self) -> usize
        ensures { result ≡ length self.now }
    {
        self.as_str().len()
    }

    pub fn is_empty(&self) -> bool
        ensures { IsTrue result ↔ (self.now ≡ []) }
    {
        self.as_str().is_empty()
    }

    /// The text, moved out where nothing else shares it, and copied otherwise.
    pub fn into_text(self) -> Result<Text, NoMemory>
        ensures { IfOk result (λ text. text ≡ self) }
    {
        let ArcText { text } = self;
        Arc::unwrap_or_clone(text)
    }
}

impl Clone for ArcText {
    ghost is_clone = { λ shared copy. copy ≡ shared };

    fn clone(&self) -> Result<ArcText, NoMemory> {
        Ok(ArcText {
            text: Arc::try_clone(&self.text)?,
        })
    }
}
