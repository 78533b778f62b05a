// Changes of texts.
use crate::position::Range;
use plain::Text;

/// A text to put in the place of a range.
#[derive(Clone)]
pub struct TextEdit {
    pub range: Range,
    pub new_text: Text,
}

impl Drop for TextEdit {
    fn drop(self) {
        let TextEdit {
            range: _,
            new_text: _,
        } = self;
    }
}

/// A new text for a range of a document, or for all of it.
#[derive(Clone)]
pub struct ContentChange {
    pub range: Option<Range>,
    pub text: Text,
}

impl Drop for ContentChange {
    fn drop(self) {
        let ContentChange { range: _, text: _ } = self;
    }
}

/// What a completion puts into the text.
#[derive(Clone, Copy, PartialEq, Eq)]
pub enum CompletionEdit {
    None,
    Edit(Range),
    /// One range where the text is inserted, and one where it replaces what stands there.
    InsertAndReplace { insert: Range, replace: Range },
}
