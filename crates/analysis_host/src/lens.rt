// What is known of a code lens.
use crate::file_places::FilePosition;
use plain::Text;
use text_core::Position;

/// What a lens counts.
#[derive(Clone, Copy, Debug, PartialEq, Eq, PartialOrd, Ord, Hash)]
pub enum LensKind {
    Impls,
    References,
}

/// What a lens that is to be resolved says of itself.
pub struct LensResolve {
    /// The version of the document that the lens was made for.
    pub version: i32,
    pub kind: LensKind,
    pub url: Text,
    pub position: Position,
}

impl Drop for LensResolve {
    fn drop(self) {
        let LensResolve {
            version: _,
            kind: _,
            url: _,
            position: _,
        } = self;
    }
}

/// A lens in its file.
#[derive(Clone, Copy, PartialEq, Eq)]
pub struct Annotation {
    pub start: u32,
    pub end: u32,
    pub kind: LensKind,
    pub pos: FilePosition,
}
