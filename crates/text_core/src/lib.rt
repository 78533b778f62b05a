//! Positions, lines and edits of texts as the Language Server Protocol has them: columns in units of UTF-8, UTF-16 or UTF-32, lists of
//! changes, line endings, and the test that edits don't overlap.
#![tactic(auto)]

mod change;
mod columns;
mod completion;
mod completion_hash;
mod copies;
mod disjoint;
mod draft;
mod editing;
mod ends;
mod laws;
mod line_endings;
mod offsets;
mod position;
mod shared_text;
mod splices;
mod starts;
mod text_index;

pub use change::{CompletionEdit, ContentChange, TextEdit};
pub use completion::{HashedItem, PostfixMatch, RefMode, Relevance, ReturnType, TypeMatch};
pub use completion_hash::{completion_item_hash, equal_bytes_are_equal_items};
pub use disjoint::all_edits_are_disjoint;
pub use editing::{
    EditedDocument, apply_document_changes, apply_with_limit, edit_document, edit_with_steps,
};
pub use laws::{
    columns_stand_behind_their_units, lines_are_the_text, places_of_positions, positions_of_places,
    units_are_those_of_the_encodings,
};
pub use line_endings::{LineEndings, has_cr};
pub use plain::{NoMemory, Steps};
pub use position::{OffsetFault, Position, PositionEncoding, Range, WideEncoding};
pub use shared_text::SharedText;
pub use text_index::{LineIndex, TextIndex, offset, text_range};
