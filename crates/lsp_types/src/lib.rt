//! Positions, ranges, edits, diagnostics, watchers and the URLs of documents as the Language Server Protocol has them in
//! JSON: read of params, and written into messages.
#![tactic(auto)]

mod diagnostic;
mod diagnostic_json;
mod documents;
mod edits;
mod members;
mod params;
mod places;
mod reading;
mod to_json;
mod watcher;

pub use diagnostic::{Diagnostic, Related};
pub use documents::{document_members, take_document_uri, take_uri};
pub use edits::read_edits;
pub use members::put_some;
pub use params::{has_positions, position_of, positions_of, range_of, uri_of};
pub use plain::NoMemory;
pub use reading::{read_position, read_range};
pub use to_json::{ToJson, list_json};
pub use watcher::Watcher;
