//! What a query is asked on and what it answers: worlds of texts and their frozen snapshots, the analysis
//! behind a trait, and how a query is told to stop.
#![tactic(auto)]

mod analysis;
mod annotations;
mod ask;
mod cancel;
mod file_places;
mod from_proto;
mod host;
mod lens;
mod path_map;
mod proto_fault;
mod server_info;
mod snapshot;
mod text_entry;
mod versions;
mod world;

pub use analysis::Analysis;
pub use annotations::annotation;
pub use ask::{Answer, Ask, Outcome};
pub use cancel::{Cancel, Never};
pub use file_places::{FilePosition, FileRange, file_position, file_range};
pub use from_proto::{AssistKind, assist_kind};
pub use host::{AnalysisHost, Change, FileChange, WorldFault};
pub use lens::{Annotation, LensKind, LensResolve};
pub use method_table::RowId;
pub use path_map::{PathMap, TextTree};
pub use plain::NoMemory;
pub use proto_fault::ProtoFault;
pub use server_info::ServerInfo;
pub use snapshot::{GlobalStateSnapshot, SnapshotParts};
pub use text_core::SharedText;
pub use text_entry::TextEntry;
pub use versions::Versions;
pub use world::World;
