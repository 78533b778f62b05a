//! The decisions of a reload: what becomes of the workspaces, their crate graph, which changes of files ask for a
//! fetch, and what is told where something failed.
#![tactic(auto)]

mod ask;
mod errors;
mod graph;
mod laws;
mod macro_paths;
mod names;
mod places;
mod refresh;
mod switch;
mod switching;
mod watching;

pub use ask::crate_roots;
pub use errors::{fetch_build_data_error, fetch_workspace_error};
pub use graph::ws_to_crate_graph;
pub use laws::{
    alike_names_are_equivalent, build_data_is_joined_to_its_version,
    kept_crates_are_numbered_in_order, kept_dependencies_are_renumbered,
    same_workspaces_are_equal_but_for_builds,
};
pub use lsp_types::Watcher;
pub use names::eq_ignore_underscore;
pub use plain::NoMemory;
pub use refresh::should_refresh_for_change;
pub use switch::Switch;
pub use switching::switch_workspaces;
pub use watching::watchers;
