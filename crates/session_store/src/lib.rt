//! What a session knows, and what its subjects share: its snapshot, its jobs and requests, log lines, and what its settings and files say.
#![tactic(auto)]

mod asking;
mod known;
mod now;
mod orders;
mod quiescence;
mod settings;
mod state;

pub use known::{file_of, is_loaded_file, is_unknown, is_unknown_file};
pub use orders::{log, log_if, order};
pub use quiescence::is_quiescent;
pub use settings::{
    builds_scripts, checks_all_on_save, checks_saves, checks_workspaces, client_watches, discovers,
    excludes, goes_by_folders, loads_macros, may_fetch, watched_names,
};
pub use state::Store;
