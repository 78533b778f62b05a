//! How a session renews its workspaces: fetches, switches, build data, macros and crate data.
#![tactic(auto)]

mod building;
mod checking;
mod crates;
mod fetching;
mod loading;
mod registering;
mod switching;

pub use building::{rebuild_macros_if, start_runs, take_build};
pub use checking::{resume_all, take_check};
pub use fetching::{begin_fetches, reload_if, start_fetch, take_fetch};
pub use loading::take_macros;
pub use registering::register_saves;
pub use switching::switch_workspaces;
