//! The status of a session: whether all is well, and what is to be told.
#![tactic(auto)]

mod draft;
mod health;
mod laws;
mod linked;
mod session_facts;
mod status;
mod workspace_facts;

pub use health::Health;
pub use laws::the_same_statuses_are_equal;
pub use plain::NoMemory;
pub use status::{Status, StatusInput, current_status, status_with};
