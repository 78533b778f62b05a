//! Which checks restart for a saved file, and with what.
#![tactic(auto)]

mod affected;
mod alone;
mod among;
mod dependents;
mod laws;
mod restarts;
mod walk;

pub use affected::affected_roots;
pub use laws::{
    what_is_affected_has_a_chain_of_dependencies, what_restarts_follows_from_what_is_affected,
};
pub use plain::NoMemory;
pub use restarts::check_restarts;
