//! The text that a request of the Language Server Protocol speaks of, and the faults by which it is refused.
#![tactic(auto)]

mod files;

pub use files::{malformed, nothing, refusal, text_of};
pub use plain::NoMemory;
