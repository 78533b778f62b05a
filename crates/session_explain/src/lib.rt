//! A record as people read it: for each turn of its session a line for each event that it took in, each message that it
//! wrote and each order that it gave.
#![tactic(auto)]

mod events;
mod explaining;
mod orders;
mod page;
mod transcript;

pub use explaining::explain;
pub use plain::NoMemory;
