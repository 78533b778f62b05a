//! How the events of a host are spelled as bytes: a codec for each type of theirs, by which exactly the spellings of values are read.
#![tactic(auto)]

mod diagnostics;
mod events;
mod jobs;
mod leaves;
mod loading;
mod news;
mod recorded;
mod workspaces;

pub use recorded::{Recorded, decode_marked};
