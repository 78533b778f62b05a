//! A small analysis: it finds the name under a position, the brackets that match and those that don't, names of functions
//! that come twice and the root files of crates, and nothing more.
#![tactic(auto)]

mod analysis;
mod brackets;
mod defined;
mod findings;
mod hover;
mod laws;
mod matches;
mod matching_brace;
mod names;
mod offsets;
mod roots;
mod unmatched;
mod workers;

pub use analysis::SmallAnalysis;
pub use laws::{brackets_match_in_pairs, names_are_maximal_runs, rows_have_their_answers};
pub use plain::NoMemory;
