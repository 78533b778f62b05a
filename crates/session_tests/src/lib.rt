//! Tests of a session, of what no stored session shows: the state by its public calls, runs in which calls fail or counters are near their
//! end, signals, and errors as they are shown.
#![tactic(auto)]

#[cfg(test)]
mod errors;
#[cfg(test)]
mod run_tests;
#[cfg(test)]
mod state_tests;
#[cfg(test)]
mod streams;
