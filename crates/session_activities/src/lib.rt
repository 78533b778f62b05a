//! What a session tells of work beside its jobs, and the checks and runs of tests that this work is: the steps of
//! `activities`, with what they announce told to the client and the host.
#![tactic(auto)]

mod checks;
mod telling;
mod tests;

pub use checks::{
    cancel_check, cancel_checks, check_file_if, renew_checks_if, restart_checks_if, take_progress,
};
pub use telling::{tell, tell_all};
pub use tests::{abort_tests, hear_tests, run_tests};
