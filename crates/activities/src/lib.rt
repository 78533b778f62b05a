//! What a session keeps of work that its host does beside its jobs: checks, the run of tests, discoveries of projects,
//! and priming. Each call answers what is to be told of it, to the client and to the host; none tells it by itself.
#![tactic(auto)]

mod activities;
mod check_names;
mod checks;
mod discovery;
mod laws;
mod priming;
mod scanning;
mod settings;
mod telling;
mod test_run;
mod work;

pub use activities::Activities;
pub use checks::{Checks, end_checks};
pub use discovery::Discovery;
pub use laws::{
    a_check_ends_under_the_title_that_it_began_with, a_loader_is_told_to_its_last_report,
    a_report_gives_way_to_the_next, a_run_of_tests_ends_once,
    a_run_of_tests_has_a_program_for_each_workspace, a_token_cancels_its_check,
    discoveries_never_fall_below_none, each_check_is_of_its_workspace, ids_are_distinct_and_rise,
    one_priming_runs, only_checks_that_are_set_restart,
};
pub use plain::NoMemory;
pub use priming::{PrimeMsg, Priming, keep_prime_msg};
pub use scanning::scans_told;
pub use telling::Telling;
pub use test_run::Tests;
pub use work::{graph_told, job_told};
