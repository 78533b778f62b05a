//! Laws over whole sessions that are quiescent, without code: that the lists of turns tell whether one is, and what a
//! turn leaves that ends so.
#![tactic(auto)]

mod quiet;

pub use quiet::{
    nothing_changes_since_the_last_batch, quiescence_is_told_by_the_lists,
    quiescent_sessions_are_settled, quiet_turns_without_a_batch_change_nothing,
    what_files_leave_stands_behind_the_turn,
};
