//! Laws over the desk of a session, without code: each of its steps is a row of the reply table, and rows
//! keep it so that each request that waits is held by one job for each of its parts that is not reported.
//! A changed body of the desk rechecks nothing here.
#![tactic(auto)]

mod laws;

pub use laws::{
    one_part_is_held_by_one_job, rows_answer_or_hand_over, rows_keep_requests_held, steps_are_rows,
};
