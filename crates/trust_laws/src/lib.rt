//! Laws of quiescent sessions since their last batch, without code: what a client is shown is what
//! this batch has brought, and all that it went by is as it was.
#![tactic(auto)]

mod trust;

pub use trust::{
    quiet_sessions_are_as_at_their_last_batch, quiet_sessions_show_the_present,
    quiet_sessions_show_what_the_last_batch_brought, runs_show_the_present,
};
