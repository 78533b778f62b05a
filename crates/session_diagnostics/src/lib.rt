//! Diagnostics of a session: the batches that ask for them, the lists that come and go, and what the client is told.
#![tactic(auto)]

mod batch;
mod checks;
mod lists;
mod publishing;
mod shown;
mod slicing;

pub use batch::start_batch;
pub use checks::take_news;
pub use lists::{clear_deleted, clear_file, take_lists, take_tests};
pub use publishing::{publish, publish_marked};
