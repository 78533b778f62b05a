//! The host that runs everything on one thread, and what every host stands on: the jobs out by their numbers, the orders
//! that wait for their answers, a record of calls, and what a job comes to.
#![tactic(auto)]

mod framed_source;
mod inline_host;
mod jobs_out;
mod numbered_jobs;
mod orders;
mod recorded_call;
mod results;

pub use inline_host::InlineHost;
pub use numbered_jobs::NumberedJobs;
pub use orders::{keep_orders, next_answer};
pub use plain::NoMemory;
pub use recorded_call::{RecordedCall, record_event};
pub use results::result_of;
