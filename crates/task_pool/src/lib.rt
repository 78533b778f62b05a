//! A host with threads: it reads its source in one, and answers each job in another, which it starts for the job and joins by its number.
#![tactic(auto)]

mod assignment;
mod crew;
mod employed;
mod expected;
mod host;
mod leave;
mod reading;
mod waiting;
mod worker;

pub use assignment::Assignment;
pub use crew::Finished;
pub use expected::{Expected, Token};
pub use host::ThreadedHost;
pub use leave::Leave;
pub use plain::NoMemory;
pub use waiting::Waiting;
pub use worker::{Promised, Report, StartsWorkers, Worker, start};
