//! What a session tells of its status, and what it asks the client to ask for anew.
#![tactic(auto)]

mod failing;
mod refreshing;
mod telling;
mod well;

pub use refreshing::refresh;
pub use telling::report_status;
