//! A session's state and its turns: what an event changes, what is answered, and which jobs are handed over.
#![tactic(auto)]

mod global_state;
mod messages;
mod turns;

pub use global_state::GlobalState;
pub use plain::NoMemory;
pub use session_model::{Counter, Event, Input, News, SessionError, TurnError, WorkProgress};
pub use session_port::TurnOut;
