//! A session: messages and results in, one turn for each, responses and jobs out.
#![tactic(auto)]

mod bringing;
mod reading;
mod run;

pub use plain::NoMemory;
pub use reading::{Coming, feed, next_message};
pub use run::{main_loop, main_loop_from};
pub use session_state::{Counter, Event, GlobalState, SessionError, TurnError, TurnOut};
