//! What a session has agreed upon with its client, and the requests of its own that wait for the client's answer.
#![tactic(auto)]

mod answers;
mod errors;
mod handler;
mod ids;
mod state;
mod work;

pub use handler::ReqHandler;
pub use ids::id_text;
pub use plain::NoMemory;
pub use state::Client;
pub use work::WorkProgress;
