//! The desk of a session: the requests that wait for an answer, the jobs that work on them, and the reply table that
//! says what each gets.
#![tactic(auto)]

mod replies;
mod scene;
mod state;

pub use plain::NoMemory;
pub use replies::{
    already_pending, canceled_by_client, fault_reply, finished_reply, invalid_params,
    outdated_reply, shut_already, unknown_request,
};
pub use scene::Present;
pub use state::{BuildEnd, Desk, FetchEnd, LoadEnd, WorkEnd};
