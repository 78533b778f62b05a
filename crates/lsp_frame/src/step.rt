// What a message is to a handshake.
use crate::message::{RequestId, Response};
use plain::Json;

/// What a message of the handshake asks for.
#[derive(Drop)]
pub enum Step {
    /// The request of this id begins the handshake, with these params.
    Initialize(RequestId, Json),
    /// A request came too early, and this is its answer.
    Refuse(Response),
    Ignore,
    /// The client has read the answer to its `initialize`, and the session begins.
    Initialized,
    /// The client leaves.
    Exit,
}
