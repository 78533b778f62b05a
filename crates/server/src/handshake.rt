// How a session begins: the handshake with a client, over a host and a sink.
mod negotiation;
mod opening;
mod replies;

pub use opening::{Opening, initialize};
