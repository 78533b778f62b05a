//! Messages of the Language Server Protocol, and the frames of its base protocol, however a stream is cut. The requests
//! of the server's own that wait for the client's answer. And how a client and a server begin: `initialize`, its answer,
//! and `initialized`.
#![tactic(auto)]

mod body;
mod cutting;
mod encoding;
mod fault;
mod frame;
mod handshake;
mod header;
mod incoming;
mod laws;
mod message;
mod outgoing;
mod outgoing_fault;
mod outgoing_laws;
mod pieces;
mod reader;
mod reading;
mod step;
mod writing;

pub use cutting::{HEADER_LIMIT, cut, cut_at, read_head};
pub use fault::FrameFault;
pub use frame::{Cut, Head};
pub use handshake::Handshake;
pub use header::fields_are_lines;
pub use incoming::{Incoming, Registered, pending_stays_distinct};
pub use laws::{any_cutting, frames_end, frames_go_on, judged_frames_stay, written_frames_are_cut};
pub use message::{Message, Notification, Request, RequestId, Response, ResponseError};
pub use outgoing::Outgoing;
pub use outgoing_fault::OutgoingFault;
pub use outgoing_laws::numbers_are_given_once;
pub use pieces::{Reading, read_pieces};
pub use plain::NoMemory;
pub use reader::FrameReader;
pub use step::Step;
pub use writing::write_message;
