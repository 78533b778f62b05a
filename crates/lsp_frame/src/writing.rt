// Messages as they are written.
ghost use Rattle.std.specs.Prelude.{◌≡◌, ◌++◌, Some, IfOk, OnOk, OnErr};
ghost use Rattle.lsp_frame.specs.Rules.{message_of};
ghost use Rattle.lsp_frame.specs.Written.{header_for, frame_for, body_of, AreWritable};

use crate::body::Body;
use crate::encoding::encode;
use crate::message::Message;
use itoa::Buffer;
use plain::NoMemory;
use std::alloc::{AllocError, Global};

// The room for a header.
const HEADER_ROOM: usize = 40;

/// The header of a body of this many bytes.
#[tactic(auto, unfolding(crate::specs::Written::header_for))]
fn header(alloc: Global, size: usize) -> Result<Vec<u8>, AllocError>
    ensures { IfOk result (λ h. h.items ≡ header_for size) }
{
    let mut digits = Buffer::new();
    let mut header = Vec::with_capacity(alloc, HEADER_ROOM)?;
    header.extend_from_slice(b"Content-Length: ")?;
    header.extend_from_slice(digits.format(size).as_bytes())?;
    header.extend_from_slice(b"\r\n\r\n")?;
    Ok(header)
}

/// Appends one frame.
fn write_frame(alloc: Global, body: &Body, into: &mut Vec<u8>) -> Result<(), AllocError>
    ensures ok { OnOk result (into.new.items ≡ into.old.items ++ frame_for body.now) }
    ensures err { OnErr result (into.new.items ≡ into.old.items) }
{
    let len = body.len().ok_or(AllocError)?;
    let header = header(alloc, len)?;
    into.reserve(header.len().saturating_add(len))?;
    body.append_to(&header, into)
}

/// Appends the frame of a message. Its values go into the body as they are, and the body is copied once.
pub fn write_message(message: Message, into: &mut Vec<u8>) -> Result<(), NoMemory>
    requires { AreWritable message }
    ensures ok { OnOk result (into.new.items ≡ into.old.items ++ frame_for (body_of message)) }
    ensures reads_back { OnOk result (message_of (body_of message) ≡ Some message) }
    ensures err { OnErr result (into.new.items ≡ into.old.items) }
{
    let alloc = *into.allocator();
    let body = encode(alloc, message)?;
    write_frame(alloc, &body, into)
}
