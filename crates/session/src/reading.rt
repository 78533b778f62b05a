// What the bytes held give next, and the bytes that come.
ghost use Rattle.std.specs.Prelude.{◌≡◌, ◌<◌, ◌^◌, ◌+◌, ◌++◌, length, false, IfOk, IfErr, OnOk};
ghost use Rattle.session.specs.Reading.{IsNext, IsFeedError};
ghost use Rattle.session_laws.specs.Course.{is_exit};
ghost use Rattle.session_laws.specs.Run.{fed_bytes};

use lsp_frame::{FrameFault, FrameReader, Message};
use notify::notification_is;
use plain::Bytes;
use session_state::{Counter, SessionError};
use std::alloc::AllocError;

/// What the bytes held give next.
#[derive(Drop)]
pub enum Coming {
    Message(Message),
    /// The notification `exit`.
    Exit,
    BadFrame { at: u64 },
    BadMessage { at: u64 },
    /// No whole frame is held.
    Waits,
}

fn is_exit(message: &Message) -> bool
    ensures { result ≡ is_exit message.now }
{
    match message {
        Message::Notification(notification) => notification_is(notification, "exit"),
        _ => false,
    }
}

/// Takes the next message out, where a whole frame is held. After what is bad the reader gives nothing more.
pub fn next_message(reader: &mut FrameReader) -> Result<Coming, AllocError>
    ensures { IfOk result (IsNext reader.old reader.new) }
{
    match reader.next() {
        Ok(None) => Ok(Coming::Waits),
        Ok(Some(message)) => {
            if is_exit(&message) {
                Ok(Coming::Exit)
            } else {
                Ok(Coming::Message(message))
            }
        }
        Err(FrameFault::BadFrame { at }) => Ok(Coming::BadFrame { at }),
        Err(FrameFault::BadMessage { at }) => Ok(Coming::BadMessage { at }),
        Err(FrameFault::NoMemory) => Err(AllocError),
    }
}

/// Feeds the reader, where that many bytes can still be counted.
pub fn feed(reader: &mut FrameReader, bytes: Bytes) -> Result<(), SessionError>
    requires sound { reader.old.failed ≡ false }
    ensures ok { OnOk result (reader.new ≡ record { place = reader.old.place; held = reader.old.held ++ bytes; failed = false }) }
    ensures fits { OnOk result (fed_bytes reader.old + length bytes < 2 ^ 64) }
    ensures err { IfErr result (IsFeedError (fed_bytes reader.old) (length bytes)) }
{
    let room = u64::MAX - reader.taken();
    if bytes.len() as u64 > room {
        return Err(SessionError::Exhausted {
            counter: Counter::Bytes,
        });
    }
    reader.feed(bytes)?;
    Ok(())
}
