// What a reader of frames answers in place of a message.
use thiserror::Error;

/// Why no message comes.
#[derive(Debug, Drop, Error)]
pub enum FrameFault {
    /// What begins at this byte of the stream is no frame.
    #[error("bad frame at byte {at}")]
    BadFrame { at: u64 },
    /// The body of the frame that begins at this byte of the stream is no message.
    #[error("bad message at byte {at}")]
    BadMessage { at: u64 },
    /// There was no memory for the message.
    #[error("out of memory")]
    NoMemory,
}
