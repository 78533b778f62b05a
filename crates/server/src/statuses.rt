// Statuses of the program.
ghost use Rattle.std.specs.Prelude.{◌≡◌};
ghost use Rattle.server.specs.Status.{status_of, status_of_generate, status_of_replay, status_text};

use session::SessionError;
use session_port::HostError;
use session_replay::ReplayError;

/// The status where the words are none that the program knows.
pub const BAD_WORDS: u8 = 2;

/// The status where the input has ended without `exit`.
pub(crate) const CLIENT_EXITED: u8 = 3;

/// The status where the output can't be written.
pub(crate) const WRITE_FAULT: u8 = 7;

/// The status where memory has run out.
pub(crate) const NO_MEMORY: u8 = 9;

/// The status that a session ends with.
pub fn status_of(outcome: Result<(), SessionError>) -> u8
    ensures { result ≡ status_of outcome }
{
    match outcome {
        Ok(()) => 0,
        Err(SessionError::ClientExited) => CLIENT_EXITED,
        Err(SessionError::BadFrame { .. }) => 4,
        Err(SessionError::BadMessage { .. }) => 5,
        Err(SessionError::HostFault) => 6,
        Err(SessionError::WriteFault) => WRITE_FAULT,
        Err(SessionError::Exhausted { .. }) => 8,
        Err(SessionError::NoMemory) => NO_MEMORY,
    }
}

/// The status that a session ends with which is recorded, or run again.
pub fn status_of_replay(outcome: Result<(), ReplayError>) -> u8
    ensures { result ≡ status_of_replay outcome }
{
    match outcome {
        Ok(()) => 0,
        Err(ReplayError::Session(error)) => status_of(Err(error)),
        Err(ReplayError::BadRecord) => 10,
        Err(ReplayError::Unrecordable) => 11,
        Err(ReplayError::TooLong) => 12,
    }
}

/// The status that a session ends with which is generated: where the output failed, or memory has run out.
pub(crate) fn status_of_generate(outcome: Result<(), HostError>) -> u8
    ensures { result ≡ status_of_generate outcome }
{
    match outcome {
        Ok(()) => 0,
        Err(HostError::Failed) => WRITE_FAULT,
        Err(HostError::NoMemory) => NO_MEMORY,
    }
}

/// What the program says of its status on standard error: nothing where all is well.
pub fn status_text(status: u8) -> &'static str
    ensures { result.now ≡ status_text status }
{
    match status {
        0 => "",
        BAD_WORDS => "bad words",
        CLIENT_EXITED => "client exited without proper shutdown sequence",
        4 => "bad frame",
        5 => "bad message",
        6 => "the host failed",
        WRITE_FAULT => "the output failed",
        8 => "counter exhausted",
        NO_MEMORY => "out of memory",
        _ => "failed",
    }
}
