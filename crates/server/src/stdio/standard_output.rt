// A writer as a sink.
ghost use Rattle.std.specs.Prelude.{◌≡◌, ◌≤◌, false, nat_lt, None, Err, OnErr, OnOk, IfOk};
ghost use Rattle.std.specs.Io.KnownBytes.{Appends};
ghost use Rattle.session_port.specs.Record.{HasCause};
ghost use Rattle.server.specs.Streams.{BreaksOff};

use session_port::{HostError, Sink};
use std::io::{self, ErrorKind, Write};
use std::marker::Model;

/// Writes to a writer, such as standard output, and flushes it after each turn. After a failure it is poisoned, since a part
/// of a turn may stand there.
#[derive(Drop)]
pub struct StandardOutput<W: Write + Drop> {
    writer: W,
    faults: u64,
}

impl<W: Write + Drop> Model for StandardOutput<W> {
    ghost use Rattle.server.specs.Streams.{OutputData};

    ghost Value = { OutputData };

    ghost view = { λ s. record { written = W.contents s.writer; faults = s.faults } };
}

impl<W: Write + Drop> StandardOutput<W> {
    pub fn new(writer: W) -> Self
        ensures { result ≡ record { written = W.contents writer; faults = 0 } }
    {
        StandardOutput { writer, faults: 0 }
    }
}

/// Writes bytes to their end, again where a signal came in between. A write that takes nothing fails.
fn write_whole<W: Write>(writer: &mut W, bytes: &[u8]) -> io::Result<()>
    ensures whole { OnOk result (Appends (W.contents writer.old) (W.contents writer.new) bytes.now) }
    ensures broken { OnErr result (BreaksOff (W.contents writer.old) (W.contents writer.new) bytes.now) }
{
    let mut rest = bytes;
    'writing: for _ in 0..u64::MAX {
        if rest.is_empty() {
            return Ok(());
        }
        match writer.write(rest) {
            Ok(0) => return Err(io::Error::from(ErrorKind::WriteZero)),
            Ok(count) => rest = &rest[count..],
            Err(error) => {
                if error.kind() != ErrorKind::Interrupted {
                    return Err(error);
                }
            }
        }
    }
    Err(io::Error::from(ErrorKind::TimedOut))
}

/// Writes bytes to their end, and flushes them.
fn write_flushed<W: Write>(writer: &mut W, bytes: &[u8]) -> io::Result<()>
    ensures whole { OnOk result (Appends (W.contents writer.old) (W.contents writer.new) bytes.now) }
    ensures broken { OnErr result (BreaksOff (W.contents writer.old) (W.contents writer.new) bytes.now) }
{
    write_whole(writer, bytes)?;
    writer.flush()
}

impl<W: Write + Drop> Sink for StandardOutput<W> {
    ghost turns = { λ _. None };

    ghost faults = { λ s. s.faults };

    ghost poisoned = { λ s. nat_lt 0 s.faults };

    fn put_turn(&mut self, bytes: &[u8]) -> Result<(), HostError>
        requires usable { nat_lt 0 self.old.faults ≡ false }
        ensures usable { IfOk result (λ _. nat_lt 0 self.new.faults ≡ false) }
        ensures cause { HasCause self.old.faults self.new.faults result }

        // What the writer holds, if it tells.
        ensures written { OnOk result (Appends self.old.written self.new.written bytes.now) }
        ensures broken { OnErr result (BreaksOff self.old.written self.new.written bytes.now) }
        ensures failed { OnErr result (result ≡ Err HostError.Failed) }
    {
        if write_flushed(&mut self.writer, bytes).is_err() {
            self.faults = self.faults.saturating_add(1);
            return Err(HostError::Failed);
        }
        Ok(())
    }
}
