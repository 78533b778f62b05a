// The bytes that a host gives up to its end.
ghost use Rattle.std.specs.Prelude.{◌≡◌, ◌≤◌, ◌+◌, ◌++◌, length, false, IfOk, IfErr};
ghost use Rattle.session_port.specs.Record.{Rose};
ghost use Rattle.session_port.specs.Events.{event_bytes};
ghost use Rattle.host_fakes.specs.Script.{is_end};
ghost use Rattle.session_replay.specs.Gathering.{Gathers, IsPieceError, most_bytes};

use crate::error::ReplayError;
use analysis_host::Analysis;
use plain::Bytes;
use session::SessionError;
use session_port::{Counter, Host, HostError, HostEvent};
use std::alloc::Global;

/// The most bytes that are read of a record.
pub const MOST_BYTES: usize = 268_435_456;

// Adds the bytes of an event, where no more than are read come together, and answers whether it is the end.
fn add_event(bytes: &mut Vec<u8>, event: HostEvent) -> Result<bool, ReplayError>
    requires { length bytes.old.items ≤ most_bytes }
    ensures added { IfOk result (λ ended. (ended ≡ is_end event) × (bytes.new.items ≡ bytes.old.items ++ event_bytes event)) }
    ensures fits { IfOk result (λ _. length bytes.new.items ≤ most_bytes) }
    ensures err { IfErr result (λ e. (is_end event ≡ false) × IsPieceError (length bytes.old.items + length (event_bytes event)) e) }
{
    match event {
        HostEvent::Bytes(piece) => {
            let piece = piece.as_slice();
            if MOST_BYTES - bytes.len() < piece.len() {
                return Err(ReplayError::TooLong);
            }
            bytes.extend_from_slice(piece)?;
            Ok(false)
        }
        HostEvent::Ended => Ok(true),
        HostEvent::Tasks(_) => Ok(false),
        HostEvent::DeferredTask(_) => Ok(false),
        HostEvent::Vfs(_) => Ok(false),
        HostEvent::Flycheck(_) => Ok(false),
        HostEvent::TestResult(_) => Ok(false),
        HostEvent::DiscoverProject(_) => Ok(false),
        HostEvent::Timer(_) => Ok(false),
    }
}

/// All bytes up to the end. Other events are passed over, and nothing is ordered.
pub(crate) fn gather<H: Host<A>, A: Analysis>(
    alloc: Global,
    host: &mut H,
) -> Result<Bytes, ReplayError>
    requires usable { H.poisoned host.old ≡ false }
    ensures { Gathers (H.calls host.old) (H.calls host.new) (Rose (H.faults host.old) (H.faults host.new)) result }
{
    let mut bytes = Vec::new(alloc);
    for _ in 0..u64::MAX {
        let event = match host.next() {
            Ok(event) => event,
            Err(HostError::Failed) => return Err(ReplayError::Session(SessionError::HostFault)),
            Err(HostError::NoMemory) => return Err(ReplayError::Session(SessionError::NoMemory)),
        };
        match add_event(&mut bytes, event) {
            Ok(true) => return Ok(Bytes::from_vec(bytes)),
            Ok(false) => {}
            Err(error) => return Err(error),
        }
    }
    Err(ReplayError::Session(SessionError::Exhausted {
        counter: Counter::Turns,
    }))
}
