// A record that is run.
ghost use Rattle.std.specs.Prelude.{◌≡◌, false, Err, IsSome, IfOk};
ghost use Rattle.session_port.specs.Record.{Rose};
ghost use Rattle.session_laws.specs.Meaning.{meaning_of};
ghost use Rattle.session_laws.specs.Run.{told_of};
ghost use Rattle.session_laws.specs.SessionError.TheVariants.{HostFault, WriteFault};
ghost use Rattle.session_replay.specs.declared.error.ReplayError.TheVariants.{Session};
ghost use Rattle.session_replay.specs.Beginning.{config_of};
ghost use Rattle.host_fakes.specs.Script.{new_hostile};
ghost use Rattle.session_replay.specs.Replaying.{ReadsRecord, RunsAgain, Replays};

use crate::beginning::config_of;
use crate::error::ReplayError;
use crate::gathering::gather;
use analysis_host::Analysis;
use host_fakes::HostileHost;
use plain::Items;
use session::{SessionError, main_loop};
use session_port::{Host, HostEvent, Sink};
use session_record::{RecordFault, StartConfig, decode};
use std::alloc::Global;

/// Runs the session of a record: one that begins so, over a new host that gives the record's events and then ends.
pub fn run_again<S: Sink, A: Analysis>(
    alloc: Global,
    begin: &StartConfig,
    host: &mut HostileHost,
    sink: &mut S,
    analysis: &A,
) -> Result<(), ReplayError>
    requires begins { IsSome (config_of begin.now) }
    requires new { host.old ≡ new_hostile host.old.events }
    requires usable { S.poisoned sink.old ≡ false }
    ensures runs { RunsAgain (meaning_of A.decodes A.answer) begin.now host.old.events host.new.calls (S.turns sink.old) (S.turns sink.new) (Rose (S.faults sink.old) (S.faults sink.new)) result }
    ensures no_host { result ≡ Err (Session HostFault) → ⊥ }
    ensures write_fault { result ≡ Err (Session WriteFault) → Rose (S.faults sink.old) (S.faults sink.new) }
{
    let config = match config_of(alloc, begin) {
        Ok(Some(config)) => config,
        Ok(None) => return Err(ReplayError::BadRecord),
        Err(_) => return Err(ReplayError::Session(SessionError::NoMemory)),
    };
    match main_loop(alloc, config, host, sink, analysis) {
        Ok(()) => Ok(()),
        Err(error) => Err(ReplayError::Session(error)),
    }
}

/// Reads a record from the host, up to its end: how its session begins, and the session's events.
pub fn read_record<H: Host<A>, A: Analysis>(
    alloc: Global,
    host: &mut H,
) -> Result<(StartConfig, Items<HostEvent>), ReplayError>
    requires usable { H.poisoned host.old ≡ false }
    ensures reads { ReadsRecord (H.calls host.old) (H.calls host.new) (Rose (H.faults host.old) (H.faults host.new)) result }
    ensures begins { IfOk result (λ session. IsSome (config_of session.0)) }
    ensures host_fault { result ≡ Err (Session HostFault) → Rose (H.faults host.old) (H.faults host.new) }
{
    let bytes = match gather(alloc, host) {
        Ok(bytes) => bytes,
        Err(error) => return Err(error),
    };
    match decode(alloc, bytes.as_slice()) {
        Ok(session) => Ok(session),
        Err(RecordFault::NoMemory) => Err(ReplayError::Session(SessionError::NoMemory)),
        Err(RecordFault::BadRecord | RecordFault::Unrecordable { .. }) => Err(
            ReplayError::BadRecord,
        ),
    }
}

/// Reads a record from the host, up to its end, and runs its session over the sink. No job is done: the results are in the
/// record.
pub fn replay<H: Host<A>, S: Sink, A: Analysis>(
    alloc: Global,
    host: &mut H,
    sink: &mut S,
    analysis: &A,
) -> Result<(), ReplayError>
    requires host_usable { H.poisoned host.old ≡ false }
    requires sink_usable { S.poisoned sink.old ≡ false }

    // All bytes are taken up to the end. Where they are a record, its session is run over the sink; else nothing is written.
    ensures replays { Replays (meaning_of A.decodes A.answer) (told_of (H.calls host.old) (S.turns sink.old)) (told_of (H.calls host.new) (S.turns sink.new)) (Rose (H.faults host.old) (H.faults host.new)) (Rose (S.faults sink.old) (S.faults sink.new)) result }

    ensures host_fault { result ≡ Err (Session HostFault) → Rose (H.faults host.old) (H.faults host.new) }
    ensures write_fault { result ≡ Err (Session WriteFault) → Rose (S.faults sink.old) (S.faults sink.new) }
{
    match read_record(alloc, host) {
        Ok((begin, events)) => {
            let mut recorded = HostileHost::new(alloc, events);
            run_again(alloc, &begin, &mut recorded, sink, analysis)
        }
        Err(error) => Err(error),
    }
}
