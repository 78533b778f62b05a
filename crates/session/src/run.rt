// The loop: an input, its turn, what is written and what is ordered.
ghost use Rattle.std.specs.Prelude.{◌≡◌, ◌≤◌, [], ◌∷◌, false, OnOk};
ghost use Rattle.std.specs.FinMap as map;
ghost use Rattle.lsp_frame.specs.Frames.{cut_of};
ghost use Rattle.lsp_frame.specs.declared.frame.Cut.TheVariants.{NeedMore};
ghost use Rattle.session_port.specs.Record.{HasCause, Rose, after_ok, added, took};
ghost use Rattle.session_laws.specs.Headline.{IsAnswered, EndsByCause, IsComplete};
ghost use Rattle.session_laws.specs.Meaning.{meaning_of};
ghost use Rattle.session_laws.specs.Machine.{step};
ghost use Rattle.session_port.specs.Refines.{Refines};
ghost use Rattle.session_laws.specs.Run.{IsRun, empty_reader, told_of, turn_error_of};
ghost use Rattle.session.specs.Looping.{Advances, AdvancesByEvent, RunsOn, TurnDone};
ghost use Rattle.session_laws.specs.State.{fresh};
ghost use Rattle.trust_laws.specs.Resting.{IsTrusted};
ghost use Rattle.ra_config.specs.Config.{ConfigData};

use crate::bringing::{Brought, brought_by};
use crate::reading::{Coming, feed, next_message};
use analysis_host::Analysis;
use lsp_frame::FrameReader;
use plain::Items;
use ra_config::Config;
use session_port::{Command, Host, HostError, Sink};
use session_state::{Event, GlobalState, Input, SessionError, TurnError, TurnOut};
use std::alloc::Global;

// Whether the run goes on.
#[derive(Clone, Copy, PartialEq, Eq)]
enum Turned {
    Going,
    Stopped,
}

fn turn_error(error: TurnError) -> SessionError
    ensures { result ≡ turn_error_of error }
{
    match error {
        TurnError::Exhausted { counter } => SessionError::Exhausted { counter },
        TurnError::NoMemory => SessionError::NoMemory,
    }
}

// The machine's part of a turn.
fn take_input<A: Analysis>(
    input: Input,
    state: &mut GlobalState,
    analysis: &A,
    out: &mut TurnOut,
) -> Result<(), TurnError>
    ensures { Refines result (step (meaning_of A.decodes A.answer) input (record { state = state.old; out = out.old })) state.new out.new }
{
    match input {
        Input::Start => state.start(out),
        Input::Next(event) => state.handle_event(event, analysis, out),
    }
}

// The turn of one input.
fn run_turn<H: Host<A>, S: Sink, A: Analysis>(
    alloc: Global,
    input: Input,
    state: &mut GlobalState,
    host: &mut H,
    sink: &mut S,
    analysis: &A,
) -> Result<(), SessionError>
    requires host_usable { H.poisoned host.old ≡ false }
    requires sink_usable { S.poisoned sink.old ≡ false }
    requires last_job { H.last_job host.old ≡ state.old.desk.last_job }
    ensures host_usable { OnOk result (H.poisoned host.new ≡ false) }
    ensures sink_usable { OnOk result (S.poisoned sink.new ≡ false) }
    ensures turn { TurnDone (meaning_of A.decodes A.answer) input state.old state.new (told_of (H.calls host.old) (S.turns sink.old)) (told_of (H.calls host.new) (S.turns sink.new)) (H.out host.old) (H.out host.new) result }
    ensures last_job { OnOk result (H.last_job host.new ≡ state.new.desk.last_job) }
    ensures honest_stays { H.honest host.new ≡ H.honest host.old }
    ensures origin_stays { H.origin host.new ≡ H.origin host.old }
    ensures host_later { H.faults host.old ≤ H.faults host.new }
    ensures host_fault { result ≡ Err SessionError.HostFault → Rose (H.faults host.old) (H.faults host.new) }
    ensures sink_later { S.faults sink.old ≤ S.faults sink.new }
    ensures write_fault { result ≡ Err SessionError.WriteFault → Rose (S.faults sink.old) (S.faults sink.new) }
{
    let mut out = TurnOut::new(alloc);
    if let Err(error) = take_input(input, state, analysis, &mut out) {
        return Err(turn_error(error));
    }
    let bytes = out.take_bytes(alloc)?;
    match sink.put_turn(&bytes) {
        Ok(()) => {}
        Err(HostError::Failed) => return Err(SessionError::WriteFault),
        Err(HostError::NoMemory) => return Err(SessionError::NoMemory),
    }
    match host.order(out.into_commands()) {
        Ok(()) => Ok(()),
        Err(HostError::Failed) => Err(SessionError::HostFault),
        Err(HostError::NoMemory) => Err(SessionError::NoMemory),
    }
}

// The last order.
fn stop<H: Host<A>, A: Analysis>(alloc: Global, host: &mut H) -> Result<(), HostError>
    requires host_usable { H.poisoned host.old ≡ false }
    ensures calls { H.calls host.new ≡ after_ok result (λ _. added (H.calls host.old) (took (Command.Stop ∷ []))) (H.calls host.old) }
    ensures honest_stays { H.honest host.new ≡ H.honest host.old }
    ensures origin_stays { H.origin host.new ≡ H.origin host.old }
    ensures cause { HasCause (H.faults host.old) (H.faults host.new) result }
{
    let mut commands = Items::new(alloc);
    commands.push(Command::Stop)?;
    host.order(commands)
}

// What the host gives next, where no whole frame is held.
fn take_event<H: Host<A>, S: Sink, A: Analysis>(
    alloc: Global,
    reader: &mut FrameReader,
    state: &mut GlobalState,
    host: &mut H,
    sink: &mut S,
    analysis: &A,
) -> Result<(), SessionError>
    requires host_usable { H.poisoned host.old ≡ false }
    requires sink_usable { S.poisoned sink.old ≡ false }
    requires waits { cut_of reader.old.held ≡ NeedMore }
    requires sound { reader.old.failed ≡ false }
    requires last_job { H.last_job host.old ≡ state.old.desk.last_job }
    ensures host_usable { OnOk result (H.poisoned host.new ≡ false) }
    ensures sink_usable { OnOk result (S.poisoned sink.new ≡ false) }
    ensures turn { AdvancesByEvent (meaning_of A.decodes A.answer) state.old state.new reader.old reader.new (told_of (H.calls host.old) (S.turns sink.old)) (told_of (H.calls host.new) (S.turns sink.new)) (H.honest host.old) (H.out host.old) (H.out host.new) result }
    ensures last_job { OnOk result (H.last_job host.new ≡ state.new.desk.last_job) }
    ensures honest_stays { H.honest host.new ≡ H.honest host.old }
    ensures origin_stays { H.origin host.new ≡ H.origin host.old }
    ensures host_later { H.faults host.old ≤ H.faults host.new }
    ensures host_fault { result ≡ Err SessionError.HostFault → Rose (H.faults host.old) (H.faults host.new) }
    ensures sink_later { S.faults sink.old ≤ S.faults sink.new }
    ensures write_fault { result ≡ Err SessionError.WriteFault → Rose (S.faults sink.old) (S.faults sink.new) }
{
    let event = match host.next() {
        Ok(event) => event,
        Err(HostError::Failed) => return Err(SessionError::HostFault),
        Err(HostError::NoMemory) => return Err(SessionError::NoMemory),
    };
    match brought_by(alloc, event) {
        Brought::Input(input) => run_turn(alloc, input, state, host, sink, analysis),
        Brought::Fed(bytes) => feed(reader, bytes),
        Brought::Ended => Err(SessionError::ClientExited),
    }
}

// The next input and its turn, or the next event.
fn advance<H: Host<A>, S: Sink, A: Analysis>(
    alloc: Global,
    reader: &mut FrameReader,
    state: &mut GlobalState,
    host: &mut H,
    sink: &mut S,
    analysis: &A,
) -> Result<Turned, SessionError>
    requires host_usable { H.poisoned host.old ≡ false }
    requires sink_usable { S.poisoned sink.old ≡ false }
    requires last_job { H.last_job host.old ≡ state.old.desk.last_job }
    ensures host_usable { result ≡ Ok Turned.Going → H.poisoned host.new ≡ false }
    ensures sink_usable { result ≡ Ok Turned.Going → S.poisoned sink.new ≡ false }
    ensures turn { Advances (meaning_of A.decodes A.answer) state.old state.new reader.old reader.new (told_of (H.calls host.old) (S.turns sink.old)) (told_of (H.calls host.new) (S.turns sink.new)) (H.honest host.old) (H.out host.old) (H.out host.new) result }
    ensures last_job { result ≡ Ok Turned.Going → H.last_job host.new ≡ state.new.desk.last_job }
    ensures honest_stays { H.honest host.new ≡ H.honest host.old }
    ensures origin_stays { H.origin host.new ≡ H.origin host.old }
    ensures host_later { H.faults host.old ≤ H.faults host.new }
    ensures host_fault { result ≡ Err SessionError.HostFault → Rose (H.faults host.old) (H.faults host.new) }
    ensures sink_later { S.faults sink.old ≤ S.faults sink.new }
    ensures write_fault { result ≡ Err SessionError.WriteFault → Rose (S.faults sink.old) (S.faults sink.new) }
{
    match next_message(reader)? {
        Coming::Message(message) => {
            let input = Input::Next(Event::Lsp(message));
            match run_turn(alloc, input, state, host, sink, analysis) {
                Ok(()) => Ok(Turned::Going),
                Err(error) => Err(error),
            }
        }
        Coming::Exit => match stop(alloc, host) {
            Ok(()) => Ok(Turned::Stopped),
            Err(HostError::Failed) => Err(SessionError::HostFault),
            Err(HostError::NoMemory) => Err(SessionError::NoMemory),
        },
        Coming::BadFrame { at } => Err(SessionError::BadFrame { at }),
        Coming::BadMessage { at } => Err(SessionError::BadMessage { at }),
        Coming::Waits => match take_event(alloc, reader, state, host, sink, analysis) {
            Ok(()) => Ok(Turned::Going),
            Err(error) => Err(error),
        },
    }
}

// Turns until `exit`, the end of the events or an error, after the first one.
fn run_on<H: Host<A>, S: Sink, A: Analysis>(
    alloc: Global,
    reader: &mut FrameReader,
    state: &mut GlobalState,
    host: &mut H,
    sink: &mut S,
    analysis: &A,
) -> Result<(), SessionError>
    requires host_usable { H.poisoned host.old ≡ false }
    requires sink_usable { S.poisoned sink.old ≡ false }
    requires last_job { H.last_job host.old ≡ state.old.desk.last_job }
    ensures run { RunsOn (meaning_of A.decodes A.answer) state.old reader.old (told_of (H.calls host.old) (S.turns sink.old)) (told_of (H.calls host.new) (S.turns sink.new)) (H.honest host.old) (H.out host.old) result }
    ensures origin_stays { H.origin host.new ≡ H.origin host.old }
    ensures host_later { H.faults host.old ≤ H.faults host.new }
    ensures host_fault { result ≡ Err SessionError.HostFault → Rose (H.faults host.old) (H.faults host.new) }
    ensures sink_later { S.faults sink.old ≤ S.faults sink.new }
    ensures write_fault { result ≡ Err SessionError.WriteFault → Rose (S.faults sink.old) (S.faults sink.new) }
{
    'inputs: loop {
        match advance(alloc, reader, state, host, sink, analysis) {
            Ok(Turned::Going) => {}
            Ok(Turned::Stopped) => return Ok(()),
            Err(error) => return Err(error),
        }
    }
}

// The first turn, and all others. The state is one before any turn.
fn run_all<H: Host<A>, S: Sink, A: Analysis>(
    alloc: Global,
    reader: &mut FrameReader,
    state: &mut GlobalState,
    host: &mut H,
    sink: &mut S,
    analysis: &A,
) -> Result<(), SessionError>
    requires idle { H.out host.old ≡ map.empty }
    requires host_usable { H.poisoned host.old ≡ false }
    requires sink_usable { S.poisoned sink.old ≡ false }
    requires last_job { H.last_job host.old ≡ state.old.desk.last_job }
    ensures run { (config : ConfigData) → state.old ≡ fresh config → IsRun (meaning_of A.decodes A.answer) config reader.old (told_of (H.calls host.old) (S.turns sink.old)) (told_of (H.calls host.new) (S.turns sink.new)) (H.honest host.old) result }
    ensures origin_stays { H.origin host.new ≡ H.origin host.old }
    ensures host_fault { result ≡ Err SessionError.HostFault → Rose (H.faults host.old) (H.faults host.new) }
    ensures write_fault { result ≡ Err SessionError.WriteFault → Rose (S.faults sink.old) (S.faults sink.new) }
{
    match run_turn(alloc, Input::Start, state, host, sink, analysis) {
        Ok(()) => run_on(alloc, reader, state, host, sink, analysis),
        Err(error) => Err(error),
    }
}

// The same, over a state of its own.
fn run_from<H: Host<A>, S: Sink, A: Analysis>(
    alloc: Global,
    config: Config,
    mut reader: FrameReader,
    host: &mut H,
    sink: &mut S,
    analysis: &A,
) -> Result<(), SessionError>
    requires idle { H.out host.old ≡ map.empty }
    requires unused { H.last_job host.old ≡ 0 }
    requires host_usable { H.poisoned host.old ≡ false }
    requires sink_usable { S.poisoned sink.old ≡ false }
    ensures run { IsRun (meaning_of A.decodes A.answer) config reader (told_of (H.calls host.old) (S.turns sink.old)) (told_of (H.calls host.new) (S.turns sink.new)) (H.honest host.old) result }
    ensures origin_stays { H.origin host.new ≡ H.origin host.old }
    ensures host_fault { result ≡ Err SessionError.HostFault → Rose (H.faults host.old) (H.faults host.new) }
    ensures write_fault { result ≡ Err SessionError.WriteFault → Rose (S.faults sink.old) (S.faults sink.new) }
{
    let mut state = GlobalState::new(alloc, config)?;
    let end = run_all(alloc, &mut reader, &mut state, host, sink, analysis);
    // Dropped by a call, a state is not spelled out here: that is what the proof of this function would cost.
    drop(state);
    end
}

/// A whole run, after bytes that a reader holds: turns until `exit`, the end of the events or an error. Messages
/// that the reader holds whole are handled before the first event.
pub fn main_loop_from<H: Host<A>, S: Sink, A: Analysis>(
    alloc: Global,
    config: Config,
    reader: FrameReader,
    host: &mut H,
    sink: &mut S,
    analysis: &A,
) -> Result<(), SessionError>
    // No job was handed to the host before.
    requires idle { H.out host.old ≡ map.empty }
    requires unused { H.last_job host.old ≡ 0 }
    requires host_usable { H.poisoned host.old ≡ false }
    requires sink_usable { S.poisoned sink.old ≡ false }

    // The turns are the session machine's, over the inputs of the bytes held and of the host's events.
    ensures run { IsRun (meaning_of A.decodes A.answer) config reader (told_of (H.calls host.old) (S.turns sink.old)) (told_of (H.calls host.new) (S.turns sink.new)) (H.honest host.old) result }

    // What ended the run is what ends the course of the events given.
    ensures end { EndsByCause reader (H.calls host.old) (H.calls host.new) result }

    // Over a good input up to `exit` it ends well, unless memory or the numbers of a counter run out.
    ensures complete { IsComplete (meaning_of A.decodes A.answer) config reader (H.calls host.old) (H.calls host.new) (Rose (H.faults host.old) (H.faults host.new)) (Rose (S.faults sink.old) (S.faults sink.new)) result }

    // Each request gets the response of its row and no other; between turns exactly one job holds each pending request.
    ensures headline { IsAnswered (meaning_of A.decodes A.answer) config reader (told_of (H.calls host.old) (S.turns sink.old)) (told_of (H.calls host.new) (S.turns sink.new)) (H.honest host.old) result }

    // Wherever the session rests, the diagnostics that are shown are those of the present.
    ensures quiet { IsTrusted (meaning_of A.decodes A.answer) config reader (told_of (H.calls host.old) (S.turns sink.old)) (told_of (H.calls host.new) (S.turns sink.new)) (H.honest host.old) }

    // What no call of the host changes is as it was.
    ensures origin_stays { H.origin host.new ≡ H.origin host.old }

    ensures host_fault { result ≡ Err SessionError.HostFault → Rose (H.faults host.old) (H.faults host.new) }
    ensures write_fault { result ≡ Err SessionError.WriteFault → Rose (S.faults sink.old) (S.faults sink.new) }
{
    run_from(alloc, config, reader, host, sink, analysis)
}

/// A whole run: turns until `exit`, the end of the events or an error.
pub fn main_loop<H: Host<A>, S: Sink, A: Analysis>(
    alloc: Global,
    config: Config,
    host: &mut H,
    sink: &mut S,
    analysis: &A,
) -> Result<(), SessionError>
    // No job was handed to the host before.
    requires idle { H.out host.old ≡ map.empty }
    requires unused { H.last_job host.old ≡ 0 }
    requires host_usable { H.poisoned host.old ≡ false }
    requires sink_usable { S.poisoned sink.old ≡ false }

    // The turns are the session machine's, over the inputs of the host's events.
    ensures run { IsRun (meaning_of A.decodes A.answer) config empty_reader (told_of (H.calls host.old) (S.turns sink.old)) (told_of (H.calls host.new) (S.turns sink.new)) (H.honest host.old) result }

    // What ended the run is what ends the course of the events given.
    ensures end { EndsByCause empty_reader (H.calls host.old) (H.calls host.new) result }

    // Over a good input up to `exit` it ends well, unless memory or the numbers of a counter run out.
    ensures complete { IsComplete (meaning_of A.decodes A.answer) config empty_reader (H.calls host.old) (H.calls host.new) (Rose (H.faults host.old) (H.faults host.new)) (Rose (S.faults sink.old) (S.faults sink.new)) result }

    // Each request gets the response of its row and no other; between turns exactly one job holds each pending request.
    ensures headline { IsAnswered (meaning_of A.decodes A.answer) config empty_reader (told_of (H.calls host.old) (S.turns sink.old)) (told_of (H.calls host.new) (S.turns sink.new)) (H.honest host.old) result }

    // Wherever the session rests, the diagnostics that are shown are those of the present.
    ensures quiet { IsTrusted (meaning_of A.decodes A.answer) config empty_reader (told_of (H.calls host.old) (S.turns sink.old)) (told_of (H.calls host.new) (S.turns sink.new)) (H.honest host.old) }

    // What no call of the host changes is as it was.
    ensures origin_stays { H.origin host.new ≡ H.origin host.old }

    ensures host_fault { result ≡ Err SessionError.HostFault → Rose (H.faults host.old) (H.faults host.new) }
    ensures write_fault { result ≡ Err SessionError.WriteFault → Rose (S.faults sink.old) (S.faults sink.new) }
{
    main_loop_from(alloc, config, FrameReader::new(alloc), host, sink, analysis)
}
