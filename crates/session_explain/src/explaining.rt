// A record's session, turn by turn.
ghost use Rattle.std.specs.Prelude.{◌≡◌, false, Err, IsSome};
ghost use Rattle.session_port.specs.Record.{Rose};
ghost use Rattle.session_laws.specs.Meaning.{meaning_of};
ghost use Rattle.session_laws.specs.Run.{told_of};
ghost use Rattle.session_laws.specs.SessionError.TheVariants.{HostFault, WriteFault};
ghost use Rattle.session_replay.specs.declared.error.ReplayError.TheVariants.{Session};
ghost use Rattle.session_replay.specs.Beginning.{config_of};
ghost use Rattle.session_explain.specs.Explaining.{Explains, RanUnseen, WritesText};

use crate::events::write_event;
use crate::orders::write_order;
use crate::page::Page;
use crate::transcript::Transcript;
use analysis_host::Analysis;
use host_fakes::HostileHost;
use inline_host::RecordedCall;
use plain::{Items, NoMemory};
use session::SessionError;
use session_port::{Host, HostEvent, Sink};
use session_replay::{ReplayError, StartConfig, put_text, read_record, run_again};
use std::alloc::Global;

fn line_of_end(outcome: Result<(), ReplayError>) -> &'static str {
    match outcome {
        Ok(()) => "end exit",
        Err(ReplayError::Session(error)) => crate::page::name_of(error),
        Err(_) => "end",
    }
}

// The lines of a turn: its number, where it was written, the events that came before it, what it wrote and what it ordered.
fn add_turn(
    page: &mut Page,
    number: usize,
    events: &Page,
    messages: &[Page],
    orders: &Page,
) -> Result<(), NoMemory> {
    if let Some(lines) = messages.get(number) {
        page.begin("turn")?;
        page.number(number as u64)?;
        page.end()?;
        page.append(events.as_slice())?;
        page.append(lines.as_slice())?;
    } else {
        page.append(events.as_slice())?;
    }
    page.append(orders.as_slice())
}

fn lines_of(
    alloc: Global,
    calls: &[RecordedCall],
    messages: &[Page],
    outcome: Result<(), ReplayError>,
) -> Result<Page, NoMemory> {
    let mut page = Page::new(alloc);
    let mut events = Page::new(alloc);
    let mut number = 0;
    for call in calls {
        if let Some(event) = call.event() {
            write_event(&mut events, event)?;
        }
        if let Some(commands) = call.commands() {
            let mut orders = Page::new(alloc);
            for command in commands.as_slice() {
                write_order(&mut orders, command)?;
            }
            add_turn(&mut page, number, &events, messages, &orders)?;
            events = Page::new(alloc);
            number = number.saturating_add(1);
        }
    }
    add_turn(&mut page, number, &events, messages, &Page::new(alloc))?;
    page.begin(line_of_end(outcome))?;
    page.end()?;
    Ok(page)
}

// Runs the session of a record, and writes its lines by one turn.
fn explain_session<S: Sink, A: Analysis>(
    alloc: Global,
    begin: &StartConfig,
    events: Items<HostEvent>,
    sink: &mut S,
    analysis: &A,
) -> Result<(), ReplayError>
    requires begins { IsSome (config_of begin.now) }
    requires usable { S.poisoned sink.old ≡ false }
    ensures ran { RanUnseen (meaning_of A.decodes A.answer) begin.now events }
    ensures text { WritesText (S.turns sink.old) (S.turns sink.new) (Rose (S.faults sink.old) (S.faults sink.new)) result }
    ensures no_host { result ≡ Err (Session HostFault) → ⊥ }
    ensures write_fault { result ≡ Err (Session WriteFault) → Rose (S.faults sink.old) (S.faults sink.new) }
{
    let mut recorded = HostileHost::new(alloc, events);
    let mut transcript = Transcript::new(alloc);
    let outcome = run_again(alloc, begin, &mut recorded, &mut transcript, analysis);
    match lines_of(
        alloc,
        recorded.calls(),
        transcript.turns.as_slice(),
        outcome,
    ) {
        Ok(page) => put_text(page.as_slice(), sink),
        Err(_) => Err(ReplayError::Session(SessionError::NoMemory)),
    }
}

/// Reads a record from the host, up to its end, runs its session, and writes by one turn, for each turn of the session: the line
/// `turn` and its number, then a line for each event since the turn before, for each message that it wrote and for each
/// order. The last line says how the session ended.
pub fn explain<H: Host<A>, S: Sink, A: Analysis>(
    alloc: Global,
    host: &mut H,
    sink: &mut S,
    analysis: &A,
) -> Result<(), ReplayError>
    requires host_usable { H.poisoned host.old ≡ false }
    requires sink_usable { S.poisoned sink.old ≡ false }

    // A record is read, its session is run, and one text is written of it.
    ensures explains { Explains (meaning_of A.decodes A.answer) (told_of (H.calls host.old) (S.turns sink.old)) (told_of (H.calls host.new) (S.turns sink.new)) (Rose (H.faults host.old) (H.faults host.new)) (Rose (S.faults sink.old) (S.faults sink.new)) result }

    ensures host_fault { result ≡ Err (Session HostFault) → Rose (H.faults host.old) (H.faults host.new) }
    ensures write_fault { result ≡ Err (Session WriteFault) → Rose (S.faults sink.old) (S.faults sink.new) }
{
    match read_record(alloc, host) {
        Ok((begin, events)) => explain_session(alloc, &begin, events, sink, analysis),
        Err(error) => Err(error),
    }
}
