// The handshake over a host and a sink.
ghost use Rattle.std.specs.Prelude.{◌≡◌, ◌≤◌, ◌<◌, ◌^◌, [], List, Option, ℕ, false, OnOk, IfErr};
ghost use Rattle.std.specs.FinMap as map;
ghost use Rattle.lsp_frame.specs.Frames.{cut_of};
ghost use Rattle.lsp_frame.specs.Written.{AreWritable};
ghost use Rattle.lsp_frame.specs.declared.frame.Cut.TheVariants.{NeedMore};
ghost use Rattle.lsp_frame.specs.declared.message.Message.TheVariants.{Response as ResponseMessage};
ghost use Rattle.session_port.specs.Record.{Rose, after_ok, added, took};
ghost use Rattle.session_laws.specs.Run.{fed_bytes, told_of};
ghost use Rattle.server.specs.Opening.{IsHostError, Opens, reply_bytes};
ghost use Rattle.server.specs.Stages.{Setup};
ghost use Rattle.server.specs.Talking.{TalkAdvances, TalkAdvancesByEvent, IsInStep, IsReplied, IsWriteError, first_talk, opening_of};

use crate::handshake::negotiation::{Answer, Negotiation};
use analysis_host::Analysis;
use lsp_frame::{FrameReader, Message, Response, write_message};
use plain::Items;
use ra_config::Config;
use session::{Coming, Counter, SessionError, feed, next_message};
use session_port::{Host, HostError, HostEvent, Sink};
use std::alloc::Global;

/// How a handshake ends well.
#[derive(Drop)]
pub enum Opening {
    /// The session begins with these settings, behind what the reader holds.
    Begun { config: Config, reader: FrameReader },
    /// The client left by `exit`.
    Left,
}

/// A handshake: what was read, what is waited for, and how many events came.
#[derive(Drop)]
struct Talk {
    reader: FrameReader,
    negotiation: Negotiation,
    events: u64,
}

/// Whether the handshake goes on.
#[derive(Drop)]
enum Turned {
    Going,
    Started(Config),
    Gone,
}

impl Talk {
    fn new(alloc: Global) -> Talk
        ensures { result ≡ first_talk }
    {
        Talk {
            reader: FrameReader::new(alloc),
            negotiation: Negotiation::new(alloc),
            events: 0,
        }
    }
}

// Writes a reply.
fn put_reply<S: Sink>(alloc: Global, response: Response, sink: &mut S) -> Result<(), SessionError>
    requires writable { AreWritable (ResponseMessage response) }
    requires sink_usable { S.poisoned sink.old ≡ false }
    ensures sink_usable { OnOk result (S.poisoned sink.new ≡ false) }
    ensures turns { S.turns sink.new ≡ after_ok result (λ _. added (S.turns sink.old) (reply_bytes response)) (S.turns sink.old) }
    ensures err { IfErr result IsWriteError }
    ensures sink_later { S.faults sink.old ≤ S.faults sink.new }
    ensures write_fault { result ≡ Err SessionError.WriteFault → Rose (S.faults sink.old) (S.faults sink.new) }
{
    let mut bytes = Vec::new(alloc);
    write_message(Message::Response(response), &mut bytes)?;
    match sink.put_turn(&bytes) {
        Ok(()) => Ok(()),
        Err(HostError::Failed) => Err(SessionError::WriteFault),
        Err(HostError::NoMemory) => Err(SessionError::NoMemory),
    }
}

// Hands on what was written: the host takes an empty list of commands, as behind a turn.
fn hand_on<H: Host<A>, A: Analysis>(alloc: Global, host: &mut H) -> Result<(), SessionError>
    requires host_usable { H.poisoned host.old ≡ false }
    ensures host_usable { OnOk result (H.poisoned host.new ≡ false) }
    ensures out { OnOk result (H.out host.new ≡ H.out host.old) }
    ensures calls { H.calls host.new ≡ after_ok result (λ _. added (H.calls host.old) (took [])) (H.calls host.old) }
    ensures last_job { OnOk result (H.last_job host.new ≡ H.last_job host.old) }
    ensures err { IfErr result IsHostError }
    ensures honest_stays { H.honest host.new ≡ H.honest host.old }
    ensures host_later { H.faults host.old ≤ H.faults host.new }
    ensures host_fault { result ≡ Err SessionError.HostFault → Rose (H.faults host.old) (H.faults host.new) }
{
    match host.order(Items::new(alloc)) {
        Ok(()) => Ok(()),
        Err(HostError::Failed) => Err(SessionError::HostFault),
        Err(HostError::NoMemory) => Err(SessionError::NoMemory),
    }
}

// Writes a reply and hands it on.
fn reply<H: Host<A>, S: Sink, A: Analysis>(
    alloc: Global,
    response: Response,
    host: &mut H,
    sink: &mut S,
) -> Result<(), SessionError>
    requires writable { AreWritable (ResponseMessage response) }
    requires host_usable { H.poisoned host.old ≡ false }
    requires sink_usable { S.poisoned sink.old ≡ false }
    ensures host_usable { OnOk result (H.poisoned host.new ≡ false) }
    ensures sink_usable { OnOk result (S.poisoned sink.new ≡ false) }
    ensures out { OnOk result (H.out host.new ≡ H.out host.old) }
    ensures told { IsReplied response (told_of (H.calls host.old) (S.turns sink.old)) (told_of (H.calls host.new) (S.turns sink.new)) result }
    ensures last_job { OnOk result (H.last_job host.new ≡ H.last_job host.old) }
    ensures honest_stays { H.honest host.new ≡ H.honest host.old }
    ensures host_later { H.faults host.old ≤ H.faults host.new }
    ensures host_fault { result ≡ Err SessionError.HostFault → Rose (H.faults host.old) (H.faults host.new) }
    ensures sink_later { S.faults sink.old ≤ S.faults sink.new }
    ensures write_fault { result ≡ Err SessionError.WriteFault → Rose (S.faults sink.old) (S.faults sink.new) }
{
    match put_reply(alloc, response, sink) {
        Ok(()) => hand_on(alloc, host),
        Err(error) => Err(error),
    }
}

// What the host gives next, where no whole frame is held. What is no bytes is passed over.
fn take_event<H: Host<A>, A: Analysis>(talk: &mut Talk, host: &mut H) -> Result<(), SessionError>
    requires host_usable { H.poisoned host.old ≡ false }
    requires idle { H.out host.old ≡ map.empty }
    requires in_step { IsInStep talk.old.negotiation }
    requires waits { cut_of talk.old.reader.held ≡ NeedMore }
    requires sound { talk.old.reader.failed ≡ false }
    requires fits { fed_bytes talk.old.reader < 2 ^ 64 }
    ensures host_usable { OnOk result (H.poisoned host.new ≡ false) }
    ensures idle { OnOk result (H.out host.new ≡ map.empty) }
    ensures event { (setup : Setup) (turns : Option (List (List ℕ))) → TalkAdvancesByEvent setup talk.old talk.new (told_of (H.calls host.old) turns) (told_of (H.calls host.new) turns) result }
    ensures last_job { H.last_job host.new ≡ H.last_job host.old }
    ensures honest_stays { H.honest host.new ≡ H.honest host.old }
    ensures host_later { H.faults host.old ≤ H.faults host.new }
    ensures host_fault { result ≡ Err SessionError.HostFault → Rose (H.faults host.old) (H.faults host.new) }
    ensures no_write { result ≡ Err SessionError.WriteFault → ⊥ }
{
    if talk.events == u64::MAX {
        return Err(SessionError::Exhausted {
            counter: Counter::Turns,
        });
    }
    let event = match host.next() {
        Ok(event) => event,
        Err(HostError::Failed) => return Err(SessionError::HostFault),
        Err(HostError::NoMemory) => return Err(SessionError::NoMemory),
    };
    talk.events += 1;
    match event {
        HostEvent::Ended => Err(SessionError::ClientExited),
        HostEvent::Tasks(_) => Ok(()),
        HostEvent::Vfs(_) => Ok(()),
        HostEvent::Flycheck(_) => Ok(()),
        HostEvent::TestResult(_) => Ok(()),
        HostEvent::DiscoverProject(_) => Ok(()),
        HostEvent::DeferredTask(_) => Ok(()),
        HostEvent::Timer(_) => Ok(()),
        HostEvent::Bytes(bytes) => feed(&mut talk.reader, bytes),
    }
}

// The next message and its answer, or the next event.
fn advance<H: Host<A>, S: Sink, A: Analysis>(
    alloc: Global,
    threads: u32,
    talk: &mut Talk,
    host: &mut H,
    sink: &mut S,
) -> Result<Turned, SessionError>
    requires host_usable { H.poisoned host.old ≡ false }
    requires sink_usable { S.poisoned sink.old ≡ false }
    requires idle { H.out host.old ≡ map.empty }
    requires in_step { IsInStep talk.old.negotiation }
    requires fits { fed_bytes talk.old.reader < 2 ^ 64 }
    ensures host_usable { OnOk result (H.poisoned host.new ≡ false) }
    ensures sink_usable { OnOk result (S.poisoned sink.new ≡ false) }
    ensures idle { OnOk result (H.out host.new ≡ map.empty) }
    ensures turn { let setup : Setup = record { threads = threads; info = A.server_info } in TalkAdvances setup talk.old talk.new (told_of (H.calls host.old) (S.turns sink.old)) (told_of (H.calls host.new) (S.turns sink.new)) result }
    ensures last_job { OnOk result (H.last_job host.new ≡ H.last_job host.old) }
    ensures honest_stays { H.honest host.new ≡ H.honest host.old }
    ensures host_later { H.faults host.old ≤ H.faults host.new }
    ensures host_fault { result ≡ Err SessionError.HostFault → Rose (H.faults host.old) (H.faults host.new) }
    ensures sink_later { S.faults sink.old ≤ S.faults sink.new }
    ensures write_fault { result ≡ Err SessionError.WriteFault → Rose (S.faults sink.old) (S.faults sink.new) }
{
    match next_message(&mut talk.reader)? {
        Coming::Message(message) => match talk.negotiation.take::<A>(alloc, threads, message)? {
            Answer::Nothing => Ok(Turned::Going),
            Answer::Reply(response) => match reply(alloc, response, host, sink) {
                Ok(()) => Ok(Turned::Going),
                Err(error) => Err(error),
            },
            Answer::Begins(config) => Ok(Turned::Started(config)),
        },
        Coming::Exit => Ok(Turned::Gone),
        Coming::BadFrame { at } => Err(SessionError::BadFrame { at }),
        Coming::BadMessage { at } => Err(SessionError::BadMessage { at }),
        Coming::Waits => match take_event(talk, host) {
            Ok(()) => Ok(Turned::Going),
            Err(error) => Err(error),
        },
    }
}

// Messages until `initialized`, whose settings come of it, or `exit`, of which nothing comes.
fn talk_on<H: Host<A>, S: Sink, A: Analysis>(
    alloc: Global,
    threads: u32,
    talk: &mut Talk,
    host: &mut H,
    sink: &mut S,
) -> Result<Option<Config>, SessionError>
    requires first { talk.old ≡ first_talk }
    requires idle { H.out host.old ≡ map.empty }
    requires host_usable { H.poisoned host.old ≡ false }
    requires sink_usable { S.poisoned sink.old ≡ false }
    ensures opens { let setup : Setup = record { threads = threads; info = A.server_info } in Opens setup (told_of (H.calls host.old) (S.turns sink.old)) (told_of (H.calls host.new) (S.turns sink.new)) (opening_of talk.new.reader result) }
    ensures idle { OnOk result (H.out host.new ≡ map.empty) }
    ensures last_job { OnOk result (H.last_job host.new ≡ H.last_job host.old) }
    ensures honest_stays { H.honest host.new ≡ H.honest host.old }
    ensures host_usable { OnOk result (H.poisoned host.new ≡ false) }
    ensures sink_usable { OnOk result (S.poisoned sink.new ≡ false) }
    ensures host_later { H.faults host.old ≤ H.faults host.new }
    ensures host_fault { result ≡ Err SessionError.HostFault → Rose (H.faults host.old) (H.faults host.new) }
    ensures sink_later { S.faults sink.old ≤ S.faults sink.new }
    ensures write_fault { result ≡ Err SessionError.WriteFault → Rose (S.faults sink.old) (S.faults sink.new) }
{
    'messages: loop {
        match advance(alloc, threads, talk, host, sink) {
            Ok(Turned::Going) => {}
            Ok(Turned::Started(config)) => return Ok(Some(config)),
            Ok(Turned::Gone) => return Ok(None),
            Err(error) => return Err(error),
        }
    }
}

/// The handshake with a client: from the first message to `initialized` or `exit`, with so many threads in the
/// settings. Each reply is one turn of the sink, behind which the host takes an empty list of commands.
pub fn initialize<H: Host<A>, S: Sink, A: Analysis>(
    alloc: Global,
    threads: u32,
    host: &mut H,
    sink: &mut S,
) -> Result<Opening, SessionError>
    // No job was handed to the host before.
    requires idle { H.out host.old ≡ map.empty }
    requires host_usable { H.poisoned host.old ≡ false }
    requires sink_usable { S.poisoned sink.old ≡ false }

    // Each message is the handshake's step, over the inputs of the host's events; each reply is written before the next
    // event is asked for; and what ended it is its result.
    ensures opens { let setup : Setup = record { threads = threads; info = A.server_info } in Opens setup (told_of (H.calls host.old) (S.turns sink.old)) (told_of (H.calls host.new) (S.turns sink.new)) result }

    // A session can begin on the same host and sink.
    ensures idle { OnOk result (H.out host.new ≡ map.empty) }
    ensures last_job { OnOk result (H.last_job host.new ≡ H.last_job host.old) }
    ensures honest_stays { H.honest host.new ≡ H.honest host.old }
    ensures host_usable { OnOk result (H.poisoned host.new ≡ false) }
    ensures sink_usable { OnOk result (S.poisoned sink.new ≡ false) }

    ensures host_later { H.faults host.old ≤ H.faults host.new }
    ensures host_fault { result ≡ Err SessionError.HostFault → Rose (H.faults host.old) (H.faults host.new) }
    ensures sink_later { S.faults sink.old ≤ S.faults sink.new }
    ensures write_fault { result ≡ Err SessionError.WriteFault → Rose (S.faults sink.old) (S.faults sink.new) }
{
    let mut talk = Talk::new(alloc);
    let ended = talk_on(alloc, threads, &mut talk, host, sink);
    let Talk {
        reader,
        negotiation,
        ..
    } = talk;
    // Dropped by a call, settings are not spelled out here: that is what the proof of this function would cost.
    drop(negotiation);
    match ended {
        Ok(Some(config)) => Ok(Opening::Begun { config, reader }),
        Ok(None) => Ok(Opening::Left),
        Err(error) => Err(error),
    }
}
