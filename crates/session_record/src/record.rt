// Records of whole sessions.
ghost use Rattle.std.specs.Prelude.{◌≡◌, List, ◌∷◌, true, IfOk, IfErr};
ghost use Rattle.record_codec.specs.Meets.{Appends};
ghost use Rattle.event_codec.specs.Events.{host_event_codec};
ghost use Rattle.session_record.specs.Record.{session, recorded, can_be_recorded, Refuses, AppendsEvents, DecodesAll, IsSession, RefusesBytes};
ghost use Rattle.session_port.specs.declared.event.HostEvent.{HostEvent as Event};
ghost use Rattle.session_record.specs.declared.start.StartConfig.{StartConfig as Start};

use crate::fault::RecordFault;
use crate::start::StartConfig;
use event_codec::{Recorded, decode_marked};
use plain::Items;
use record_codec::{Cursor, DecodeFault, EncodeFault};
use session_port::HostEvent;
use std::alloc::Global;

pub(crate) const MAGIC: [u8; 8] = [82, 65, 83, 82, 69, 67, 48, 49];

/// Appends an event behind a byte 1.
pub(crate) fn encode_event(out: &mut Vec<u8>, event: &HostEvent) -> Result<(), EncodeFault>
    ensures { Appends (host_event_codec.fits event.now) (1 ∷ host_event_codec.spelling event.now)
        out.old.items out.new.items result }
{
    out.push(1)?;
    event.encode(out)
}

/// Appends events, each behind a byte 1, and last a byte 0.
fn encode_events(out: &mut Vec<u8>, events: &[HostEvent]) -> Result<(), RecordFault>
    ensures { AppendsEvents events.now out.old.items out.new.items result }
{
    let mut place: u64 = 0;
    for event in events {
        match encode_event(out, event) {
            Ok(()) => {}
            Err(EncodeFault::Unrecordable) => return Err(RecordFault::Unrecordable {
                event: place,
            }),
            Err(EncodeFault::NoMemory) => return Err(RecordFault::NoMemory),
        }
        place += 1;
    }
    out.push(0)?;
    Ok(())
}

/// The record of a session that began so and had these events. It is refused where a JSON value isn't plain, a length
/// passes 4,294,967,295, or the beginning names no root or has not 1 to 64 threads.
#[tactic(auto, using(crate::proofs::Unfit::none_unfit))]
pub fn encode(
    alloc: Global,
    begin: &StartConfig,
    events: &[HostEvent],
) -> Result<Vec<u8>, RecordFault>
    ensures ok { IfOk result (λ v. (can_be_recorded begin.now events.now ≡ true)
        × (v.items ≡ recorded begin.now events.now)) }
    ensures err { IfErr result (Refuses begin.now events.now) }
{
    let mut out = Vec::from_slice(alloc, &MAGIC)?;
    match begin.encode(&mut out) {
        Ok(()) => {
            encode_events(&mut out, events)?;
            Ok(out)
        }
        Err(EncodeFault::Unrecordable) => {
            encode_events(&mut out, events)?;
            Err(RecordFault::Unrecordable {
                event: events.len() as u64,
            })
        }
        Err(EncodeFault::NoMemory) => Err(RecordFault::NoMemory),
    }
}

/// Reads a record, all of the bytes.
fn read(alloc: Global, bytes: &[u8]) -> Result<(StartConfig, Items<HostEvent>), DecodeFault>
    ensures { DecodesAll (session.read bytes.now) result }
{
    let mut cursor = Cursor::new(bytes);
    if cursor.take(8)? != MAGIC.as_slice() {
        return Err(DecodeFault::Malformed);
    }
    let begin = StartConfig::decode(alloc, &mut cursor)?;
    let events = decode_marked(alloc, &mut cursor)?;
    if !cursor.is_empty() {
        return Err(DecodeFault::Malformed);
    }
    Ok((begin, events))
}

/// The session of a record. A length that is read sets no memory aside: room is made for each item once it was read.
pub fn decode(alloc: Global, bytes: &[u8]) -> Result<(StartConfig, Items<HostEvent>), RecordFault>
    // What is found is spelled so, all of the bytes.
    ensures found { IfOk result (λ x. (can_be_recorded x.0 x.1 ≡ true) × (bytes.now ≡ recorded x.0 x.1)) }
    // A record of a session gives that session, unless memory runs out.
    ensures exact { (begin : Start) (events : List Event) → can_be_recorded begin events ≡ true
        → bytes.now ≡ recorded begin events → IsSession begin events result }
    // Other bytes are refused, and no record is.
    ensures err { IfErr result (RefusesBytes bytes.now) }
{
    match read(alloc, bytes) {
        Ok((begin, events)) => Ok((begin, events)),
        Err(DecodeFault::Malformed) => Err(RecordFault::BadRecord),
        Err(DecodeFault::NoMemory) => Err(RecordFault::NoMemory),
    }
}

/// Writes a record and reads it again, which gives the same session.
pub fn recorded_again(
    alloc: Global,
    begin: &StartConfig,
    events: &[HostEvent],
) -> Result<(StartConfig, Items<HostEvent>), RecordFault>
    ensures { IfOk result (λ x. x ≡ (begin.now, events.now)) }
{
    let bytes = encode(alloc, begin, events)?;
    decode(alloc, bytes.as_slice())
}

/// No two sessions have one record.
pub fn one_spelling()
    ensures { (b c : Start) (es fs : List Event) → can_be_recorded b es ≡ true → can_be_recorded c fs ≡ true
        → recorded b es ≡ recorded c fs → (b ≡ c) × (es ≡ fs) }
{}
