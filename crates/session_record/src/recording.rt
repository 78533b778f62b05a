// What is kept of a session while it goes on.
ghost use Rattle.std.specs.Prelude.{◌≡◌, List, [], ◌∷◌, ◌++◌, Option, Some, IfOk, IfErr, true};
ghost use Rattle.session_port.specs.declared.event.HostEvent.{HostEvent as Event};
ghost use Rattle.session_record.specs.declared.start.StartConfig.{StartConfig as Start};
ghost use Rattle.session_record.specs.Record.{recorded, can_be_recorded, IsRecordOf, Refuses};

use crate::fault::RecordFault;
use crate::record::{MAGIC, encode_event};
use crate::start::StartConfig;
use event_codec::Recorded;
use plain::NoMemory;
use record_codec::EncodeFault;
use session_port::HostEvent;
use std::alloc::{AllocError, Global};

/// The record so far but for its last byte, or why there will be none.
#[derive(Drop)]
pub struct Recording {
    bytes: Vec<u8>,
    /// Whether the beginning has a spelling.
    begins_well: bool,
    /// How many events there were before the one that could not be kept.
    count: u64,
    fault: Option<RecordFault>,
}

impl Recording {
    ghost use Rattle.session_port.specs.Record.{HostCall, given_in};
    ghost use Rattle.session_record.specs.Keeping.{IsKept};
    ghost use Rattle.session_record.specs.Since.{Records};

    /// The record of a session that has had no event.
    pub fn new(alloc: Global, begin: &StartConfig) -> Result<Recording, NoMemory>
        ensures { IfOk result (λ k. IsKept begin.now [] k) }
    {
        let mut bytes = Vec::from_slice(alloc, &MAGIC)?;
        let begins_well = match begin.encode(&mut bytes) {
            Ok(()) => true,
            Err(EncodeFault::Unrecordable) => false,
            Err(EncodeFault::NoMemory) => return Err(AllocError),
        };
        Ok(Recording {
            bytes,
            begins_well,
            count: 0,
            fault: None,
        })
    }

    /// Takes in one event more. What can't be kept is remembered as the cause, and from then on nothing is kept.
    pub(crate) fn add(&mut self, event: &HostEvent)
        ensures { (begin : Start) (events : List Event) → IsKept begin events self.old
            → IsKept begin (events ++ event.now ∷ []) self.new }
    {
        if self.fault.is_some() {
            return;
        }
        match encode_event(&mut self.bytes, event) {
            Ok(()) => match self.count.checked_add(1) {
                Some(count) => self.count = count,
                None => self.stop(RecordFault::NoMemory),
            },
            Err(EncodeFault::Unrecordable) => self.stop(RecordFault::Unrecordable {
                event: self.count,
            }),
            Err(EncodeFault::NoMemory) => self.stop(RecordFault::NoMemory),
        }
    }

    /// Remembers a cause, and lets go of the bytes.
    fn stop(&mut self, fault: RecordFault)
        ensures { self.new.fault ≡ Some fault }
    {
        self.fault = Some(fault);
        self.bytes.clear();
    }

    /// The whole record of the beginning and of all events since, of a host that tells its calls.
    pub fn finish(self) -> Result<Vec<u8>, RecordFault>
        ensures ok { (begin : Start) (old new : Option (List HostCall)) (before calls : List HostCall) → Records begin old new self
            → old ≡ Some before → new ≡ Some (before ++ calls)
            → IfOk result (λ v. IsRecordOf begin (given_in calls) v.items) }
        ensures err { (begin : Start) (old new : Option (List HostCall)) (before calls : List HostCall) → Records begin old new self
            → old ≡ Some before → new ≡ Some (before ++ calls) → IfErr result (Refuses begin (given_in calls)) }
    {
        self.close()
    }

    /// The record of the beginning and of these events.
    #[tactic(auto, using(crate::proofs::KeptLemmas::closes_well, crate::proofs::KeptLemmas::closes_badly))]
    fn close(self) -> Result<Vec<u8>, RecordFault>
        ensures ok { (begin : Start) (events : List Event) → IsKept begin events self
            → IfOk result (λ v. (can_be_recorded begin events ≡ true) × (v.items ≡ recorded begin events)) }
        ensures err { (begin : Start) (events : List Event) → IsKept begin events self → IfErr result (Refuses begin events) }
    {
        let Recording {
            mut bytes,
            begins_well,
            count,
            fault,
        } = self;
        match fault {
            Some(fault) => Err(fault),
            None => {
                if !begins_well {
                    return Err(RecordFault::Unrecordable { event: count });
                }
                bytes.push(0)?;
                Ok(bytes)
            }
        }
    }
}
