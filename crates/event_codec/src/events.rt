// The codecs of what a host gives.
ghost use Rattle.std.specs.Prelude.{◌≡◌};
ghost use Rattle.event_codec.specs.Events.{host_event_codec};

use crate::recorded::Recorded;
use record_codec::{Cursor, DecodeFault, EncodeFault};
use session_port::HostEvent;
use std::alloc::Global;

impl Recorded for HostEvent {
    ghost code = { host_event_codec };

    #[tactic(auto, unfolding(crate::specs::Events::host_event_codec))]
    fn encode(&self, out: &mut Vec<u8>) -> Result<(), EncodeFault> {
        match self {
            HostEvent::Bytes(value) => {
                out.push(0)?;
                value.encode(out)?;
                Ok(())
            }
            HostEvent::Ended => {
                out.push(1)?;
                Ok(())
            }
            HostEvent::Tasks(value) => {
                out.push(2)?;
                value.encode(out)?;
                Ok(())
            }
            HostEvent::DeferredTask(value) => {
                out.push(3)?;
                value.encode(out)?;
                Ok(())
            }
            HostEvent::Vfs(value) => {
                out.push(4)?;
                value.encode(out)?;
                Ok(())
            }
            HostEvent::Flycheck(value) => {
                out.push(5)?;
                value.encode(out)?;
                Ok(())
            }
            HostEvent::TestResult(value) => {
                out.push(6)?;
                value.encode(out)?;
                Ok(())
            }
            HostEvent::DiscoverProject(value) => {
                out.push(7)?;
                value.encode(out)?;
                Ok(())
            }
            HostEvent::Timer(value) => {
                out.push(8)?;
                value.encode(out)?;
                Ok(())
            }
        }
    }

    #[tactic(auto, unfolding(crate::specs::Events::host_event_codec))]
    fn decode(alloc: Global, cursor: &mut Cursor<'_>) -> Result<HostEvent, DecodeFault> {
        match cursor.byte()? {
            0 => Ok(HostEvent::Bytes(Recorded::decode(alloc, cursor)?)),
            1 => Ok(HostEvent::Ended),
            2 => Ok(HostEvent::Tasks(Recorded::decode(alloc, cursor)?)),
            3 => Ok(HostEvent::DeferredTask(Recorded::decode(alloc, cursor)?)),
            4 => Ok(HostEvent::Vfs(Recorded::decode(alloc, cursor)?)),
            5 => Ok(HostEvent::Flycheck(Recorded::decode(alloc, cursor)?)),
            6 => Ok(HostEvent::TestResult(Recorded::decode(alloc, cursor)?)),
            7 => Ok(HostEvent::DiscoverProject(Recorded::decode(alloc, cursor)?)),
            8 => Ok(HostEvent::Timer(Recorded::decode(alloc, cursor)?)),
            _ => Err(DecodeFault::Malformed),
        }
    }
}
