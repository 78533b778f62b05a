// A sink in memory.
ghost use Rattle.std.specs.Prelude.{◌≡◌, ◌↔◌, [], false, Some, Err};
ghost use Rattle.host_fakes.specs.Memory.{no_calls, after_call, IsFailing};
ghost use Rattle.session_port.specs.Record.{HasCause, added, after_ok};

use crate::fail_plan::FailPlan;
use plain::{Bytes, Items};
use session_port::{HostError, Sink};
use std::alloc::Global;
use std::marker::Model;

/// Keeps each turn, and fails at the calls that are listed.
pub struct MemorySink {
    alloc: Global,
    turns: Items<Bytes>,
    plan: FailPlan,
}

impl Drop for MemorySink {
    fn drop(self) {
        let MemorySink {
            alloc: _,
            turns: _,
            plan: _,
        } = self;
    }
}

impl Model for MemorySink {
    ghost use Rattle.host_fakes.specs.Memory.{SinkData};

    ghost Value = { SinkData };

    ghost view = { λ s. record { turns = s.turns; plan = s.plan } };
}

impl MemorySink {
    /// The calls of `put_turn` with these numbers, from 1, will fail.
    pub fn new(alloc: Global, fails: Items<u64>) -> Self
        ensures { result ≡ record { turns = []; plan = no_calls fails } }
    {
        MemorySink {
            alloc,
            turns: Items::new(alloc),
            plan: FailPlan::new(fails),
        }
    }

    pub fn turns(&self) -> &[Bytes]
        ensures { result.now ≡ self.now.turns }
    {
        self.turns.as_slice()
    }
}

impl Sink for MemorySink {
    ghost turns = { λ s. Some s.turns };

    ghost faults = { λ s. s.plan.faults };

    ghost poisoned = { λ _. false };

    fn put_turn(&mut self, bytes: &[u8]) -> Result<(), HostError>
        ensures turns { Some self.new.turns
            ≡ after_ok result (λ _. added (Some self.old.turns) bytes.now) (Some self.old.turns) }
        ensures cause { HasCause self.old.plan.faults self.new.plan.faults result }

        // It fails at the listed calls and at no others.
        ensures fails { (result ≡ Err HostError.Failed) ↔ IsFailing self.old.plan }
        ensures plan { self.new.plan ≡ after_call result self.old.plan }
    {
        if self.plan.count() {
            self.plan.fail();
            return Err(HostError::Failed);
        }
        self.turns.push(Bytes::from_slice(self.alloc, bytes)?)?;
        Ok(())
    }
}
