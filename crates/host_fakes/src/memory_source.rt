// A source in memory.
ghost use Rattle.std.specs.Prelude.{◌≡◌, ◌≤◌, ◌↔◌, false, Some, Err, IfOk, OnErr};
ghost use Rattle.host_fakes.specs.Memory.{no_calls, after_call, longest_piece, IsFailing};
ghost use Rattle.session_port.specs.Record.{HasCause, IsPiece};

use crate::fail_plan::FailPlan;
use plain::{Bytes, Items};
use session_port::{HostError, Source};
use std::alloc::Global;
use std::marker::Model;

/// Gives its bytes in order, and fails at the calls that are listed.
pub struct MemorySource {
    alloc: Global,
    bytes: Bytes,
    // How many of the bytes were given.
    given: usize,
    plan: FailPlan,
}

impl Drop for MemorySource {
    fn drop(self) {
        let MemorySource {
            alloc: _,
            bytes: _,
            given: _,
            plan: _,
        } = self;
    }
}

impl Model for MemorySource {
    ghost use Rattle.std.specs.Prelude.{◌≤◌, length, drop};
    ghost use Rattle.host_fakes.specs.Memory.{SourceData};

    ghost Value = { SourceData };

    ghost view = { λ s. record { left = drop s.given s.bytes; plan = s.plan } };

    ghost invariant = { λ s. s.given ≤ length s.bytes };
}

impl MemorySource {
    /// The calls of `read_piece` with these numbers, from 1, will fail.
    pub fn new(alloc: Global, bytes: Bytes, fails: Items<u64>) -> Self
        ensures { result ≡ record { left = bytes; plan = no_calls fails } }
    {
        MemorySource {
            alloc,
            bytes,
            given: 0,
            plan: FailPlan::new(fails),
        }
    }

    pub fn left(&self) -> &[u8]
        ensures { result.now ≡ self.now.left }
    {
        &self.bytes.as_slice()[self.given..]
    }
}

impl Source for MemorySource {
    ghost left = { λ s. Some s.left };

    ghost faults = { λ s. s.plan.faults };

    ghost poisoned = { λ _. false };

    fn read_piece(&mut self, max: usize) -> Result<Option<Bytes>, HostError>
        requires { 1 ≤ max }
        ensures piece { IfOk result (IsPiece max (Some self.old.left) (Some self.new.left)) }
        ensures kept { OnErr result (Some self.new.left ≡ Some self.old.left) }
        ensures cause { HasCause self.old.plan.faults self.new.plan.faults result }

        // It fails at the listed calls and at no others, and its pieces are as long as they may be.
        ensures fails { (result ≡ Err HostError.Failed) ↔ IsFailing self.old.plan }
        ensures longest { IfOk result (λ piece. piece ≡ longest_piece max self.old.left) }
        ensures plan { self.new.plan ≡ after_call result self.old.plan }
    {
        if self.plan.count() {
            self.plan.fail();
            return Err(HostError::Failed);
        }
        let left = &self.bytes.as_slice()[self.given..];
        if left.is_empty() {
            return Ok(None);
        }
        let len = left.len().min(max);
        let piece = Bytes::from_slice(self.alloc, &left[..len])?;
        self.given += len;
        Ok(Some(piece))
    }
}
