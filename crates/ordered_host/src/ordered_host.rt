// The host on one thread, whose record tells that its events came in order.
ghost use Rattle.std.specs.Prelude.{◌≡◌, true, false};
ghost use Rattle.inline_host.specs.Inline.{new_inline};
ghost use Rattle.ordered_host.specs.InOrder.{IsOrdered, stream_of};

use analysis_host::Analysis;
use inline_host::InlineHost;
use plain::Items;
use session_port::{Command, Host, HostError, HostEvent, Source};
use std::alloc::Global;
use std::marker::Model;

/// Keeps a record of all calls. What it tells is in order: so much is known of a host that was lent.
pub struct OrderedHost<'a, S: Source, A> {
    host: InlineHost<'a, S, A>,
    // A call has failed.
    failed: bool,
}

impl<'a, S: Source + Drop, A: Drop> Drop for OrderedHost<'a, S, A> {
    fn drop(self) {
        let OrderedHost { host: _, failed: _ } = self;
    }
}

impl<'a, S: Source, A> Model for OrderedHost<'a, S, A> {
    ghost use Rattle.inline_host.specs.Codes.{call_code, inline_code};
    ghost use Rattle.ordered_host.specs.Codes.{ordered_code};
    ghost use Rattle.ordered_host.specs.InOrder.{IsOrdered, OrderedData};
    ghost use Rattle.session_port.specs.contracts.command.Command as command;
    ghost use Rattle.session_port.specs.contracts.command.DeferredTask as task;
    ghost use Rattle.session_port.specs.contracts.event.HostEvent as event;
    ghost use Rattle.session_port.specs.contracts.job.Job as job;

    ghost Value = { OrderedData };

    ghost coded = { ordered_code (inline_code job.the_row.coded task.the_row.coded (call_code event.the_row.coded command.the_row.coded)) };

    ghost view = { λ h. record { host = h.host; failed = h.failed } };

    ghost invariant = { λ h. IsOrdered (record { host = h.host; failed = h.failed }) };
}

impl<'a, S: Source, A: Analysis> OrderedHost<'a, S, A> {
    pub fn new(alloc: Global, source: S, analysis: &'a A) -> Self
        requires { S.poisoned source ≡ false }
        ensures { result ≡ record { host = new_inline (S.left source) (S.faults source) (S.poisoned source) true; failed = false } }
    {
        OrderedHost {
            host: InlineHost::new(alloc, source, analysis, true),
            failed: false,
        }
    }

    /// What was told so far is in order.
    pub fn keeps_order(&self)
        ensures { IsOrdered self.now }
    {
        let _ = &self.failed;
    }
}

impl<'a, S: Source, A: Analysis> Host<A> for OrderedHost<'a, S, A> {
    ghost use Rattle.std.specs.Prelude.{ℕ, List, Option, true};
    ghost use Rattle.ordered_host.specs.InOrder.{stream_of};

    ghost out = { λ h. h.host.out };

    ghost last_job = { λ h. h.host.last_job };

    ghost honest = { λ _. true };

    ghost faults = { λ h. h.host.faults };

    ghost calls = { λ h. h.host.calls };

    ghost poisoned = { λ h. h.failed };

    ghost Origin = { Option (List ℕ) };

    ghost origin = { stream_of };

    fn next(&mut self) -> Result<HostEvent, HostError> {
        match self.host.next() {
            Ok(event) => Ok(event),
            Err(error) => {
                self.failed = true;
                Err(error)
            }
        }
    }

    fn order(&mut self, commands: Items<Command>) -> Result<(), HostError> {
        match self.host.order(commands) {
            Ok(()) => Ok(()),
            Err(error) => {
                self.failed = true;
                Err(error)
            }
        }
    }
}
