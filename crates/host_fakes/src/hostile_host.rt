// A host that gives whatever it was told to give.
ghost use Rattle.std.specs.Prelude.{◌≡◌, Some, IfOk, IfErr};
ghost use Rattle.session_port.specs.Record.{HasCause, AreRising, added, after_given, after_ok, after_order, gave, last_number, spawned, took};
ghost use Rattle.host_fakes.specs.Script.{new_hostile, next_event};

use crate::queue::Queue;
use analysis_host::Analysis;
use inline_host::{NumberedJobs, RecordedCall};
use plain::Items;
use session_port::{Command, Host, HostError, HostEvent};
use std::alloc::{AllocError, Global};
use std::marker::Model;

/// Gives its events as they are, made-up results too, and then the end. It keeps a record, and never fails.
pub struct HostileHost {
    events: Queue<HostEvent>,
    jobs: NumberedJobs,
    calls: Items<RecordedCall>,
}

impl Drop for HostileHost {
    fn drop(self) {
        let HostileHost {
            events: _,
            jobs: _,
            calls: _,
        } = self;
    }
}

impl Model for HostileHost {
    ghost use Rattle.inline_host.specs.Codes.{call_code};
    ghost use Rattle.host_fakes.specs.Codes.{hostile_code};
    ghost use Rattle.host_fakes.specs.Script.{HostileData};
    ghost use Rattle.session_port.specs.contracts.command.Command as command;
    ghost use Rattle.session_port.specs.contracts.event.HostEvent as event;
    ghost use Rattle.session_port.specs.contracts.job.Job as job;

    ghost Value = { HostileData };

    ghost coded = { hostile_code job.the_row.coded event.the_row.coded (call_code event.the_row.coded command.the_row.coded) };

    ghost view = { λ h. record { out = h.jobs.out; last_job = h.jobs.last_job; events = h.events; calls = h.calls } };
}

impl HostileHost {
    pub fn new(alloc: Global, events: Items<HostEvent>) -> Self
        ensures { result ≡ new_hostile events }
    {
        HostileHost {
            events: Queue::new(events),
            jobs: NumberedJobs::new(alloc),
            calls: Items::new(alloc),
        }
    }

    // A copy of what it gives next.
    fn copy_of_next(&self) -> Result<HostEvent, AllocError>
        ensures { IfOk result (λ event. event ≡ (next_event self.now.events).0) }
    {
        match self.events.first() {
            Some(event) => event.clone(),
            None => Ok(HostEvent::Ended),
        }
    }

    /// The calls so far.
    pub fn calls(&self) -> &[RecordedCall]
        ensures { result.now ≡ self.now.calls }
    {
        self.calls.as_slice()
    }
}

impl<A: Analysis> Host<A> for HostileHost {
    ghost use Rattle.std.specs.Prelude.{false, Some, List, ◌++◌};
    ghost use Rattle.session_port.specs.Record.{given_in};
    ghost use Rattle.session_port.specs.declared.event.HostEvent.{HostEvent as EventData};
    ghost use Rattle.host_fakes.specs.Script.{without_ends};

    ghost out = { λ h. h.out };

    ghost last_job = { λ h. h.last_job };

    ghost honest = { λ _. false };

    ghost faults = { λ _. 0 };

    ghost calls = { λ h. Some h.calls };

    ghost poisoned = { λ _. false };

    /// The events that it was made of, but for the ends behind them.
    ghost Origin = { List EventData };

    ghost origin = { λ h. without_ends (given_in h.calls ++ h.events) };

    fn next(&mut self) -> Result<HostEvent, HostError>
        ensures out { self.new.out ≡ after_given result self.old.out }
        ensures last_job { self.new.last_job ≡ self.old.last_job }
        ensures calls { Some self.new.calls
            ≡ after_ok result (λ event. added (Some self.old.calls) (gave event)) (Some self.old.calls) }
        ensures origin_stays { without_ends (given_in self.new.calls ++ self.new.events)
            ≡ without_ends (given_in self.old.calls ++ self.old.events) }
        ensures cause { HasCause 0 0 result }

        // The next of its events.
        ensures next { IfOk result (λ event. next_event self.old.events ≡ (event, self.new.events)) }
        ensures memory { IfErr result (λ e. e ≡ HostError.NoMemory) }
    {
        let kept = self.copy_of_next()?;
        self.calls.push(RecordedCall::of_event(kept))?;
        let event = self.events.take_first().unwrap_or(HostEvent::Ended);
        self.jobs.let_go(&event);
        Ok(event)
    }

    fn order(&mut self, commands: Items<Command>) -> Result<(), HostError>
        requires rising { AreRising self.old.last_job (spawned commands) }
        ensures out { IfOk result (λ _. self.new.out ≡ after_order commands self.old.out) }
        ensures last_job { IfOk result (λ _. self.new.last_job
            ≡ last_number self.old.last_job (spawned commands)) }
        ensures calls { Some self.new.calls
            ≡ after_ok result (λ _. added (Some self.old.calls) (took commands)) (Some self.old.calls) }
        ensures origin_stays { without_ends (given_in self.new.calls ++ self.new.events)
            ≡ without_ends (given_in self.old.calls ++ self.old.events) }
        ensures cause { HasCause 0 0 result }

        ensures events { self.new.events ≡ self.old.events }
        ensures memory { IfErr result (λ e. e ≡ HostError.NoMemory) }
    {
        self.jobs.take(commands.as_slice())?;
        self.calls.push(RecordedCall::of_commands(commands))?;
        Ok(())
    }
}
