// The calls that a host records.
ghost use Rattle.std.specs.Prelude.{◌≡◌, option_copied};
ghost use Rattle.session_port.specs.Record.{added, after_ok, gave, took};
ghost use Rattle.inline_host.specs.Calls.{commands_in, event_in};

use plain::Items;
use session_port::{Command, HostEvent};
use std::alloc::AllocError;
use std::marker::Model;

/// A call of a host: it gave an event, or it took a turn's commands.
pub struct RecordedCall {
    call: Call,
}

impl Drop for RecordedCall {
    fn drop(self) {
        let RecordedCall { call: _ } = self;
    }
}

#[derive(Drop)]
enum Call {
    Gave(HostEvent),
    Took(Items<Command>),
}

impl Model for RecordedCall {
    ghost use Rattle.inline_host.specs.Codes.{call_code};
    ghost use Rattle.session_port.specs.Record.{HostCall};
    ghost use Rattle.session_port.specs.contracts.command.Command as command;
    ghost use Rattle.session_port.specs.contracts.event.HostEvent as event;

    ghost Value = { HostCall };

    ghost coded = { call_code event.the_row.coded command.the_row.coded };

    ghost use Rattle.inline_host.specs.Calls.{call_of};

    ghost view = { λ c. call_of c.call };
}

impl RecordedCall {
    pub fn of_event(event: HostEvent) -> Self
        ensures { result ≡ gave event }
    {
        RecordedCall {
            call: Call::Gave(event),
        }
    }

    pub fn of_commands(commands: Items<Command>) -> Self
        ensures { result ≡ took commands }
    {
        RecordedCall {
            call: Call::Took(commands),
        }
    }

    /// The event, if one was given.
    pub fn event(&self) -> Option<&HostEvent>
        ensures { option_copied result ≡ event_in self.now }
    {
        match &self.call {
            Call::Gave(event) => Some(event),
            Call::Took(_) => None,
        }
    }

    /// The commands, if they were taken.
    pub fn commands(&self) -> Option<&Items<Command>>
        ensures { option_copied result ≡ commands_in self.now }
    {
        match &self.call {
            Call::Gave(_) => None,
            Call::Took(commands) => Some(commands),
        }
    }
}

/// Adds an event to the record, if one is kept.
pub fn record_event(
    calls: &mut Option<Items<RecordedCall>>,
    event: &HostEvent,
) -> Result<(), AllocError>
    ensures { calls.new ≡ after_ok result (λ _. added calls.old (gave event.now)) calls.old }
{
    if let Some(calls) = calls {
        calls.push(RecordedCall::of_event(event.clone()?))?;
    }
    Ok(())
}
