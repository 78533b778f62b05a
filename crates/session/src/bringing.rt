// What an event of the host brings to a session.
ghost use Rattle.std.specs.Prelude.{◌≡◌};
ghost use Rattle.session.specs.Bringing.{brought_by};

use plain::{Bytes, Items};
use session_port::HostEvent;
use session_state::{Event, Input, News};
use std::alloc::Global;

// What comes of an event: the input of a turn, bytes that are to be fed, or the end.
pub(crate) enum Brought {
    Input(Input),
    Fed(Bytes),
    Ended,
}

// No bytes are an empty batch.
pub(crate) fn brought_by(alloc: Global, event: HostEvent) -> Brought
    ensures { result ≡ brought_by event }
{
    match event {
        HostEvent::Bytes(bytes) => {
            if bytes.len() == 0 {
                Brought::Input(Input::Next(Event::Task(Items::new(alloc))))
            } else {
                Brought::Fed(bytes)
            }
        }
        HostEvent::Tasks(batch) => Brought::Input(Input::Next(Event::Task(batch))),
        HostEvent::Flycheck(messages) => {
            Brought::Input(Input::Next(Event::News(News::Flycheck(messages))))
        }
        HostEvent::TestResult(messages) => {
            Brought::Input(Input::Next(Event::News(News::TestResult(messages))))
        }
        HostEvent::DiscoverProject(messages) => {
            Brought::Input(Input::Next(Event::News(News::DiscoverProject(messages))))
        }
        HostEvent::Vfs(messages) => Brought::Input(Input::Next(Event::Vfs(messages))),
        HostEvent::DeferredTask(tasks) => Brought::Input(Input::Next(Event::Deferred(tasks))),
        HostEvent::Timer(ticket) => Brought::Input(Input::Next(Event::Timer(ticket))),
        HostEvent::Ended => Brought::Ended,
    }
}
