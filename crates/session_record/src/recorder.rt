// A host that records what another gives.
ghost use Rattle.session_record.specs.Since.{Records};

use crate::beginning::Beginning;
use crate::recording::Recording;
use analysis_host::Analysis;
use plain::Items;
use session_port::{Command, Host, HostError, HostEvent};
use std::marker::PhantomData;

/// Passes every call on to a host, and records each event that is given. An event that can't be recorded is passed on
/// too; then there is no record in the end.
#[derive(Drop)]
pub struct Recorder<'a, A: Analysis, H: Host<A>, B: Beginning> {
    host: &'a mut H,
    recording: &'a mut Recording,
    of: PhantomData<(A, B)>,
    pub ghost records: { Records B.config B.calls (H.calls host.now) recording.now },
}

impl<'a, A: Analysis, H: Host<A>, B: Beginning> Recorder<'a, A, H, B> {
    ghost use Rattle.std.specs.Prelude.{◌≡◌, []};
    ghost use Rattle.session_record.specs.Keeping.{IsKept};

    /// Records from now on, into what has no event yet.
    pub fn new(host: &'a mut H, recording: &'a mut Recording) -> Recorder<'a, A, H, B>
        requires calls { H.calls host.old ≡ B.calls }
        requires config { IsKept B.config [] recording.old }
        ensures host { result.host ≡ host.entry }
        ensures recording { result.recording ≡ recording.entry }
    {
        Recorder {
            host,
            recording,
            of: PhantomData,
        }
    }
}

impl<'a, A: Analysis, H: Host<A>, B: Beginning> Host<A> for Recorder<'a, A, H, B> {
    ghost use Rattle.std.specs.Borrow.{GName};

    ghost out = { λ r. H.out r.host.now };

    ghost last_job = { λ r. H.last_job r.host.now };

    ghost honest = { λ r. H.honest r.host.now };

    ghost faults = { λ r. H.faults r.host.now };

    ghost calls = { λ r. H.calls r.host.now };

    ghost poisoned = { λ r. H.poisoned r.host.now };

    ghost Origin = { H.Origin × (GName × GName) };

    ghost origin = { λ r. (H.origin r.host.now, (r.host.ghost_name, r.recording.ghost_name)) };

    fn next(&mut self) -> Result<HostEvent, HostError> {
        let event = self.host.next()?;
        self.recording.add(&event);
        Ok(event)
    }

    fn order(&mut self, commands: Items<Command>) -> Result<(), HostError> {
        self.host.order(commands)
    }
}
