// Hosts, sinks and sources that are lent: a `&mut` to one is one.
use crate::cause::HostError;
use crate::command::Command;
use crate::event::HostEvent;
use crate::peers::{Host, Sink, Source};
use analysis_host::Analysis;
use plain::{Bytes, Items};

impl<A: Analysis, H: Host<A>> Host<A> for &mut H {
    ghost out = { λ h. H.out h.now };

    ghost last_job = { λ h. H.last_job h.now };

    ghost honest = { λ h. H.honest h.now };

    ghost faults = { λ h. H.faults h.now };

    ghost calls = { λ h. H.calls h.now };

    ghost poisoned = { λ h. H.poisoned h.now };

    ghost Origin = { H.Origin };

    ghost origin = { λ h. H.origin h.now };

    fn next(&mut self) -> Result<HostEvent, HostError> {
        Host::next(&mut **self)
    }

    fn order(&mut self, commands: Items<Command>) -> Result<(), HostError> {
        Host::order(&mut **self, commands)
    }
}

impl<S: Sink> Sink for &mut S {
    ghost turns = { λ s. S.turns s.now };

    ghost faults = { λ s. S.faults s.now };

    ghost poisoned = { λ s. S.poisoned s.now };

    fn put_turn(&mut self, bytes: &[u8]) -> Result<(), HostError> {
        Sink::put_turn(&mut **self, bytes)
    }
}

impl<S: Source> Source for &mut S {
    ghost left = { λ s. S.left s.now };

    ghost faults = { λ s. S.faults s.now };

    ghost poisoned = { λ s. S.poisoned s.now };

    fn read_piece(&mut self, max: usize) -> Result<Option<Bytes>, HostError> {
        Source::read_piece(&mut **self, max)
    }
}
