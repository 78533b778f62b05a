// A sink that keeps nothing.
ghost use Rattle.std.specs.Prelude.{◌≡◌, None, false};

use session_port::{HostError, Sink};

/// Takes each turn, keeps nothing of it, and never fails.
#[derive(Drop)]
pub(crate) struct SilentSink {}

impl Sink for SilentSink {
    ghost turns = { λ _. None };

    ghost faults = { λ _. 0 };

    ghost poisoned = { λ _. false };

    fn put_turn(&mut self, _bytes: &[u8]) -> Result<(), HostError> {
        Ok(())
    }
}
