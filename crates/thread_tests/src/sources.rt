// Sources that wait for flags.
use crate::flags::Flag;
use plain::Bytes;
use session_port::{HostError, Source};
use std::alloc::Global;

/// Gives nothing, and ends once its flag is raised.
#[derive(Drop)]
pub struct SilentSource {
    pub end: Flag,
}

impl Source for SilentSource {
    ghost use Rattle.std.specs.Prelude.{None, false};

    ghost left = { λ _. None };

    ghost faults = { λ _. 0 };

    ghost poisoned = { λ _. false };

    fn read_piece(&mut self, _max: usize) -> Result<Option<Bytes>, HostError> {
        self.end.wait();
        Ok(None)
    }
}

/// Opens a document, asks once the session is quiescent, and leaves once it has the answers.
#[derive(Drop)]
pub struct Client {
    pub alloc: Global,
    pub opens: &'static str,
    pub asks: &'static str,
    pub leaves: &'static str,
    pub quiescent: Flag,
    pub answered: Flag,
    pub given: u8,
}

impl Client {
    /// What is written next, once it is time.
    fn text(&self) -> &'static str {
        match self.given {
            0 => self.opens,
            1 => {
                self.quiescent.wait();
                self.asks
            }
            2 => {
                self.answered.wait();
                self.leaves
            }
            _ => "",
        }
    }
}

impl Source for Client {
    ghost use Rattle.std.specs.Prelude.{None, false};

    ghost left = { λ _. None };

    ghost faults = { λ _. 0 };

    ghost poisoned = { λ _. false };

    fn read_piece(&mut self, max: usize) -> Result<Option<Bytes>, HostError> {
        let bytes = self.text().as_bytes();
        self.given = self.given.saturating_add(1);
        if bytes.is_empty() || bytes.len() > max {
            return Ok(None);
        }
        Ok(Some(Bytes::from_slice(self.alloc, bytes)?))
    }
}
