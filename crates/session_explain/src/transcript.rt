// A sink that keeps the bodies of what is written.
use crate::page::Page;
use lsp_frame::{Cut, cut};
use plain::{Items, NoMemory};
use session_port::{HostError, Sink};
use std::alloc::Global;

/// Keeps a line for each message of each turn.
#[derive(Drop)]
pub(crate) struct Transcript {
    alloc: Global,
    pub turns: Items<Page>,
}

impl Transcript {
    pub fn new(alloc: Global) -> Transcript {
        Transcript {
            alloc,
            turns: Items::new(alloc),
        }
    }

    fn note(&mut self, bytes: &[u8]) -> Result<(), NoMemory> {
        let mut page = Page::new(self.alloc);
        let mut rest = bytes;
        for _ in 0..bytes.len() {
            match cut(rest) {
                Cut::Frame {
                    body_start,
                    body_end,
                } => {
                    page.begin("message ")?;
                    page.append(&rest[body_start..body_end])?;
                    page.end()?;
                    rest = &rest[body_end..];
                }
                Cut::NeedMore | Cut::Bad => break,
            }
        }
        self.turns.push(page)?;
        Ok(())
    }
}

impl Sink for Transcript {
    ghost use Rattle.std.specs.Prelude.{false, None};

    ghost turns = { λ _. None };

    ghost faults = { λ _. 0 };

    ghost poisoned = { λ _. false };

    fn put_turn(&mut self, bytes: &[u8]) -> Result<(), HostError> {
        self.note(bytes)?;
        Ok(())
    }
}
