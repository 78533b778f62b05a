// A message's body while it is written.
ghost use Rattle.std.specs.Prelude.{◌≡◌, ◌++◌, [], length, IfOk, IfSome, OnOk, OnErr};

use std::alloc::{AllocError, Global};
use std::marker::Model;

// The room for a body at first.
const FIRST_ROOM: usize = 256;

/// A body in three parts, of which the middle one is the text that was put last. It is moved here, and copied once, behind
/// the header. Contracts see the whole body.
pub struct Body {
    front: Vec<u8>,
    last: Vec<u8>,
    behind: Vec<u8>,
}

impl Drop for Body {
    fn drop(self) {
        let Body {
            front: _,
            last: _,
            behind: _,
        } = self;
    }
}

impl Model for Body {
    ghost use Rattle.std.specs.Prelude.{ℕ, List, ◌++◌};

    ghost Value = { List ℕ };

    ghost view = { λ b. b.front.items ++ (b.last.items ++ b.behind.items) };
}

/// Appends two lists of bytes.
fn append_both(into: &mut Vec<u8>, first: &[u8], second: &[u8]) -> Result<(), AllocError>
    ensures ok { OnOk result (into.new.items ≡ into.old.items ++ (first.now ++ second.now)) }
    ensures err { OnErr result (into.new.items ≡ into.old.items) }
{
    let before = into.len();
    into.extend_from_slice(first)?;
    match into.extend_from_slice(second) {
        Ok(()) => Ok(()),
        Err(error) => {
            into.truncate(before);
            Err(error)
        }
    }
}

impl Body {
    pub fn new(alloc: Global) -> Result<Body, AllocError>
        ensures { IfOk result (λ body. body ≡ []) }
    {
        Ok(Body {
            front: Vec::with_capacity(alloc, FIRST_ROOM)?,
            last: Vec::new(alloc),
            behind: Vec::new(alloc),
        })
    }

    pub fn alloc(&self) -> Global {
        *self.front.allocator()
    }

    /// How many bytes it has, if that can be counted.
    pub fn len(&self) -> Option<usize>
        ensures { IfSome result (λ len. len ≡ length self.now) }
    {
        let front = self.front.len().checked_add(self.last.len())?;
        front.checked_add(self.behind.len())
    }

    /// Puts a copy of bytes at the end.
    pub fn extend_from_slice(&mut self, more: &[u8]) -> Result<(), AllocError>
        ensures { OnOk result (self.new ≡ self.old ++ more.now) }
    {
        if self.last.is_empty() && self.behind.is_empty() {
            self.front.extend_from_slice(more)
        } else {
            self.behind.extend_from_slice(more)
        }
    }

    /// Puts a text at the end.
    pub fn push(&mut self, text: Vec<u8>) -> Result<(), AllocError>
        ensures { OnOk result (self.new ≡ self.old ++ text.items) }
    {
        append_both(&mut self.front, &self.last, &self.behind)?;
        self.behind.clear();
        self.last = text;
        Ok(())
    }

    /// Appends the body behind its header.
    pub fn append_to(&self, header: &[u8], into: &mut Vec<u8>) -> Result<(), AllocError>
        ensures ok { OnOk result (into.new.items ≡ into.old.items ++ (header.now ++ self.now)) }
        ensures err { OnErr result (into.new.items ≡ into.old.items) }
    {
        let before = into.len();
        append_both(into, header, &self.front)?;
        match append_both(into, &self.last, &self.behind) {
            Ok(()) => Ok(()),
            Err(error) => {
                into.truncate(before);
                Err(error)
            }
        }
    }
}
