//! The reader: a thread that reads the source, and posts what it read.
ghost use Rattle.std.specs.Prelude.{◌≡◌, false, [], IfOk};
ghost use Rattle.std.specs.Arc.{arc_value};
ghost use Rattle.inbox.specs.Readers.{Reads};
ghost use Rattle.task_pool.specs.Reading.{HasRead, IsReader};

use crate::leave::Leave;
use inbox::{Inbox, ReadOut, ReaderEnd, Refusal};
use plain::NoMemory;
use session_port::Source;
use std::alloc::{AllocError, Global};
use std::snapshot::Snapshot;
use std::sync::{Arc, Wait};
use std::thread;
use std::thread::{Promise, PromisedHandle, Threads};

/// The reader promises its end of this inbox, and how many bytes it posted there.
#[derive(Drop)]
pub struct GivesBack {
    pub inbox: Snapshot<Arc<Inbox, Global>>,
}

impl Promise<ReadOut> for GivesBack {
    ghost use Rattle.std.specs.Arc.{arc_value};
    ghost use Rattle.task_pool.specs.Reading.{HasRead};

    ghost kept_by = { λ p out. HasRead (arc_value p.inbox.value).queue out };
}

/// The reader as it was started: in a thread, or, where no thread could be made, on the caller.
#[derive(Drop)]
pub enum Reader {
    Running(PromisedHandle<ReadOut, GivesBack>),
    Ended(ReadOut),
}

/// Reads and posts.
fn read<R: Wait, S: Source>(
    leave: Leave<R>,
    alloc: Global,
    end: ReaderEnd,
    source: S,
    refusal: Refusal,
) -> ReadOut
    requires reads { Reads (S.left source) (S.faults source) end.pass.me.view.client }
    requires first { end.pass.me.view.client.posted ≡ [] }
    requires usable { S.poisoned source ≡ false }
    ensures { HasRead (arc_value end.inbox).queue result }
{
    end.read_all(&leave, alloc, source, &refusal)
}

/// Starts the reader. Where no thread can be made, all is read and posted before this returns.
pub fn start<R: Threads + Wait + 'static, S: Source + Send + 'static>(
    rt: &R,
    alloc: Global,
    end: ReaderEnd,
    source: S,
) -> Result<Reader, NoMemory>
    requires reads { Reads (S.left source) (S.faults source) end.pass.me.view.client }
    requires first { end.pass.me.view.client.posted ≡ [] }
    requires usable { S.poisoned source ≡ false }
    ensures { IfOk result (IsReader (arc_value end.inbox).queue) }
{
    let promise = GivesBack {
        inbox: Snapshot::of(&end.inbox),
    };
    let refusal = Refusal::new(alloc)?;
    let theirs = refusal.again()?;
    let leave = Leave::of(rt);
    match thread::spawn_with(rt, promise, move || {
        read(leave, alloc, end, source, theirs)
    }) {
        Ok(handle) => Ok(Reader::Running(handle)),
        Err(refused) => {
            refusal.note();
            let out = (refused.value)();
            if out.gave_up {
                return Err(AllocError);
            }
            Ok(Reader::Ended(out))
        }
    }
}

/// What the reader came to.
pub fn join<R: Threads>(rt: &R, reader: Reader, inbox: &Inbox) -> ReadOut
    requires { IsReader inbox.now.queue reader }
    ensures { HasRead inbox.now.queue result }
{
    match reader {
        Reader::Running(handle) => handle.join(rt),
        Reader::Ended(out) => out,
    }
}
