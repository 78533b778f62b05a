// What the reader posts, and when it is given.
ghost use Rattle.std.specs.Prelude.{◌≡◌, false, IfOk};

use crate::flags::Flag;
use crate::gated::Gated;
use crate::hosts::{host, next, order, told};
use host_fakes::MemorySource;
use plain::{Bytes, Items};
use session_port::{Command, Host, HostError, HostEvent};
use std::alloc::Global;
use std::sync::Wait;
use std::test::Fail;
use std::thread::Threads;
use task_pool::ThreadedHost;
use test_support::{expect, expect_same, expect_text};

/// A host that reads from memory.
type Reading<R> = ThreadedHost<R, MemorySource, Gated>;

/// The bytes 0 to 250 in turn, so many of them, of which the calls with these numbers fail.
fn source(alloc: Global, len: usize, fails: &[u64]) -> Result<MemorySource, Fail> {
    let mut bytes = Vec::new(alloc);
    for at in 0..len {
        bytes.push((at % 251) as u8)?;
    }
    let mut calls = Items::new(alloc);
    for call in fails {
        calls.push(*call)?;
    }
    Ok(MemorySource::new(alloc, Bytes::from_vec(bytes), calls))
}

/// The bytes of up to a hundred events, up to the end or a failure, and which of these it was.
fn read<R: Threads + Wait + 'static>(
    alloc: Global,
    host: &mut Reading<R>,
) -> Result<(Vec<u8>, &'static str), Fail>
    requires usable { host.old.poisoned ≡ false }
{
    let mut bytes = Vec::new(alloc);
    for _ in 0..100 {
        match host.next() {
            Ok(HostEvent::Bytes(piece)) => bytes.extend_from_slice(piece.as_slice())?,
            Ok(HostEvent::Ended) => return Ok((bytes, "ended")),
            Err(HostError::Failed) => return Ok((bytes, "failed")),
            _ => return Err(Fail::from("another event")),
        }
    }
    Ok((bytes, "more"))
}

/// Whether these are the first bytes of such a source.
fn is_in_order(bytes: &[u8]) -> bool {
    bytes
        .iter()
        .enumerate()
        .all(|(at, byte)| *byte == (at % 251) as u8)
}

/// Reads a source of so many bytes to its end, or to the failure of a call: so many bytes come, in
/// order, and are counted.
fn reads<R: Threads + Wait + Drop + 'static>(
    rt: R,
    alloc: Global,
    len: usize,
    fails: &[u64],
    given: usize,
    end: &str,
) -> Result<(), Fail> {
    let flag = Flag::new(alloc)?;
    let mut host = host(rt, alloc, 2, source(alloc, len, fails)?, &flag)?;
    let read = read(alloc, &mut host);
    let finished = host.finish();
    let (bytes, ended) = read?;
    expect_text("the last event", ended, end)?;
    expect_same("whether it ended", &finished.ended, &(end == "ended"))?;
    expect_same("bytes", &bytes.len(), &given)?;
    expect("in order", is_in_order(&bytes))?;
    let counts = (finished.posted, finished.taken);
    expect_same("counts", &counts, &(given as u64, given as u64))
}

/// The longest is of more pieces than stand in the inbox at once.
#[test]
fn all_bytes_are_posted_and_given(rt: HostRuntime) -> Result<(), Fail> {
    for len in [0, 1, 65_536, 65_537, 200_000, 5_000_000] {
        reads(rt, rt.alloc(), len, &[], len, "ended")?;
    }
    Ok(())
}

/// All bytes that were read before are given first.
#[test]
fn a_failure_comes_at_its_place(rt: HostRuntime) -> Result<(), Fail> {
    let alloc = rt.alloc();
    reads(rt, alloc, 70_000, &[1], 0, "failed")?;
    reads(rt, alloc, 70_000, &[2], 65_536, "failed")?;
    reads(rt, alloc, 70_000, &[3], 70_000, "failed")
}

/// A host that nobody asks reads all the same before it ends.
#[test]
fn all_bytes_are_posted_where_none_is_given(rt: HostRuntime) -> Result<(), Fail> {
    let alloc = rt.alloc();
    let flag = Flag::new(alloc)?;
    let host = host(rt, alloc, 2, source(alloc, 5_000_000, &[])?, &flag)?;
    let finished = host.finish();
    expect("ended", finished.ended)?;
    expect_same("posted", &finished.posted, &5_000_000)?;
    expect_same("taken", &finished.taken, &0)
}

/// What comes of a source of three bytes and of a timer that was ordered.
fn timer_and_bytes<R: Threads + Wait + 'static>(
    alloc: Global,
    host: &mut Reading<R>,
) -> Result<String, Fail>
    requires usable { host.old.poisoned ≡ false }
{
    order(host, alloc, Command::Timer(5))?;
    let first = told(host, alloc)?;
    let second = told(host, alloc)?;
    let third = match next(host)? {
        HostEvent::Ended => "ended",
        _ => "another event",
    };
    Ok(format!(in alloc; "{first}, {second}, {third}")?)
}

#[test]
fn orders_are_answered_before_bytes(rt: HostRuntime) -> Result<(), Fail> {
    let alloc = rt.alloc();
    let flag = Flag::new(alloc)?;
    let mut host = host(rt, alloc, 1, source(alloc, 3, &[])?, &flag)?;
    let told = timer_and_bytes(alloc, &mut host);
    drop(host.finish());
    expect_text("events", told?.as_str(), "timer 5, 3 bytes, ended")
}
