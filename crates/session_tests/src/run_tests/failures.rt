// How runs end: over a host and a sink of which one call fails, over a sink without memory, and by their bytes.
ghost use Rattle.std.specs.Prelude.{None, false};

use super::scripts::{given, ran, sink, steps, told};
use plain::Items;
use session_port::{HostError, Sink};
use std::alloc::Global;
use std::test::Fail;
use test_support::{expect_same, expect_text};

const LINES: &str =
    r#"- textDocument/didOpen {"textDocument":{"uri":"file:///w/a.rs","version":1,"text":"fn a() {}"}}
1 textDocument/hover {"textDocument":{"uri":"file:///w/a.rs"},"position":{"line":0,"character":3}}
finish 2
- exit null"#;

// That a run over peers of which one call fails writes so many turns, and ends with this.
fn writes(
    alloc: Global,
    host_fails: u64,
    sink_fails: u64,
    turns: usize,
    end: &str,
) -> Result<(), Fail> {
    let mut sink = sink(alloc, sink_fails)?;
    let fault = ran(alloc, 0, steps(alloc, LINES)?, host_fails, &mut sink)?;
    expect_same("turns", &sink.turns().len(), &turns)?;
    expect_text("how a run ends", told(alloc, fault)?.as_str(), end)
}

/// Each turn is written, its commands are ordered, and the next event is asked for. The first turn reads nothing, `exit` is
/// none, and its order is the ninth call of the host.
#[test]
fn each_call_fails(rt: HostRuntime) -> Result<(), Fail> {
    for (call, turns) in [(1, 0), (2, 1), (3, 2), (4, 3)] {
        writes(rt.alloc(), 0, call, turns, "the output failed")?;
    }
    for (call, turns) in [
        (1, 1),
        (2, 1),
        (3, 2),
        (4, 2),
        (5, 3),
        (6, 3),
        (7, 4),
        (8, 4),
        (9, 4),
    ] {
        writes(rt.alloc(), call, 0, turns, "the host failed")?;
    }
    writes(rt.alloc(), 10, 5, 4, "")
}

/// Has no memory for any turn.
#[derive(Drop)]
struct Crowded;

impl Sink for Crowded {
    ghost turns = { λ _. None };

    ghost faults = { λ _. 0 };

    ghost poisoned = { λ _. false };

    fn put_turn(&mut self, _bytes: &[u8]) -> Result<(), HostError> {
        Err(HostError::NoMemory)
    }
}

// That a session over this stream, behind so many bytes, ends with this.
fn ends(alloc: Global, place: u64, stream: &str, end: &str) -> Result<(), Fail> {
    let mut steps = Items::new(alloc);
    steps.push(given(alloc, stream)?)?;
    let mut sink = sink(alloc, 0)?;
    let fault = ran(alloc, place, steps, 0, &mut sink)?;
    expect_text(stream, told(alloc, fault)?.as_str(), end)
}

const EXIT: &str = "Content-Length: 33\r\n\r\n{\"jsonrpc\":\"2.0\",\"method\":\"exit\"}";

/// A good frame of 62 bytes, and a bad one.
const BAD: &str =
    "Content-Length: 40\r\n\r\n{\"jsonrpc\":\"2.0\",\"method\":\"initialized\"}Content-Type: x\r\n\r\n";

const LIST: &str = "Content-Length: 3\r\n\r\n[1]";

const GONE: &str = "client exited without proper shutdown sequence";

/// The last byte that is counted is that of the number 2^64 - 1.
#[test]
fn ends_are_told(rt: HostRuntime) -> Result<(), Fail> {
    let len = EXIT.len() as u64;
    for (place, stream, end) in [
        (0, BAD, "bad frame at byte 62"),
        (7, LIST, "bad message at byte 7"),
        (0, "", GONE),
        (u64::MAX - len, EXIT, ""),
        (u64::MAX - len + 1, EXIT, "counter exhausted: Bytes"),
    ] {
        ends(rt.alloc(), place, stream, end)?;
    }
    let fault = ran(rt.alloc(), 0, Items::new(rt.alloc()), 0, &mut Crowded)?;
    expect_text(
        "a sink without memory",
        told(rt.alloc(), fault)?.as_str(),
        "out of memory",
    )
}
