// Peers that are lent.
ghost use Rattle.std.specs.Prelude.{◌≡◌, false};

use super::scripts::steps;
use super::words::{add, add_calls, add_event, add_number};
use host_fakes::{MemorySink, MemorySource, NullAnalysis, ScriptHost};
use plain::{Bytes, Items};
use session_port::{Host, HostError, HostEvent, Sink, Source};
use std::alloc::Global;
use std::test::Fail;
use test_support::expect_text;

/// Whether a sink that is handed over takes a turn.
fn takes<S: Sink + Drop>(mut sink: S, bytes: &[u8]) -> bool
    requires { S.poisoned sink ≡ false }
{
    sink.put_turn(bytes).is_ok()
}

/// Whether a source that is handed over gives a piece.
fn gives<S: Source>(mut source: S) -> bool
    requires { S.poisoned source ≡ false }
{
    matches!(source.read_piece(2), Ok(Some(_)))
}

/// The next event of a host that is handed over.
fn next_of<H: Host<NullAnalysis> + Drop>(mut host: H) -> Result<HostEvent, HostError>
    requires { H.poisoned host ≡ false }
{
    host.next()
}

/// Adds what a source and a sink that are lent do, and what is left in them.
fn add_lent_peers(alloc: Global, text: &mut String) {
    if let Ok(bytes) = Bytes::from_slice(alloc, b"abc") {
        let mut source = MemorySource::new(alloc, bytes, Items::new(alloc));
        let gives = gives(&mut source);
        add(text, if gives { "gives " } else { "gives not " });
        add_number(alloc, text, source.left().len() as u64);
        drop(source);
    }
    let mut sink = MemorySink::new(alloc, Items::new(alloc));
    let takes = takes(&mut sink, b"ab");
    add(text, if takes { " takes " } else { " takes not " });
    add_number(alloc, text, sink.turns().len() as u64);
    drop(sink);
}

/// Adds the first event of a host that is lent, and its calls.
fn add_lent_host(alloc: Global, text: &mut String) {
    let steps = steps(alloc, "bytes ab, end");
    let analysis = NullAnalysis(alloc);
    if let Ok(mut host) = ScriptHost::new(alloc, &analysis, steps, Items::new(alloc)) {
        add(text, " ");
        add_event(alloc, text, next_of(&mut host));
        add_calls(alloc, text, host.calls());
        drop(host);
    }
}

#[test]
fn lent_peers_are_peers(rt: HostRuntime) -> Result<(), Fail> {
    let mut text = String::new(rt.alloc());
    add_lent_peers(rt.alloc(), &mut text);
    add_lent_host(rt.alloc(), &mut text);
    expect_text("peers", text.as_str(), "gives 1 takes 1 ab|event|")
}
