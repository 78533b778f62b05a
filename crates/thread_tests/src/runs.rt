// Whole sessions over a host with threads.
ghost use Rattle.std.specs.Prelude.{None, false};

use crate::flags::Flag;
use crate::hosts::{gated, host};
use crate::sources::Client;
use plain::Json;
use ra_config::Config;
use session::main_loop;
use session_port::{HostError, Sink};
use std::alloc::Global;
use std::str;
use std::sync::Wait;
use std::test::Fail;
use std::thread::Threads;
use test_support::expect_text;

/// Notes in which order the responses to the requests 1 and 2 come, and raises a flag at the
/// second's, one once so many are there, and one once the session is quiescent.
#[derive(Drop)]
struct Responses {
    quiescent: Flag,
    second: Flag,
    answered: Flag,
    awaited: usize,
    order: String,
}

impl Sink for Responses {
    ghost turns = { λ _. None };

    ghost faults = { λ _. 0 };

    ghost poisoned = { λ _. false };

    fn put_turn(&mut self, bytes: &[u8]) -> Result<(), HostError> {
        let text = str::from_utf8(bytes).unwrap_or("");
        if text.contains("\"quiescent\":true") {
            self.quiescent.raise();
        }
        if text.contains(r#"{"id":1,"jsonrpc":"2.0","result":null}"#) {
            self.order.push('1')?;
        }
        if text.contains(r#"{"id":2,"jsonrpc":"2.0","result":null}"#) {
            self.order.push('2')?;
            self.second.raise();
        }
        if self.order.len() >= self.awaited {
            self.answered.raise();
        }
        Ok(())
    }
}

/// The params of a client that is told when the session is quiescent: before, a request may be
/// answered without a job.
const PARAMS: &str =
    r#"{"rootUri":"file:///w","capabilities":{"experimental":{"serverStatusNotification":true}}}"#;

const OPENS: &str =
    "Content-Length: 151\r\n\r\n{\"jsonrpc\":\"2.0\",\"method\":\"textDocument/didOpen\",\
\"params\":{\"textDocument\":{\"uri\":\"file:///w/a.rs\",\"languageId\":\"rust\",\
\"version\":1,\"text\":\"fn a() {}\"}}}";

const HOVER: &str = "Content-Length: 141\r\n\r\n{\"jsonrpc\":\"2.0\",\"id\":1,\
\"method\":\"textDocument/hover\",\
\"params\":{\"textDocument\":{\"uri\":\"file:///w/a.rs\"},\"position\":{\"line\":0,\
\"character\":3}}}";

/// A hover and a completion.
const BOTH: &str = "Content-Length: 141\r\n\r\n{\"jsonrpc\":\"2.0\",\"id\":1,\
\"method\":\"textDocument/hover\",\
\"params\":{\"textDocument\":{\"uri\":\"file:///w/a.rs\"},\"position\":{\"line\":0,\
\"character\":3}}}Content-Length: 146\r\n\r\n{\"jsonrpc\":\"2.0\",\"id\":2,\
\"method\":\"textDocument/completion\",\
\"params\":{\"textDocument\":{\"uri\":\"file:///w/a.rs\"},\"position\":{\"line\":0,\
\"character\":3}}}";

const LEAVES: &str = "Content-Length: 33\r\n\r\n{\"jsonrpc\":\"2.0\",\"method\":\"exit\"}";

/// The settings of the client.
fn settings(alloc: Global) -> Option<Config> {
    let params = Json::read(alloc, PARAMS.as_bytes()).ok()??;
    let made = Config::from_initialize(alloc, &params, 4);
    drop(params);
    made.ok()?.ok()
}

fn client(alloc: Global, asks: &'static str, sink: &Responses) -> Result<Client, Fail> {
    Ok(Client {
        alloc,
        opens: OPENS,
        asks,
        leaves: LEAVES,
        quiescent: sink.quiescent.again()?,
        answered: sink.answered.again()?,
        given: 0,
    })
}

/// Runs a session in which a document is opened and this is asked; a hover waits for the second
/// response. Says whether it ended well.
fn ran<R: Threads + Wait + Drop + 'static>(
    rt: R,
    alloc: Global,
    asks: &'static str,
    sink: &mut Responses,
) -> Result<bool, Fail> {
    let Some(config) = settings(alloc) else {
        return Err(Fail::from("no settings"));
    };
    let client = client(alloc, asks, sink)?;
    let analysis = gated(alloc, &sink.second)?;
    let mut host = host(rt, alloc, 2, client, &sink.second)?;
    let is_well = main_loop(alloc, config, &mut host, sink, &analysis).is_ok();
    drop(host.finish());
    Ok(is_well)
}

/// The order of so many responses to what is asked, in a session that ends well.
fn order_of<R: Threads + Wait + Drop + 'static>(
    rt: R,
    alloc: Global,
    asks: &'static str,
    awaited: usize,
) -> Result<String, Fail> {
    let mut sink = Responses {
        quiescent: Flag::new(alloc)?,
        second: Flag::new(alloc)?,
        answered: Flag::new(alloc)?,
        awaited,
        order: String::new(alloc),
    };
    if awaited == 1 {
        // No second one comes.
        sink.second.raise();
    }
    if !ran(rt, alloc, asks, &mut sink)? {
        return Err(Fail::from("the session did not end by exit"));
    }
    Ok(sink.order)
}

#[test]
fn one_request_is_answered(rt: HostRuntime) -> Result<(), Fail> {
    let order = order_of(rt, rt.alloc(), HOVER, 1)?;
    expect_text("one response", order.as_str(), "1")
}

/// The query of the first request waits until the response to the second is written. Where jobs run
/// one after the other, the first response comes first.
#[test]
fn jobs_run_beside_one_another(rt: HostRuntime) -> Result<(), Fail> {
    let order = order_of(rt, rt.alloc(), BOTH, 2)?;
    expect_text("two responses", order.as_str(), "21")
}
