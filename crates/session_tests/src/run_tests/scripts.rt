// Runs of a session by scripts: one event a line.
ghost use Rattle.std.specs.Prelude.{◌≡◌, false};
ghost use Rattle.std.specs.FinMap as map;

use crate::state_tests::asking::settings;
use analysis_host::Analysis;
use host_fakes::{MemorySink, ScriptHost, ScriptStep};
use lsp_frame::FrameReader;
use plain::{Bytes, Items};
use ra_config::Config;
use session::{SessionError, main_loop_from};
use session_port::{Host, HostEvent, Sink};
use small_analysis::SmallAnalysis;
use std::alloc::Global;
use std::test::Fail;
use test_support::cut;

/// The body of `ID METHOD PARAMS`, or of a notification where the line begins with `-`.
fn body_of(alloc: Global, line: &str) -> Result<String, Fail> {
    let (id, rest) = cut(line, " ");
    let (method, params) = cut(rest, " ");
    if id == "-" {
        return Ok(format!(in alloc; "{{\"method\":\"{method}\",\"params\":{params}}}")?);
    }
    Ok(format!(in alloc; "{{\"id\":{id},\"method\":\"{method}\",\"params\":{params}}}")?)
}

/// The frame of a message.
fn frame_of(alloc: Global, line: &str) -> Result<String, Fail> {
    let body = body_of(alloc, line)?;
    let len = body.len();
    Ok(format!(in alloc; "Content-Length: {len}\r\n\r\n{body}")?)
}

/// The step that gives these bytes.
pub fn given(alloc: Global, bytes: &str) -> Result<ScriptStep, Fail> {
    let bytes = Bytes::from_slice(alloc, bytes.as_bytes())?;
    Ok(ScriptStep::Give(HostEvent::Bytes(bytes)))
}

/// The number that a word is, or 0.
fn number(word: &str) -> u64 {
    word.parse::<u64>().unwrap_or(0)
}

/// A list of one number.
fn one(alloc: Global, number: u64) -> Result<Items<u64>, Fail> {
    Ok(Items::from_vec(Vec::from_slice(alloc, &[number])?))
}

/// `finish JOB`, or a message. Job 1 is the fetch that the start hands over.
fn step(alloc: Global, line: &str) -> Result<ScriptStep, Fail> {
    match cut(line, " ") {
        ("finish", job) => Ok(ScriptStep::Finish(one(alloc, number(job))?)),
        _ => given(alloc, frame_of(alloc, line)?.as_str()),
    }
}

/// The steps of these lines.
pub fn steps(alloc: Global, lines: &str) -> Result<Items<ScriptStep>, Fail> {
    let mut steps = Items::new(alloc);
    for line in lines.lines() {
        steps.push(step(alloc, line)?)?;
    }
    Ok(steps)
}

// What a run behind so many bytes of a stream ends with, if it doesn't end well. This call claims nothing here.
fn fault<H: Host<A>, S: Sink, A: Analysis>(
    alloc: Global,
    config: Config,
    place: u64,
    host: &mut H,
    sink: &mut S,
    analysis: &A,
) -> Option<SessionError>
    requires idle { H.out host.old ≡ map.empty }
    requires unused { H.last_job host.old ≡ 0 }
    requires host_usable { H.poisoned host.old ≡ false }
    requires sink_usable { S.poisoned sink.old ≡ false }
{
    let reader = FrameReader::new_at(alloc, place);
    main_loop_from(alloc, config, reader, host, sink, analysis).err()
}

/// What a run over these steps and this sink ends with, if it doesn't end well. The call of the host with this number fails;
/// none has the number 0. Each `?` lets go of settings or of lists.
pub fn ran<S: Sink>(
    alloc: Global,
    place: u64,
    steps: Items<ScriptStep>,
    fails: u64,
    sink: &mut S,
) -> Result<Option<SessionError>, Fail>
    requires sink_usable { S.poisoned sink.old ≡ false }
{
    let config = settings(alloc, "").ok_or("no settings")?;
    let fails = one(alloc, fails)?;
    let analysis = SmallAnalysis::new(alloc);
    let mut host = ScriptHost::new(alloc, &analysis, steps, fails)?;
    let fault = fault(alloc, config, place, &mut host, sink, &analysis);
    drop(host);
    Ok(fault)
}

/// A sink of which the call with this number fails; none has the number 0.
pub fn sink(alloc: Global, fails: u64) -> Result<MemorySink, Fail> {
    Ok(MemorySink::new(alloc, one(alloc, fails)?))
}

/// What a run ended with, in words; none where it ended well.
pub fn told(alloc: Global, fault: Option<SessionError>) -> Result<String, Fail> {
    match fault {
        Some(fault) => Ok(format!(in alloc; "{fault}")?),
        None => Ok(String::new(alloc)),
    }
}
