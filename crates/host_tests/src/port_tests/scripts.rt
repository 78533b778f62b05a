// Hosts that follow a script, and hosts that give whatever they were told to give. Where memory runs
// out, a call answers none, or less comes than a test wants.
ghost use Rattle.session_port.specs.Record.{AreRising, spawned};

use super::fixtures::{commands_of, end_of, news_of};
use super::words::{add, add_calls, add_events, number, numbers, push};
use host_fakes::{HostileHost, NullAnalysis, ScriptHost, ScriptStep};
use plain::{Bytes, Items};
use session_port::{Command, Host, HostError, HostEvent, TaskBody, TaskMsg};
use std::alloc::Global;
use std::test::Fail;
use test_support::{cut, expect_text};

/// `timer` is a timer's event, `end` the end, `bytes` are given, `message` is that a job has this end, `begin` that it has begun, and else it
/// is news of this kind, if it is some.
fn event_of(alloc: Global, words: &str) -> Option<HostEvent> {
    let (word, rest) = cut(words, " ");
    match word {
        "timer" => Some(HostEvent::Timer(5)),
        "end" => Some(HostEvent::Ended),
        "bytes" => match Bytes::from_slice(alloc, rest.as_bytes()) {
            Ok(bytes) => Some(HostEvent::Bytes(bytes)),
            Err(_) => None,
        },
        "message" => {
            let (job, end) = cut(rest, " ");
            let mut batch = Items::new(alloc);
            let _ = batch.push(TaskMsg {
                job: number(job),
                body: TaskBody::Final(end_of(alloc, end)),
            });
            Some(HostEvent::Tasks(batch))
        }
        "begin" => {
            let mut batch = Items::new(alloc);
            let _ = batch.push(TaskMsg {
                job: number(rest),
                body: TaskBody::Begin,
            });
            Some(HostEvent::Tasks(batch))
        }
        _ => news_of(alloc, word),
    }
}

/// `finish` with the numbers of jobs, `stop` with a job and the revision that it saw, `supply` with a job and its end, else an event that
/// is given.
fn step_of(alloc: Global, words: &str) -> Option<ScriptStep> {
    let (word, rest) = cut(words, " ");
    match word {
        "finish" => Some(ScriptStep::Finish(numbers(alloc, rest))),
        "stop" => {
            let (job, saw) = cut(rest, " ");
            Some(ScriptStep::Cancel(number(job), number(saw)))
        }
        "supply" => {
            let (job, end) = cut(rest, " ");
            Some(ScriptStep::Supply(number(job), end_of(alloc, end)))
        }
        _ => match event_of(alloc, words) {
            Some(event) => Some(ScriptStep::Give(event)),
            None => None,
        },
    }
}

pub fn steps(alloc: Global, words: &str) -> Items<ScriptStep> {
    let mut steps = Items::new(alloc);
    for one in words.split(", ") {
        push(&mut steps, step_of(alloc, one));
    }
    steps
}

fn events(alloc: Global, words: &str) -> Items<HostEvent> {
    let mut events = Items::new(alloc);
    for one in words.split(", ") {
        push(&mut events, event_of(alloc, one));
    }
    events
}

/// Adds what an order comes to.
fn add_order(text: &mut String, outcome: Result<(), HostError>) {
    match outcome {
        Ok(()) => add(text, "taken > "),
        Err(HostError::Failed) => add(text, "failed > "),
        Err(HostError::NoMemory) => add(text, "no memory > "),
    }
}

/// Adds what a host does that follows a script: what comes of the order, so many events, and the calls. The one
/// function that owns such a host.
fn run_script(
    alloc: Global,
    text: &mut String,
    script: &str,
    fails: &str,
    commands: Items<Command>,
    count: u64,
)
    requires { AreRising 0 (spawned commands) }
{
    let analysis = NullAnalysis(alloc);
    let (steps, fails) = (steps(alloc, script), numbers(alloc, fails));
    let mut host = match ScriptHost::new(alloc, &analysis, steps, fails) {
        Ok(host) => host,
        Err(_) => {
            drop(commands);
            return;
        }
    };
    add_order(text, host.order(commands));
    add_events(alloc, text, &mut host, count);
    add_calls(alloc, text, host.calls());
    drop(host);
}

/// The same of a host that gives these events as they are.
fn run_hostile(alloc: Global, text: &mut String, script: &str, commands: Items<Command>, count: u64)
    requires { AreRising 0 (spawned commands) }
{
    let mut host = HostileHost::new(alloc, events(alloc, script));
    add_order(text, Host::<NullAnalysis>::order(&mut host, commands));
    add_events(alloc, text, &mut host, count);
    add_calls(alloc, text, host.calls());
    drop(host);
}

/// Adds what comes of a case.
fn add_case(
    alloc: Global,
    text: &mut String,
    kind: &str,
    orders: &str,
    fails: &str,
    script: &str,
    count: u64,
) {
    let Some(commands) = commands_of(alloc, orders) else {
        return;
    };
    if kind == "script" {
        run_script(alloc, text, script, fails, commands, count);
    } else {
        run_hostile(alloc, text, script, commands, count);
    }
}

/// Whether a host follows a script or gives what no honest host does; whether the jobs 7 and 9 are ordered first, the second a request's too, a
/// check or the host's own, or nothing; the numbers of the calls that fail; the steps; how many events are asked for. Then
/// what comes of the order, the events, each before a `|`, and the calls that were recorded: how many commands were taken, or an event.
///
/// Jobs are finished, by numbers of which some name none. The order is the first call, and so the second event is the third. Job 7 is stopped by
/// steps of which most give nothing. Job 9 is a check: it is finished as a request's, and not supplied. Job 9 is the host's own: it is not
/// finished, and gets no end that does not fit it, but it may stop; job 7 is not supplied. The first order fails. The last gives results that it made
/// up. Each kind of news is given, and each order of checks, tests and discoveries taken. That a job has begun is no script's to say, and leaves
/// the job out.
const CASES: &str =
    "script > jobs > 3 4 > bytes ab, finish 9 8 9, finish 9, end, finish 9 7 > 8 > taken > ab|failed|failed|9: null;||ended|7: null;|ended| > 2|event|event|event|event|event|event|
script > jobs > - > message 7 full, stop 7 0, stop 8 5, stop 7 1, stop 7 2, finish 7 9 > 4 > taken > 7: cancelled;|9: null;|ended|ended| > 2|event|event|event|event|
script > check > - > supply 9 full, finish 9 7, finish 9 > 3 > taken > 9: roots;7: null;||ended| > 2|event|event|event|
script > builds > - > finish 9 7, supply 7 json, supply 9 json, supply 9 early, timer, supply 9 builds, supply 9 late > 4 > taken > 7: null;|5|9: build data;|ended| > 2|event|event|event|event|
script > builds > - > supply 9 late > 2 > taken > 9: cancelled;|ended| > 2|event|event|
script > nothing > 1 1 > bytes ab, finish 9 8 9, finish 9, end, finish 9 7 > 2 > failed > ab|| > event|event|
script > set checks > - > checks, tests, begin 9 > 3 > taken > checks|tests|ended| > 1|event|event|event|
script > restart check > - > discovery > 1 > taken > discovery| > 1|event|
hostile > builds > - > begin 9, checks, begin 7, message 9 builds > 4 > taken > 9: begun;|checks|7: begun;|9: build data;| > 2|event|event|event|event|
hostile > run tests > - > tests, discovery > 2 > taken > tests|discovery| > 1|event|event|
hostile > jobs > - > message 5 json, bytes x, message 7 early > 5 > taken > 5: null;|x|7: cancelled;|ended|ended| > 2|event|event|event|event|event|";

#[test]
fn hosts_give_what_they_are_told(rt: HostRuntime) -> Result<(), Fail> {
    for line in CASES.lines() {
        let (kind, rest) = cut(line, " > ");
        let (orders, rest) = cut(rest, " > ");
        let (fails, rest) = cut(rest, " > ");
        let (script, rest) = cut(rest, " > ");
        let (count, wanted) = cut(rest, " > ");
        let count = number(count);
        let mut text = String::new(rt.alloc());
        add_case(rt.alloc(), &mut text, kind, orders, fails, script, count);
        expect_text(line, text.as_str(), wanted)?;
    }
    Ok(())
}
