// A session that is told of events in words.
use super::asking::Told;
use super::calls::answer_to;
use super::events::event_of;
use super::words::{fetch_text, shown, words};
use host_fakes::NullAnalysis;
use session_state::{GlobalState, TurnOut};
use std::alloc::Global;
use test_support::cut;

/// One turn, in words.
fn turn(alloc: Global, state: &mut GlobalState, event: &str) -> Option<String> {
    let event = event_of(alloc, event)?;
    let mut out = TurnOut::new(alloc);
    let done = state.handle_event(event, &NullAnalysis(alloc), &mut out);
    let text = words(alloc, &mut out, done);
    drop(out);
    text
}

/// Turn 0, in words.
fn start(alloc: Global, state: &mut GlobalState) -> Option<String> {
    let mut out = TurnOut::new(alloc);
    let done = state.start(&mut out);
    let text = words(alloc, &mut out, done);
    drop(out);
    text
}

/// What a snapshot of the present shows.
fn present(alloc: Global, state: &GlobalState, asked: &str) -> Option<String> {
    let snapshot = state.snapshot().ok()?;
    let text = shown(alloc, &snapshot, asked);
    drop(snapshot);
    text
}

/// The fetch that waits in the queue, in words.
fn cause(alloc: Global, state: &mut GlobalState) -> Option<String> {
    let fetch = state.dequeue_fetch(true);
    let text = fetch_text(alloc, &fetch);
    drop(fetch);
    text
}

fn mark_of(answer: bool) -> &'static str {
    if answer { "yes " } else { "no " }
}

/// What a call besides the turns answers, and what it writes.
fn call(alloc: Global, state: &mut GlobalState, call: &str) -> Option<String> {
    let mut out = TurnOut::new(alloc);
    let answer = answer_to(alloc, state, call, &mut out)?;
    let text = words(alloc, &mut out, Ok(()));
    drop(out);
    let text = [mark_of(answer), text?.as_str()].concat(alloc).ok()?;
    String::from_str(alloc, text.as_str().trim_ascii()).ok()
}

fn changed_of(some: bool) -> &'static str {
    if some { "changed " } else { "" }
}

/// Whether files have changed, and what is ordered where they are processed.
fn processed(alloc: Global, state: &mut GlobalState) -> Option<String> {
    let mut out = TurnOut::new(alloc);
    let (some, done) = match state.process_changes(&mut out) {
        Ok(some) => (some, Ok(())),
        Err(error) => (false, Err(error)),
    };
    let text = words(alloc, &mut out, done);
    drop(out);
    let text = [changed_of(some), text?.as_str()].concat(alloc).ok()?;
    String::from_str(alloc, text.as_str()).ok()
}

impl Told for GlobalState {
    /// The words `settings`, `at first`, `at second`, `root`, `graph`, `cause`, `process` and `start` are no events: they ask for
    /// the settings, for those of the first and of the second root, for the root of a file, for the crate graph that is shown, for the
    /// fetch that waits in the queue, for the processing of files, and for turn 0. Nor is `call` with the name of a call.
    fn told(&mut self, alloc: Global, event: &str) -> Option<String> {
        match event {
            "settings" | "at first" | "at second" | "root" | "graph" => {
                present(alloc, self, event)
            }
            "cause" => cause(alloc, self),
            "process" => processed(alloc, self),
            "start" => start(alloc, self),
            _ => match cut(event, " ") {
                ("call", name) => call(alloc, self, name),
                _ => turn(alloc, self, event),
            },
        }
    }
}
