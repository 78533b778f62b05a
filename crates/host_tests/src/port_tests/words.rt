// Events and calls in words. Where memory runs out, less is told than a test wants.
use host_fakes::{HostileHost, NullAnalysis, ScriptHost};
use inline_host::RecordedCall;
use plain::Items;
use session_port::{Host, HostError, HostEvent, JobResult, JobValue, TaskBody, TaskMsg};
use std::alloc::Global;

/// The number that a word is, or the greatest one.
pub fn number(word: &str) -> u64 {
    word.parse::<u64>().unwrap_or(u64::MAX)
}

/// Adds an item to a list, if there is one.
pub fn push<T: Drop>(list: &mut Items<T>, item: Option<T>) {
    if let Some(item) = item {
        let _ = list.push(item);
    }
}

/// The numbers among words, none where a `-` stands.
pub fn numbers(alloc: Global, words: &str) -> Items<u64> {
    let mut numbers = Items::new(alloc);
    for word in words.split(' ') {
        push(&mut numbers, word.parse::<u64>().ok());
    }
    numbers
}

/// Adds words to a text.
pub fn add(text: &mut String, more: &str) {
    let _ = text.push_str(more);
}

pub fn add_number(alloc: Global, text: &mut String, number: u64) {
    if let Ok(digits) = format!(in alloc; "{number}") {
        add(text, digits.as_str());
    }
}

fn add_bytes(text: &mut String, bytes: &[u8]) {
    match str::from_utf8(bytes) {
        Ok(read) => add(text, read),
        Err(_) => add(text, "no UTF-8"),
    }
}

/// A result in words.
pub fn result_text(outcome: &JobResult) -> &'static str {
    match outcome {
        JobResult::Value(JobValue::Json(value)) => {
            if value.is_null() { "null" } else { "value" }
        }
        JobResult::Value(JobValue::Diagnostics(lists)) => match lists.len() {
            2 => "two lists",
            _ => "lists",
        },
        JobResult::Value(JobValue::Tests(_)) => "tests",
        JobResult::Value(JobValue::Roots(_)) => "roots",
        JobResult::Value(JobValue::Primed) => "primed",
        JobResult::Value(JobValue::Workspaces(_)) => "workspaces",
        JobResult::Value(JobValue::BuildData(_)) => "build data",
        JobResult::Value(JobValue::ProcMacros(_)) => "proc macros",
        JobResult::Fault { .. } => "fault",
        JobResult::Cancelled { .. } => "cancelled",
        JobResult::NoMemory => "no memory",
    }
}

/// Adds results.
fn add_batch(alloc: Global, text: &mut String, batch: &[TaskMsg]) {
    for message in batch {
        add_number(alloc, text, message.job);
        add(text, ": ");
        add(
            text,
            match &message.body {
                TaskBody::Final(outcome) => result_text(outcome),
                TaskBody::Begin => "begun",
                TaskBody::Report(_) => "told",
                TaskBody::PrimeReport { .. } => "primes",
            },
        );
        add(text, ";");
    }
}

/// Adds an event.
fn add_given(alloc: Global, text: &mut String, event: &HostEvent) {
    match event {
        HostEvent::Bytes(bytes) => add_bytes(text, bytes.as_slice()),
        HostEvent::Ended => add(text, "ended"),
        HostEvent::Tasks(batch) => add_batch(alloc, text, batch.as_slice()),
        HostEvent::DeferredTask(_) => add(text, "deferred"),
        HostEvent::Vfs(_) => add(text, "loader"),
        HostEvent::Flycheck(_) => add(text, "checks"),
        HostEvent::TestResult(_) => add(text, "tests"),
        HostEvent::DiscoverProject(_) => add(text, "discovery"),
        HostEvent::Timer(ticket) => add_number(alloc, text, *ticket),
    }
}

/// Adds what a call gave, or that it failed. The one function that owns an event which a host gave.
pub fn add_event(alloc: Global, text: &mut String, event: Result<HostEvent, HostError>) {
    match &event {
        Ok(event) => add_given(alloc, text, event),
        Err(_) => add(text, "failed"),
    }
    drop(event);
    add(text, "|");
}

/// Adds of each call that it gave an event, or how many commands it took.
pub fn add_calls(alloc: Global, text: &mut String, calls: &[RecordedCall]) {
    for call in calls {
        match call.commands() {
            Some(commands) => add_number(alloc, text, commands.len() as u64),
            None => add(text, "event"),
        }
        add(text, "|");
    }
}

/// A host that may be called again after it failed and after the end. The call claims nothing here.
pub trait Tireless {
    /// Adds the next event, or that the call failed.
    fn add_next(&mut self, alloc: Global, text: &mut String);
}

impl Tireless for ScriptHost<'_, NullAnalysis> {
    fn add_next(&mut self, alloc: Global, text: &mut String) {
        add_event(alloc, text, self.next());
    }
}

impl Tireless for HostileHost {
    fn add_next(&mut self, alloc: Global, text: &mut String) {
        add_event(alloc, text, Host::<NullAnalysis>::next(self));
    }
}

/// Adds so many events of a host, and a ` > ` behind them.
pub fn add_events<H: Tireless>(alloc: Global, text: &mut String, host: &mut H, count: u64) {
    for _ in 0..count {
        host.add_next(alloc, text);
    }
    add(text, " > ");
}
