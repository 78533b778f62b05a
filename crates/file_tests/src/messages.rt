// JSON that nothing sends yet, from words: the server's own messages, and values that stand in answers, each in a line of its own. Each call
// answers none also where memory runs out.
ghost use Rattle.notify.specs.Writing.{HoldsPlain};

use crate::calls::{add, json, text_of};
use crate::forms::form;
use notify::{MessageKind, Outgo, ProgressValue, TestReport, is_request, outgo_body};
use plain::{Items, Json, Text};
use std::alloc::Global;
use std::test::Fail;
use test_support::{cut, expect};

/// `q` for a request and `n` for a notification.
fn letter(message: &Outgo) -> &'static str {
    if is_request(message) { "q" } else { "n" }
}

fn body_of(alloc: Global, message: Outgo) -> Option<(Text, Json)>
    requires { HoldsPlain message }
{
    outgo_body(alloc, message).ok()
}

fn shown(alloc: Global, letter: &str, method: &str, params: &Json) -> Option<String> {
    let params = params.as_value().to_string(alloc).ok()?;
    let mut line = String::new(alloc);
    add(&mut line, letter);
    add(&mut line, " ");
    add(&mut line, method);
    add(&mut line, " ");
    add(&mut line, params.as_str());
    Some(line)
}

/// A line: its letter, the method, the params. The one function that owns a message.
fn line(alloc: Global, message: Outgo) -> Option<String>
    requires { HoldsPlain message }
{
    let letter = letter(&message);
    let (method, params) = body_of(alloc, message)?;
    shown(alloc, letter, method.as_str(), &params)
}

fn add_texts(alloc: Global, list: &mut Items<Text>, words: &str) -> Option<()> {
    for word in words.split_whitespace() {
        list.push(text_of(alloc, word)?).ok()?;
    }
    Some(())
}

/// A text for each word.
fn texts_of(alloc: Global, words: &str) -> Option<Items<Text>> {
    let mut list = Items::new(alloc);
    add_texts(alloc, &mut list, words)?;
    Some(list)
}

/// By the token.
fn create(alloc: Global, token: &str) -> Option<String> {
    let token = text_of(alloc, token)?;
    line(alloc, Outgo::CreateProgress { token })
}

/// The message behind `=`; a word without it is none.
fn message_of(alloc: Global, word: &str) -> Option<Option<Text>> {
    match word.strip_prefix("=") {
        Some(message) => Some(Some(text_of(alloc, message)?)),
        None => Some(None),
    }
}

/// A number; any other word is none.
fn percentage_of(word: &str) -> Option<u32> {
    word.parse().ok()
}

/// By whether work can be cancelled, its message and its percentage.
fn begin(alloc: Global, words: &str) -> Option<String> {
    let (cancellable, rest) = cut(words, " ");
    let (message, percentage) = cut(rest, " ");
    let token = text_of(alloc, "t")?;
    let title = text_of(alloc, "T")?;
    let message = message_of(alloc, message)?;
    let value = ProgressValue::Begin {
        cancellable: cancellable == "yes",
        message,
        percentage: percentage_of(percentage),
        title,
    };
    line(alloc, Outgo::Progress { token, value })
}

/// By whether work can be cancelled, its message and its percentage.
fn report(alloc: Global, words: &str) -> Option<String> {
    let (cancellable, rest) = cut(words, " ");
    let (message, percentage) = cut(rest, " ");
    let token = text_of(alloc, "t")?;
    let message = message_of(alloc, message)?;
    let value = ProgressValue::Report {
        cancellable: cancellable == "yes",
        message,
        percentage: percentage_of(percentage),
    };
    line(alloc, Outgo::Progress { token, value })
}

/// By the last message of work.
fn end(alloc: Global, word: &str) -> Option<String> {
    let token = text_of(alloc, "t")?;
    let message = message_of(alloc, word)?;
    let value = ProgressValue::End { message };
    line(alloc, Outgo::Progress { token, value })
}

fn kind_of(word: &str) -> Option<MessageKind> {
    match word {
        "error" => Some(MessageKind::Error),
        "warning" => Some(MessageKind::Warning),
        "info" => Some(MessageKind::Info),
        _ => None,
    }
}

/// By the kind of a message.
fn show(alloc: Global, word: &str) -> Option<String> {
    let kind = kind_of(word)?;
    let message = text_of(alloc, "m\n")?;
    line(alloc, Outgo::ShowMessage { message, kind })
}

/// By the kind of a message.
fn ask(alloc: Global, word: &str) -> Option<String> {
    let kind = kind_of(word)?;
    let message = text_of(alloc, "m")?;
    line(alloc, Outgo::ShowMessageRequest { message, kind })
}

/// No tests, by the files that were searched.
fn found(alloc: Global, words: &str) -> Option<String> {
    let uris = texts_of(alloc, words)?;
    line(
        alloc,
        Outgo::DiscoveredTests {
            uris,
            tests: Items::new(alloc),
        },
    )
}

/// One test, whose value must be plain.
fn found_one(alloc: Global, test: Json) -> Option<String> {
    if !test.is_plain() {
        return None;
    }
    let uris = Items::new(alloc);
    let mut tests = Items::new(alloc);
    match tests.push(test) {
        Ok(()) => line(alloc, Outgo::DiscoveredTests { uris, tests }),
        Err(_) => None,
    }
}

fn failed(alloc: Global, message: &str) -> Option<TestReport> {
    let message = text_of(alloc, message)?;
    Some(TestReport::Failed { message })
}

fn report_of(alloc: Global, words: &str) -> Option<TestReport> {
    let (kind, message) = cut(words, " ");
    match kind {
        "started" => Some(TestReport::Started),
        "skipped" => Some(TestReport::Skipped),
        "passed" => Some(TestReport::Passed),
        "failed" => failed(alloc, message),
        _ => None,
    }
}

/// By what became of a test.
fn state(alloc: Global, words: &str) -> Option<String> {
    let test_id = text_of(alloc, "a_b::c")?;
    let state = report_of(alloc, words)?;
    line(alloc, Outgo::TestState { state, test_id })
}

fn output(alloc: Global) -> Option<String> {
    let text = text_of(alloc, "a\nb")?;
    line(alloc, Outgo::AppendOutput { text })
}

/// The line that is written for a message, by its kind and what the kind needs.
fn written(alloc: Global, words: &str) -> Option<String> {
    let (kind, rest) = cut(words, " ");
    match kind {
        "logs" => line(alloc, Outgo::OpenLogs),
        "ended" => line(alloc, Outgo::EndRunTest),
        "create" => create(alloc, rest),
        "begin" => begin(alloc, rest),
        "report" => report(alloc, rest),
        "end" => end(alloc, rest),
        "show" => show(alloc, rest),
        "ask" => ask(alloc, rest),
        "found" => found(alloc, rest),
        "test" => found_one(alloc, json(alloc, rest)?),
        "state" => state(alloc, rest),
        "output" => output(alloc),
        _ => form(alloc, kind),
    }
}

/// What is written, and words that tell the message. A token is created by its text; work begins, goes on and ends by whether it can be
/// cancelled, its message behind `=`, and its percentage. Messages are shown, and shown with a button, by their kind. Tests are found, by
/// the files that were searched, or by the value of one; then what became of a test, and the output of tests. The last are values: a range, a
/// text edit, and a diagnostic without more and with all that it may have.
const WRITTEN: &str = r#"n experimental/openServerLogs null > logs
n experimental/endRunTest null > ended
q window/workDoneProgress/create {"token":"t \"1\""} > create t "1"
n $/progress {"token":"t","value":{"cancellable":false,"kind":"begin","title":"T"}} > begin no none none
n $/progress {"token":"t","value":{"cancellable":true,"kind":"begin","message":"m","percentage":100,"title":"T"}} > begin yes =m 100
n $/progress {"token":"t","value":{"cancellable":true,"kind":"begin","percentage":0,"title":"T"}} > begin yes none 0
n $/progress {"token":"t","value":{"cancellable":false,"kind":"begin","message":"","title":"T"}} > begin no = none
n $/progress {"token":"t","value":{"cancellable":false,"kind":"report"}} > report no none none
n $/progress {"token":"t","value":{"cancellable":true,"kind":"report","message":"m","percentage":100}} > report yes =m 100
n $/progress {"token":"t","value":{"cancellable":true,"kind":"report","percentage":0}} > report yes none 0
n $/progress {"token":"t","value":{"cancellable":false,"kind":"report","message":""}} > report no = none
n $/progress {"token":"t","value":{"kind":"end"}} > end none
n $/progress {"token":"t","value":{"kind":"end","message":"m"}} > end =m
n window/showMessage {"message":"m\n","type":1} > show error
n window/showMessage {"message":"m\n","type":3} > show info
q window/showMessageRequest {"actions":[{"title":"Open server logs"}],"message":"m","type":1} > ask error
q window/showMessageRequest {"actions":[{"title":"Open server logs"}],"message":"m","type":2} > ask warning
q window/showMessageRequest {"actions":[{"title":"Open server logs"}],"message":"m","type":3} > ask info
n experimental/discoveredTests {"scope":null,"scopeFile":[],"tests":[]} > found
n experimental/discoveredTests {"scope":null,"scopeFile":[{"uri":"a"},{"uri":"b"}],"tests":[]} > found a b
n experimental/discoveredTests {"scope":null,"scopeFile":[],"tests":[{"id":"a","kind":7}]} > test {"id":"a","kind":7}
n experimental/changeTestState {"state":{"kind":"started"},"testId":"a_b::c"} > state started
n experimental/changeTestState {"state":{"kind":"skipped"},"testId":"a_b::c"} > state skipped
n experimental/changeTestState {"state":{"kind":"passed"},"testId":"a_b::c"} > state passed
n experimental/changeTestState {"state":{"kind":"failed","message":"m"},"testId":"a_b::c"} > state failed m
n experimental/appendOutputToRunTest "a\nb" > output
{"end":{"character":8,"line":0},"start":{"character":7,"line":0}} > range
{"newText":"a\n","range":{"end":{"character":8,"line":0},"start":{"character":7,"line":0}}} > edit
{"message":"unmatched bracket","range":{"end":{"character":8,"line":0},"start":{"character":7,"line":0}},"severity":1,"source":"ra_serve"} > least
{"code":"E1","message":"\"","range":{"end":{"character":8,"line":0},"start":{"character":7,"line":0}},"relatedInformation":[{"location":{"range":{"end":{"character":8,"line":0},"start":{"character":7,"line":0}},"uri":"file:///w/a%20b.rs"},"message":"here"}]} > most"#;

/// Whether what stands first is written for the words behind it.
fn agrees(alloc: Global, line: &str) -> Option<bool> {
    let (wanted, words) = cut(line, " > ");
    Some(written(alloc, words)?.as_str() == wanted)
}

#[test]
fn json_that_nothing_sends_yet(rt: HostRuntime) -> Result<(), Fail> {
    for line in WRITTEN.lines() {
        expect(line, agrees(rt.alloc(), line) == Some(true))?;
    }
    Ok(())
}
