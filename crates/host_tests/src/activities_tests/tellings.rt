// Tellings in words. Where memory runs out, less is told than a test wants.
use activities::Telling;
use notify::TestReport;
use plain::{Items, Text};
use project_model::CheckScope;
use session_port::{DiscoverArg, LogCode};
use std::alloc::Global;

fn add(text: &mut String, more: &str) {
    let _ = text.push_str(more);
}

fn add_number(alloc: Global, text: &mut String, number: u64) {
    if let Ok(digits) = format!(in alloc; "{number}") {
        add(text, digits.as_str());
    }
}

// A word and a text, where there is one.
fn add_some(text: &mut String, word: &str, more: &Option<Text>) {
    if let Some(more) = more {
        add(text, word);
        add(text, more.as_str());
    }
}

fn add_share(alloc: Global, text: &mut String, percentage: Option<u32>) {
    if let Some(percentage) = percentage {
        add(text, " at ");
        add_number(alloc, text, percentage as u64);
    }
}

fn report_word(state: &TestReport) -> &str {
    match state {
        TestReport::Started => "started",
        TestReport::Skipped => "skipped",
        TestReport::Passed => "passed",
        TestReport::Failed { message } => message.as_str(),
    }
}

fn code_word(code: LogCode) -> &'static str {
    match code {
        LogCode::DiscoverWithoutSettings => "no settings",
        LogCode::DiscoverError => "discovery",
        _ => "other",
    }
}

fn scope_word(scope: &CheckScope) -> &str {
    match scope {
        CheckScope::Workspace { saved: None } => "all",
        CheckScope::Workspace { saved: Some(path) } => path.as_str(),
        CheckScope::Package { .. } => "package",
    }
}

fn arg_word(arg: &DiscoverArg) -> &str {
    match arg {
        DiscoverArg::Buildfile(path) => path.as_str(),
        DiscoverArg::Path(path) => path.as_str(),
    }
}

// Work that begins, goes on or has ended, and an error that is shown.
fn add_shown(alloc: Global, text: &mut String, telling: &Telling) {
    match telling {
        Telling::Begin {
            title,
            token,
            message,
            percentage,
        } => {
            add(text, "begin ");
            add(text, title.as_str());
            add_some(text, " under ", token);
            add_some(text, ": ", message);
            add_share(alloc, text, *percentage);
        }
        Telling::Report {
            title,
            token,
            message,
            percentage,
        } => {
            add(text, "report ");
            add(text, title.as_str());
            add_some(text, " under ", token);
            add_some(text, ": ", message);
            add_share(alloc, text, *percentage);
        }
        Telling::End {
            title,
            token,
            message,
        } => {
            add(text, "end ");
            add(text, title.as_str());
            add_some(text, " under ", token);
            add_some(text, ": ", message);
        }
        Telling::ShowError { message, button } => {
            add(text, if *button { "ask " } else { "show " });
            add(text, message.as_str());
        }
        _ => add(text, "?"),
    }
}

// Checks that are ordered.
fn add_order(alloc: Global, text: &mut String, telling: &Telling) {
    match telling {
        Telling::SetChecks(checks) => {
            add(text, "set");
            for check in checks.as_slice() {
                add(text, " ");
                add_number(alloc, text, check.0);
                add(text, check.1.as_str());
            }
        }
        Telling::RestartCheck { id, scope } => {
            add(text, "restart ");
            add_number(alloc, text, *id);
            add(text, " ");
            add(text, scope_word(scope));
        }
        Telling::CancelCheck(id) => {
            add(text, "cancel ");
            add_number(alloc, text, *id);
        }
        _ => add_shown(alloc, text, telling),
    }
}

fn add_telling(alloc: Global, text: &mut String, telling: &Telling) {
    match telling {
        Telling::TestState { state, test_id } => {
            add(text, test_id.as_str());
            add(text, " ");
            add(text, report_word(state));
        }
        Telling::EndRunTest => add(text, "ended"),
        Telling::AppendOutput(line) => {
            add(text, "output ");
            add(text, line.as_str());
        }
        Telling::Log(code, line) => {
            add(text, "log ");
            add(text, code_word(*code));
            for part in line.as_str().lines() {
                add(text, " ");
                add(text, part);
            }
        }
        Telling::RunTest { .. } => add(text, "run"),
        Telling::StopTest => add(text, "stop"),
        Telling::Discover(arg) => {
            add(text, "discover ");
            add(text, arg_word(arg));
        }
        _ => add_order(alloc, text, telling),
    }
}

/// What is told, each behind the one before; or that there was no answer. The one function that owns tellings.
pub fn words_of(alloc: Global, tellings: Option<Items<Telling>>) -> String {
    let mut text = String::new(alloc);
    match &tellings {
        None => add(&mut text, "nothing answered"),
        Some(tellings) => {
            let mut front = "";
            for telling in tellings.as_slice() {
                add(&mut text, front);
                add_telling(alloc, &mut text, telling);
                front = "; ";
            }
        }
    }
    drop(tellings);
    text
}
