// Calls that end well where memory is left, and kinds of code actions.
use crate::answers::answers;
use crate::board::{are_copied, is_told};
use crate::tables::{are_texts, opens, sets_number, takes_contents};
use analysis_host::{AssistKind, assist_kind};
use std::alloc::Global;
use std::test::Fail;
use test_support::expect;

/// What is called, in words.
const CALLS: &str = "documents that are open
contents of files
texts of contents
numbers of files
a board of diagnostics
copies of diagnostics
places in a snapshot
a lens in a snapshot
URLs in a snapshot
a number in a snapshot
lines in a snapshot
a target in a snapshot
a package in a snapshot
kinds of code actions";

/// Whether kinds of code actions stand for their assists.
fn are_kinds() -> bool {
    assist_kind("") == Some(AssistKind::Generate)
        && assist_kind("refactor.inline") == Some(AssistKind::RefactorInline)
        && assist_kind("source").is_none()
}

/// Whether a call gives its answer.
fn ends_well(alloc: Global, call: &str) -> Option<bool> {
    match call {
        "documents that are open" => opens(alloc),
        "contents of files" => takes_contents(alloc),
        "texts of contents" => are_texts(alloc),
        "numbers of files" => sets_number(alloc),
        "a board of diagnostics" => is_told(alloc),
        "copies of diagnostics" => are_copied(alloc),
        "kinds of code actions" => Some(are_kinds()),
        _ => answers(alloc, call),
    }
}

#[test]
fn calls_end_well(rt: HostRuntime) -> Result<(), Fail> {
    for call in CALLS.lines() {
        expect(call, ends_well(rt.alloc(), call) == Some(true))?;
    }
    Ok(())
}
