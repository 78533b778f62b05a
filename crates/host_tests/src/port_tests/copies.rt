// Copies of what is ordered, and of what a loader brings.
use super::fixtures::{commands_of, news_of, path};
use plain::{Bytes, Items};
use session_port::{LoadedFile, LoaderMsg};
use std::alloc::Global;
use std::test::Fail;
use test_support::expect;

/// Whether a value can be copied.
fn copies<T: Clone + Drop>(value: T) -> bool {
    let copy = value.clone().ok();
    drop(value);
    copy.is_some()
}

fn are_commands_copied(alloc: Global, word: &str) -> Option<bool> {
    Some(copies(commands_of(alloc, word)?))
}

fn is_news_copied(alloc: Global, word: &str) -> Option<bool> {
    Some(copies(news_of(alloc, word)?))
}

fn is_message_copied(alloc: Global) -> Option<bool> {
    let (path, bytes) = path(alloc, "/a").zip(Bytes::from_slice(alloc, b"a").ok())?;
    let mut files = Items::new(alloc);
    let _ = files.push(LoadedFile {
        path,
        contents: Some(bytes),
    });
    Some(copies(LoaderMsg::Loaded { files }))
}

/// Orders: jobs of each kind, and others.
const ORDERS: &str =
    "builds, part, syntax, tests, indexed, scope, prime, check, set checks, restart check, cancel check, run tests, stop tests, discover";

/// What checks, a test run and a discovery tell.
const NEWS: &str = "checks, tests, discovery";

#[test]
fn values_are_copied(rt: HostRuntime) -> Result<(), Fail> {
    for word in ORDERS.split(", ") {
        expect(word, are_commands_copied(rt.alloc(), word) == Some(true))?;
    }
    for word in NEWS.split(", ") {
        expect(word, is_news_copied(rt.alloc(), word) == Some(true))?;
    }
    expect(
        "a message of a loader",
        is_message_copied(rt.alloc()) == Some(true),
    )
}
