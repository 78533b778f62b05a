// Calls that end well where memory is left.
use super::frames::{has_no_messages, tell_faults};
use super::hashes::{is_keyword, is_method};
use super::texts::{are_apart, becomes, has_lines, shares_index};
use super::values::{
    are_grown, are_members, go_in_order, is_plain, is_shared, stays_by_number, stays_by_text,
};
use std::alloc::Global;
use std::test::Fail;
use test_support::expect;

/// What is called, in words.
const CALLS: &str = "bytes go in order
bytes grow
members
a plain value
a shared value
a map by number
a map by text
a text with its edits
a text with its lines
an index that is shared
edits apart
edits not apart
messages of no pieces
faults of streams
the hash of a keyword
the hash of a method";

/// Whether a call gives its answer.
fn ends_well(alloc: Global, call: &str) -> Option<bool> {
    match call {
        "bytes go in order" => go_in_order(alloc),
        "bytes grow" => are_grown(alloc),
        "members" => are_members(alloc),
        "a plain value" => is_plain(alloc, "[1]"),
        "a shared value" => is_shared(alloc, "[7,\"b\"]"),
        "a map by number" => stays_by_number(alloc),
        "a map by text" => stays_by_text(alloc),
        "a text with its edits" => becomes(alloc, "a\nb", "0:1-1:0=\nțc & 0:1-1:1=d", "adcb"),
        "a text with its lines" => has_lines(alloc, "ab\n\né", 3),
        "an index that is shared" => shares_index(alloc, "é\r\n"),
        "edits apart" => are_apart(alloc, "2:2-3:3", true),
        "edits not apart" => are_apart(alloc, "1:1-5:5", false),
        "messages of no pieces" => has_no_messages(alloc),
        "faults of streams" => Some(tell_faults(alloc)),
        "the hash of a keyword" => is_keyword(alloc),
        "the hash of a method" => is_method(alloc),
        _ => None,
    }
}

#[test]
fn calls_end_well(rt: HostRuntime) -> Result<(), Fail> {
    for call in CALLS.lines() {
        expect(call, ends_well(rt.alloc(), call) == Some(true))?;
    }
    Ok(())
}
