// Steps that are counted: of maps that stay as they were, and of edits under a limit.
ghost use Rattle.std.specs.Prelude.{◌≡◌, ◌<◌};

use super::calls::{UTF16, add_changes};
use plain::{Items, Text};
use shared_map::{SharedMap, Steps};
use std::alloc::{AllocError, Global};
use std::marker::Brand;
use std::sync::ledger::{Blank, Ledger};
use std::test::Fail;
use test_support::{cut, expect};
use text_core::apply_with_limit;

type Numbers = SharedMap<u32, u32>;

/// The map with the entries of the list set one after another.
fn with_all<L: Ledger>(
    map: &Numbers,
    list: &[(u32, Option<u32>)],
    steps: &mut Steps<L>,
) -> Result<Numbers, AllocError> {
    let mut map = map.clone()?;
    for (key, value) in list {
        map = map.set(*key, *value, steps)?;
    }
    Ok(map)
}

/// The keys in order, each with its value, all of one figure.
fn figures(map: &Numbers) -> Option<u64> {
    let mut figures = 0u64;
    for entry in map.entries().ok()? {
        figures = figures
            .wrapping_mul(10)
            .wrapping_add(u64::from(entry.0))
            .wrapping_mul(10)
            .wrapping_add(u64::from(entry.1));
    }
    Some(figures)
}

/// Whether a map has what was set last, and the map before has what it had.
fn stays<L: Ledger>(alloc: Global, steps: &mut Steps<L>) -> Option<bool> {
    let first = [
        (5, Some(1)),
        (1, Some(2)),
        (4, Some(3)),
        (2, Some(4)),
        (3, Some(5)),
        (6, Some(6)),
        (7, Some(7)),
    ];
    let second = [(4, None), (9, None), (1, Some(8)), (8, Some(9)), (5, None)];
    let old = with_all(&SharedMap::new(alloc), &first, steps).ok()?;
    let new = with_all(&old, &second, steps).ok();
    let were = figures(&old);
    drop(old);
    Some(were? == 12243543516677 && figures(&new?)? == 182435667789)
}

/// A text, changes, the text that they leave, and how many bytes it may have. What passes that limit is dropped, if its own text does,
/// or skipped, and each edit is held against what those before it leave. Columns count UTF-16.
const LIMITED: &str = "ab > 0:0-0:0=XY & 0:0-0:0=X > Xab > 3;
ab > whole=cd & whole=four & 0:0-0:2=five! & 0:2-0:2=e > cde > 3;
ab\ncd > 1:2-1:2=ef & 0:2-0:2=x & 0:0-0:1= & 0:1-0:1=y > by\ncdef > 7;
ab\ncd > 1:0-1:2= & 0:2-0:2=xy & 0:0-0:0=z > abxy\n > 5;
a\nb\nc > 2:1-2:1=12 & 1:1-1:1=3 & 0:0-0:1= > \nb\nc12 > 7";

/// A text within a limit after changes.
fn limited<L: Ledger>(
    alloc: Global,
    text: &str,
    list: &str,
    limit: u32,
    steps: &mut Steps<L>,
) -> Option<Text> {
    if text.len() > limit as usize {
        return None;
    }
    let mut changes = Items::new(alloc);
    add_changes(alloc, &mut changes, list)?;
    apply_with_limit(alloc, UTF16, text, changes, limit, steps).ok()
}

/// Whether a row is right.
fn agrees<L: Ledger>(alloc: Global, row: &str, steps: &mut Steps<L>) -> Option<bool> {
    let (text, rest) = cut(row, " > ");
    let (list, rest) = cut(rest, " > ");
    let (after, limit) = cut(rest, " > ");
    Some(limited(alloc, text, list, limit.parse().ok()?, steps)?.is(after))
}

/// Whether all rows are right.
fn are_limited<L: Ledger>(alloc: Global, steps: &mut Steps<L>) -> bool {
    for row in LIMITED.split(";\n") {
        if agrees(alloc, row, steps) != Some(true) {
            return false;
        }
    }
    true
}

/// Whether maps and edits whose steps are counted are right, and a count takes no bytes. Only contracts see it.
fn counted<L: Ledger>(alloc: Global, blank: Blank) -> bool
    requires name { blank.name ≡ L.name }
    requires parts { blank.parts ≡ L.parts }
    requires some { 0 < L.parts }
{
    let mut steps = Steps::<L>::new(blank);
    let stays = stays(alloc, &mut steps) == Some(true);
    let are_limited = are_limited(alloc, &mut steps);
    stays && are_limited && size_of::<Steps<L>>() == 0
}

#[test]
fn steps_are_counted(rt: HostRuntime) -> Result<(), Fail> {
    let is_right = counted::<Brand>(rt.alloc(), Blank::new(1));
    expect("maps and edits", is_right)
}
