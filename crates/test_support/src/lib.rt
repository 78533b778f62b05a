//! What tests share: how a line of a table is cut into its parts, and what a test expects. Where it finds something else, a call fails the test, and says what
//! it found: `?` hands that on. A test that expects by a call is proved in a third of the time of one that asserts, since an assertion spells out in the test how
//! its values are printed.
#![tactic(auto)]

use std::fmt::Debug;
use std::test::Fail;

/// What stands before the first mark in a text, and what stands behind it.
pub fn cut<'a>(text: &'a str, mark: &str) -> (&'a str, &'a str) {
    match text.split_once(mark) {
        Some(parts) => parts,
        None => (text, ""),
    }
}

/// Fails where it isn't so. `what` says what should be so.
pub fn expect(what: &str, is_so: bool) -> Result<(), Fail> {
    if is_so {
        return Ok(());
    }
    Err(Fail::new(format_args!("not so: {what}")))
}

/// Fails with both texts where they differ, as far as there is room. `what` says what they are of.
pub fn expect_text(what: &str, found: &str, expected: &str) -> Result<(), Fail> {
    if found == expected {
        return Ok(());
    }
    Err(Fail::new(format_args!("{what}: found {found:?}, expected {expected:?}")))
}

/// Fails with both values where they differ, as far as there is room. `what` says what they are of.
pub fn expect_same<T: PartialEq + Debug>(what: &str, found: &T, expected: &T) -> Result<(), Fail> {
    if *found == *expected {
        return Ok(());
    }
    Err(Fail::new(format_args!("{what}: found {found:?}, expected {expected:?}")))
}
