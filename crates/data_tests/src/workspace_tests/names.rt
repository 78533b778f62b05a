// Names that are alike.
use super::made::all_agree;
use reload::eq_ignore_underscore;
use std::alloc::Global;
use std::test::Fail;
use test_support::cut;

/// Two names, and whether they are alike.
const NAMES: &str = "a-b a_b alike
a_b a-b alike
a-b a-b alike
  alike
a-b a+b other
a-b a_ other
A-b a-b other";

fn names_agree(_alloc: Global, line: &str) -> bool {
    let (one, rest) = cut(line, " ");
    let (two, want) = cut(rest, " ");
    eq_ignore_underscore(one, two) == (want == "alike")
}

#[test]
fn names_are_alike(rt: HostRuntime) -> Result<(), Fail> {
    all_agree(rt.alloc(), NAMES, names_agree)
}
