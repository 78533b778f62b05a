// Trees of TOML.
use super::calls::all_agree;
use crate::text_tests::calls::json;
use plain::Json;
use ra_settings::toml_tree;
use std::alloc::Global;
use std::test::Fail;
use test_support::cut;

/// A text of TOML, and the JSON that it stands for: `none` where it is no TOML. A mark of the order of bytes is none.
const TREES: &str = "\n=> {}

a = \n=> none

a = 1\n=> {\"a\":1}

\u{feff}a = 1\n=> none

\u{feff}\n=> none

a = 9223372036854775807\n=> {\"a\":9223372036854775807}

a = 9223372036854775808\n=> none

a.b = [1, \"x\"]\n[c]\nd = false\n=> {\"a\":{\"b\":[1,\"x\"]},\"c\":{\"d\":false}}

[[a]]\nb = 1\n[[a]]\nb = -2\n=> {\"a\":[{\"b\":1},{\"b\":-2}]}";

/// Whether a tree is this JSON.
fn is_tree(alloc: Global, tree: Json, want: &str) -> Option<bool> {
    Some(tree.is_same(&json(alloc, want)?))
}

fn agrees(alloc: Global, case: &str) -> Option<bool> {
    let (text, want) = cut(case, "\n=> ");
    match toml_tree(alloc, text).ok()? {
        None => Some(want == "none"),
        Some(tree) => is_tree(alloc, tree, want),
    }
}

#[test]
fn trees_of_toml(rt: HostRuntime) -> Result<(), Fail> {
    all_agree(rt.alloc(), TREES, "\n\n", agrees)
}
