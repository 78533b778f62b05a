// Tables of texts that share what they have in common, and changes whose steps are counted.
ghost use Rattle.std.specs.Prelude.{◌≡◌, ◌<◌};

use crate::calls::{add, change_with, entry_of, path_at};
use analysis_host::{AnalysisHost, TextTree};
use shared_map::Steps;
use std::alloc::Global;
use std::marker::Brand;
use std::mem;
use std::sync::ledger::{Blank, Ledger};
use std::test::Fail;
use test_support::{cut, expect};

/// The table with a text at a path, or with none there where the text is `-`.
fn with_text<L: Ledger>(
    alloc: Global,
    tree: &TextTree,
    path: &str,
    text: &str,
    steps: &mut Steps<L>,
) -> Option<TextTree> {
    let path = path_at(alloc, path)?;
    let entry = entry_of(alloc, text);
    tree.set(path, entry, steps).ok()
}

/// Whether a table has so many paths, and these texts at `/a` and `/b`.
fn has_texts(alloc: Global, tree: &TextTree, len: u64, texts: &str) -> bool {
    let mut found = String::new(alloc);
    for path in "/a /b".split(' ') {
        if let Some(path) = path_at(alloc, path) {
            match tree.get(&path) {
                Some(entry) => add(&mut found, entry.text.as_str()),
                None => add(&mut found, "none"),
            }
        }
        add(&mut found, ";");
    }
    tree.len() == len && found.as_str() == texts
}

/// Whether a table of two texts stays as it was where `/a` is removed.
fn stays<L: Ledger>(alloc: Global, tree: &mut TextTree, steps: &mut Steps<L>) -> bool {
    for words in "/a x,/b y".split(',') {
        let (path, value) = cut(words, " ");
        if let Some(next) = with_text(alloc, tree, path, value, steps) {
            drop(mem::replace(tree, next));
        }
    }
    let is_removed = match with_text(alloc, tree, "/a", "-", steps) {
        Some(rest) => {
            let is_removed = has_texts(alloc, &rest, 1, "none;y;");
            drop(rest);
            is_removed
        }
        None => false,
    };
    is_removed && has_texts(alloc, tree, 2, "x;y;")
}

/// Whether a host has the text that `/a` is changed to, and one revision more.
fn changes<L: Ledger>(
    alloc: Global,
    host: &mut AnalysisHost,
    steps: &mut Steps<L>,
) -> Option<bool> {
    let change = change_with(alloc, "/a", "x");
    if host.apply_counted(change, steps).is_err() {
        return None;
    }
    let path = path_at(alloc, "/a")?;
    Some(host.text(&path).unwrap_or("none") == "x" && host.revision() == 1)
}

/// Whether a table and a host whose steps are counted are right. The one function that owns either.
fn counted<L: Ledger>(alloc: Global, blank: Blank) -> bool
    requires name { blank.name ≡ L.name }
    requires parts { blank.parts ≡ L.parts }
    requires some { 0 < L.parts }
{
    let mut steps = Steps::<L>::new(blank);
    let mut tree = TextTree::new(alloc);
    let stays = stays(alloc, &mut tree, &mut steps);
    drop(tree);
    match AnalysisHost::new(alloc) {
        Ok(mut host) => {
            let is_changed = changes(alloc, &mut host, &mut steps);
            drop(host);
            stays && is_changed == Some(true)
        }
        Err(_) => false,
    }
}

#[test]
fn counted_changes(rt: HostRuntime) -> Result<(), Fail> {
    let is_right = counted::<Brand>(rt.alloc(), Blank::new(1));
    expect("a table and a host", is_right)
}
