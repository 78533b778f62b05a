// Values that tests are made of, by words, and a table's loop. No call here claims anything. Where memory runs out, there is none, or
// less than a test wants.
use docs_vfs::VfsPath;
use plain::{Items, Text};
use project_model::{
    BuildScripts, CrateEntry, MacroPath, Package, ProjectWorkspace, Target, TargetKind,
    WorkspaceKind,
};
use std::alloc::Global;
use std::test::Fail;
use test_support::{cut, expect};

/// That a call agrees to each line of a table.
pub(crate) fn all_agree<F: Fn(Global, &str) -> bool>(
    alloc: Global,
    table: &str,
    agrees: F,
) -> Result<(), Fail>
    requires { F.IsAlwaysCallable agrees }
{
    for line in table.lines() {
        expect(line, agrees(alloc, line))?;
    }
    Ok(())
}

pub(crate) fn path_at(alloc: Global, text: &str) -> Option<VfsPath> {
    VfsPath::new(alloc, text).ok()?
}

pub(crate) fn text_of(alloc: Global, text: &str) -> Option<Text> {
    Text::from_str(alloc, text).ok()
}

/// Adds words to a text.
pub(crate) fn add(out: &mut String, more: &str) {
    let _ = out.push_str(more);
}

/// Adds an item to a list, if there is one.
pub(crate) fn push<T: Drop>(list: &mut Items<T>, item: Option<T>) {
    if let Some(item) = item {
        let _ = list.push(item);
    }
}

/// Puts a value in a place, if there is one.
pub(crate) fn put<T: Drop>(place: &mut Option<T>, value: Option<T>) {
    if let Some(value) = value {
        drop(place.replace(value));
    }
}

/// Whether a value can be copied.
pub(crate) fn copies<T: Clone + Drop>(value: T) -> bool {
    let copy = value.clone().ok();
    drop(value);
    copy.is_some()
}

/// The numbers of a text, between which this mark stands.
pub(crate) fn numbers(alloc: Global, text: &str, mark: &str) -> Items<u32> {
    let mut numbers = Items::new(alloc);
    for word in text.split(mark) {
        push(&mut numbers, word.parse().ok());
    }
    numbers
}

/// A crate by a word: its root, `!` where it is a proc macro, and behind `:` the places of its dependencies.
fn entry(alloc: Global, word: &str) -> Option<CrateEntry> {
    let (root, deps) = cut(word, ":");
    Some(CrateEntry {
        root: path_at(alloc, cut(root, "!").0)?,
        name: None,
        deps: numbers(alloc, deps, ","),
        is_proc_macro: root.ends_with('!'),
    })
}

/// Crates, parted by spaces.
fn entries(alloc: Global, text: &str) -> Items<CrateEntry> {
    let mut entries = Items::new(alloc);
    for word in text.split_whitespace() {
        push(&mut entries, entry(alloc, word));
    }
    entries
}

/// What was built of a crate, by a word: the crate's place, and its name.
fn built(alloc: Global, word: &str) -> Option<(u32, MacroPath)> {
    let (place, name) = cut(word, "=");
    let place = place.parse().ok()?;
    let (name, library) = text_of(alloc, name).zip(path_at(alloc, "/lib"))?;
    Some((place, MacroPath::Built { name, library }))
}

/// What was built of crates, parted by spaces, or none where no word stands there.
fn scripts(alloc: Global, words: &str) -> Option<BuildScripts> {
    if words.is_empty() {
        return None;
    }
    let mut macro_paths = Items::new(alloc);
    for word in words.split_whitespace() {
        push(&mut macro_paths, built(alloc, word));
    }
    Some(BuildScripts {
        error: None,
        macro_paths,
    })
}

/// A package's one target, by its name, its kind and its file.
fn target(alloc: Global, words: &str) -> Option<Target> {
    let (name, rest) = cut(words, " ");
    let (kind, file) = cut(rest, " ");
    let (name, root) = text_of(alloc, name).zip(path_at(alloc, file))?;
    Some(Target {
        name,
        kind: if kind == "lib" {
            TargetKind::Lib
        } else {
            TargetKind::Bin
        },
        root,
        required_features: Items::new(alloc),
    })
}

/// A package by its name and its one target.
fn package(alloc: Global, words: &str) -> Option<Package> {
    let (id, manifest) = text_of(alloc, cut(words, " ").0).zip(path_at(alloc, "/w/Cargo.toml"))?;
    let mut targets = Items::new(alloc);
    push(&mut targets, target(alloc, words));
    Some(Package {
        id,
        manifest,
        targets,
        features: Items::new(alloc),
        member_deps: None,
    })
}

/// A workspace by words: its kind and its root, behind ` of ` a package, behind ` has ` its crates, and behind ` + ` what was built of them.
pub(crate) fn workspace(alloc: Global, words: &str) -> Option<ProjectWorkspace> {
    let (words, built) = cut(words, " + ");
    let (words, crates) = cut(words, " has ");
    let (words, member) = cut(words, " of ");
    let (kind, root) = cut(words, " ");
    let root = path_at(alloc, root)?;
    let mut packages = Items::new(alloc);
    if !member.is_empty() {
        push(&mut packages, package(alloc, member));
    }
    Some(ProjectWorkspace {
        kind: if kind == "json" {
            WorkspaceKind::Json
        } else {
            WorkspaceKind::Cargo
        },
        manifest: None,
        root,
        roots: Items::new(alloc),
        packages,
        crates: entries(alloc, crates),
        build_files: Items::new(alloc),
        toolchain: None,
        error: None,
        sysroot_root: None,
        sysroot_error: None,
        sysroot_metadata_error: None,
        rustc_error: None,
        build: scripts(alloc, built),
    })
}

/// Workspaces, parted by semicolons.
pub(crate) fn workspaces(alloc: Global, words: &str) -> Items<ProjectWorkspace> {
    let mut list = Items::new(alloc);
    for part in words.split("; ") {
        push(&mut list, workspace(alloc, part));
    }
    list
}
