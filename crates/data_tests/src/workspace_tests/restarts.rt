// The checks that restart for a saved file.
use super::made::{add, all_agree, copies, numbers, path_at, push, workspaces};
use check_restarts::check_restarts;
use docs_vfs::{FileId, VfsPath};
use plain::Items;
use project_model::{
    CheckScope, CrateData, CrateInfo, MacroState, ProjectWorkspace, Restart, target_spec_for_file,
};
use std::alloc::Global;
use std::fmt::Write;
use std::test::Fail;
use test_support::{cut, expect};

/// A program, a project that is described as JSON, and a library.
const WORKSPACES: &str = "cargo /w of one bin /a; json /v of two lib /b; cargo /u of three lib /c";

/// A crate by the numbers of those that it depends on.
fn crate_of(alloc: Global, deps: &str) -> CrateInfo {
    CrateInfo {
        root: FileId(0),
        name: None,
        deps: numbers(alloc, deps, " "),
        is_proc_macro: false,
    }
}

/// The crates of a graph, between commas each with its root and its dependencies, and the paths of their roots.
fn graph(alloc: Global, words: &str) -> (Items<CrateInfo>, Items<VfsPath>) {
    let mut crates = Items::new(alloc);
    let mut paths = Items::new(alloc);
    for one in words.split(", ") {
        let (root, deps) = cut(one, " ");
        if root.starts_with('/') {
            push(&mut crates, Some(crate_of(alloc, deps)));
            push(&mut paths, path_at(alloc, root));
        }
    }
    (crates, paths)
}

/// Adds restarts in words, each behind a space: the number of the check, and of a package its name and whether its target is
/// checked alone.
fn add_restarts(out: &mut String, list: &[Restart]) {
    for restart in list {
        let id = restart.id;
        let _ = write!(out, " {id}");
        if let CheckScope::Package {
            package,
            target,
            ..
        } = &restart.scope
        {
            add(out, ":");
            add(out, package.id().as_str());
            add(out, if target.is_some() { ":true" } else { ":false" });
        }
    }
}

/// The same of a copy.
fn add_copy(out: &mut String, list: &Items<Restart>) {
    let copy = list.clone().ok();
    if let Some(copy) = &copy {
        add_restarts(out, copy.as_slice());
    }
    drop(copy);
}

/// Adds what restarts for a file of crates with these roots.
fn add_told(
    alloc: Global,
    out: &mut String,
    crates: &[CrateInfo],
    paths: &[VfsPath],
    roots: &[VfsPath],
    workspaces: &[ProjectWorkspace],
    check_workspace: bool,
) {
    let Some(saved) = path_at(alloc, "/saved") else {
        return;
    };
    if paths.len() == crates.len() {
        let list = check_restarts(
            alloc,
            crates,
            paths,
            roots,
            &saved,
            workspaces,
            &[0, 1, 2, 9],
            check_workspace,
        );
        if let Ok(list) = &list {
            add_copy(out, list);
        }
        drop(list);
    }
    drop(saved);
}

/// The crates, the roots of the saved file, whether whole workspaces are checked or packages alone, and what restarts.
///
/// First the library depends on the program. Then none of the three depends on another. Then the program and the library
/// depend on each other. Where `/x` is, the program depends on that crate of no workspace, and that on the project that is
/// described as JSON. At the end all depend on the library, over two steps.
const RESTARTS: &str = "/a, /b, /c 0 > /a > workspaces > 0:one:true 2
/a, /b, /c 0 > /a > packages > 0:one:true
/a, /b, /c > /a > workspaces > 0:one:true
/a, /b, /c > /c > workspaces > 2
/a, /b, /c > /c > packages > 2:three:false
/a 1, /c 0 > /c > packages > 2:three:false
/a 1, /c 0 > /c > workspaces > 0 2
/a, /b, /c > /b > workspaces > 1:two:false
none > /b > workspaces > 1:two:false
/x 2, /a 0, /b > /b > workspaces > 1:two:false 0
/a, /b, /c >  > workspaces > 0 1 2 9
/a, /b, /c >  > packages >
/x 2, /a 0, /b > /y > workspaces > 0 1 2 9
/a 1, /b 2, /c > /c > workspaces > 0 1 2
/a 1, /b 2, /c > /c /a > workspaces > 0 1 2";

fn agrees(alloc: Global, line: &str) -> bool {
    let (words, rest) = cut(line, " > ");
    let (names, rest) = cut(rest, " > ");
    let (what, wanted) = cut(rest, " >");
    let mut out = String::new(alloc);
    let (crates, paths) = graph(alloc, words);
    let mut roots = Items::new(alloc);
    for name in names.split_whitespace() {
        push(&mut roots, path_at(alloc, name));
    }
    let list = workspaces(alloc, WORKSPACES);
    add_told(
        alloc,
        &mut out,
        crates.as_slice(),
        paths.as_slice(),
        roots.as_slice(),
        list.as_slice(),
        what == "workspaces",
    );
    drop(list);
    out.as_str() == wanted
}

/// Whether the target of a file can be copied.
fn is_target_copied(alloc: Global) -> Option<bool> {
    let file = path_at(alloc, "/a")?;
    let list = workspaces(alloc, WORKSPACES);
    let target = target_spec_for_file(list.as_slice(), &file);
    drop(list);
    Some(copies(target.ok()??))
}

/// Whether a graph of one crate can be copied, of whose macros it is told.
fn is_graph_copied(alloc: Global) -> bool {
    let mut data = CrateData {
        crates: Items::new(alloc),
        env: Items::new(alloc),
        macros: Items::new(alloc),
    };
    push(&mut data.crates, Some(crate_of(alloc, "1")));
    push(&mut data.macros, Some((0, MacroState::NotYetBuilt)));
    copies(data)
}

#[test]
fn what_is_told_is_copied(rt: HostRuntime) -> Result<(), Fail> {
    expect("a target", is_target_copied(rt.alloc()) == Some(true))?;
    expect("a graph", is_graph_copied(rt.alloc()))
}

#[test]
fn checks_restart(rt: HostRuntime) -> Result<(), Fail> {
    all_agree(rt.alloc(), RESTARTS, agrees)
}
