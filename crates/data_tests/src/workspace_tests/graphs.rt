// The crate graph of workspaces.
use super::made::{add, all_agree, workspaces};
use docs_vfs::FileId;
use plain::Items;
use project_model::{CrateData, MacroPath, ProjectWorkspace};
use reload::ws_to_crate_graph;
use std::alloc::Global;
use std::fmt::Write;
use std::test::Fail;
use test_support::cut;

/// Adds a number, and a mark behind it.
fn add_number(out: &mut String, number: u32, mark: &str) {
    let _ = write!(out, "{number}{mark}");
}

/// Adds of each crate its file and its dependencies.
fn add_data(out: &mut String, data: &CrateData) {
    for info in &data.crates {
        add_number(out, info.root.0, ":");
        for dep in &info.deps {
            add_number(out, *dep, ",");
        }
        add(out, " ");
    }
}

/// Adds what was built of the crates of each workspace.
fn add_paths(out: &mut String, all: &[Items<(u32, MacroPath)>]) {
    for paths in all {
        for (number, path) in paths {
            add_number(out, *number, "=");
            match path {
                MacroPath::Built { name, .. } => add(out, name.as_str()),
                MacroPath::Failed(error) => add(out, error.as_str()),
            }
            add(out, " ");
        }
        add(out, ";");
    }
}

/// Adds the graph where each root is loaded, but for this one. The number of a file is the second byte of its path.
fn add_graph(alloc: Global, out: &mut String, workspaces: &[ProjectWorkspace], left_out: &str) {
    let graph = ws_to_crate_graph(alloc, workspaces, &[], |root| {
        let letter = root.as_str().as_bytes().get(1)?;
        if root.as_str() == left_out {
            None
        } else {
            Some(FileId(u32::from(*letter)))
        }
    });
    if let Ok((data, paths)) = &graph {
        add_data(out, data);
        add(out, "> ");
        add_paths(out, paths.as_slice());
    }
    drop(graph);
}

/// Workspaces, a root that is not loaded, and the graph: of each crate its file and its dependencies. Then what was
/// built of the crates of each workspace.
const GRAPHS: &str = "cargo /w has /a /b:0; cargo /w has /c /d:0 > /x > 97: 98:0, 99: 100:2, > ;;
cargo /w has /a /b:0; cargo /w has /c /d:0 > /c > 97: 98:0, 100: > ;;
cargo /w has /a /b:0; cargo /w has /c /d:0 > /a > 98: 99: 100:1, > ;;
cargo /w has /a /b:0; cargo /w has /c /d:0 > /d > 97: 98:0, 99: > ;;
cargo /w has /a:2,1,7 /b! /c! > /b > 97:1, 99: > 1=crate has not yet been built ;
cargo /w has /a! /b! /c!; cargo /w has /a /b! /c! + 2=first 0=none 2=second > /a > 98: 99: 98: 99: > 0=crate has not yet been built 1=crate has not yet been built ;2=crate has not yet been built 3=first ;
cargo /w has /a /b! /c!; cargo /w has /a /b! /c! + 2=first 0=none 2=second > /x > 97: 98: 99: 97: 98: 99: > 1=crate has not yet been built 2=crate has not yet been built ;4=crate has not yet been built 5=first ;
cargo /w has /a /b! /c!; cargo /w has /a /b! /c! + 2=first 0=none 2=second > /b > 97: 99: 97: 99: > 1=crate has not yet been built ;3=first ;";

fn agrees(alloc: Global, line: &str) -> bool {
    let (words, rest) = cut(line, " > ");
    let (left_out, want) = cut(rest, " > ");
    let mut out = String::new(alloc);
    let list = workspaces(alloc, words);
    // Of a copy, so that what workspaces hold is copied too.
    let copy = list.clone().ok();
    drop(list);
    if let Some(copy) = &copy {
        add_graph(alloc, &mut out, copy.as_slice(), left_out);
    }
    drop(copy);
    out.as_str() == want
}

#[test]
fn graphs_of_workspaces(rt: HostRuntime) -> Result<(), Fail> {
    all_agree(rt.alloc(), GRAPHS, agrees)
}
