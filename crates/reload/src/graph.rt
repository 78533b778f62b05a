//! The crate graph of a list of workspaces.
ghost use Rattle.std.specs.Prelude.{◌≡◌, ◌++◌, List, Option, option_to_list, IfOk, OnOk};
ghost use Rattle.std.specs.List.{filter_map};
ghost use Rattle.docs_vfs.specs.declared.file_kinds.FileId.{FileId};
ghost use Rattle.reload.specs.Asked.{Asked};
ghost use Rattle.reload.specs.Graph.{crate_roots, number_of, crate_of, crates_in, all_crates, all_paths, graph_of};

use crate::ask::{ask_each, crate_roots};
use crate::macro_paths::push_paths;
use crate::places::{Place, number_of, place_of, places_of, split};
use docs_vfs::{FileId, VfsPath};
use plain::{Items, NoMemory, Text, copy};
use project_model::{CrateData, CrateEntry, CrateInfo, MacroPath, ProjectWorkspace};
use std::alloc::Global;

/// The dependencies that are kept, by their numbers in the graph.
fn renumbered(alloc: Global, places: &[Option<Place>], deps: &[u32]) -> Result<Items<u32>, NoMemory>
    ensures { IfOk result (λ list. list ≡ filter_map (number_of places.now) deps.now) }
{
    let mut list = Items::new(alloc);
    for dep in deps {
        if let Some(number) = number_of(places, *dep) {
            list.push(number)?;
        }
    }
    Ok(list)
}

fn push_crate(
    alloc: Global,
    crates: &mut Items<CrateInfo>,
    places: &[Option<Place>],
    index: usize,
    entry: &CrateEntry,
) -> Result<(), NoMemory>
    ensures { OnOk result (crates.new ≡ crates.old ++ option_to_list (crate_of places.now (index, entry.now))) }
{
    match place_of(places, index) {
        None => Ok(()),
        Some((file, _number)) => {
            crates.push(CrateInfo {
                root: file,
                name: copy(&entry.name)?,
                deps: renumbered(alloc, places, entry.deps.as_slice())?,
                is_proc_macro: entry.is_proc_macro,
            })?;
            Ok(())
        }
    }
}

/// Adds the crates of a workspace that are kept.
fn push_crates(
    alloc: Global,
    crates: &mut Items<CrateInfo>,
    places: &[Option<Place>],
    entries: &[CrateEntry],
) -> Result<(), NoMemory>
    ensures { OnOk result (crates.new ≡ crates.old ++ crates_in places.now entries.now) }
{
    for (index, entry) in entries.iter().enumerate() {
        push_crate(alloc, crates, places, index, entry)?;
    }
    Ok(())
}

/// The crates that are kept, where the crates stand at these places.
fn crates_at(
    alloc: Global,
    workspaces: &[ProjectWorkspace],
    places: &[Option<Place>],
) -> Result<Items<CrateInfo>, NoMemory>
    ensures { IfOk result (λ crates. crates ≡ all_crates workspaces.now places.now) }
{
    let mut crates = Items::new(alloc);
    let mut rest = places;
    for workspace in workspaces {
        let (front, back) = split(rest, workspace.crates.len());
        push_crates(alloc, &mut crates, front, workspace.crates.as_slice())?;
        rest = back;
    }
    Ok(crates)
}

/// What was built of the proc macro crates of each workspace, where the crates stand at these places.
fn paths_at(
    alloc: Global,
    workspaces: &[ProjectWorkspace],
    places: &[Option<Place>],
) -> Result<Items<Items<(u32, MacroPath)>>, NoMemory>
    ensures { IfOk result (λ paths. paths ≡ all_paths workspaces.now places.now) }
{
    let mut paths = Items::new(alloc);
    let mut rest = places;
    for workspace in workspaces {
        let (front, back) = split(rest, workspace.crates.len());
        push_paths(alloc, &mut paths, front, workspace)?;
        rest = back;
    }
    Ok(paths)
}

/// The crate graph of the workspaces, and for each workspace what was built of its proc macro crates. The files of
/// roots are loaded by the closure; a crate whose root it answers none for is left out.
pub fn ws_to_crate_graph<F: FnMut(&VfsPath) -> Option<FileId>>(
    alloc: Global,
    workspaces: &[ProjectWorkspace],
    extra_env: &[(Text, Option<Text>)],
    load: F,
) -> Result<(CrateData, Items<Items<(u32, MacroPath)>>), NoMemory>
    requires { F.IsAlwaysCallable load }
    ensures { IfOk result (λ made. ((files : List (Option FileId)) × (last : F)
        × Asked F.FnMut load (crate_roots workspaces.now) files last
        × (made ≡ graph_of workspaces.now extra_env.now files))) }
{
    let roots = crate_roots(alloc, workspaces)?;
    let files = ask_each(alloc, roots.as_slice(), load)?;
    let places = places_of(alloc, files.as_slice())?;
    let data = CrateData {
        crates: crates_at(alloc, workspaces, places.as_slice())?,
        env: Items::from_slice(alloc, extra_env)?,
        macros: Items::new(alloc),
    };
    Ok((data, paths_at(alloc, workspaces, places.as_slice())?))
}
