//! What was built of the proc macro crates of a workspace.
ghost use Rattle.std.specs.Prelude.{◌≡◌, ℕ, ◌++◌, [], ◌∷◌, option_to_list, IfOk, OnOk};
ghost use Rattle.std.specs.List.{filter_map, enumerate_from};
ghost use Rattle.std.specs.FinMap as by_key;
ghost use Rattle.std.specs.Option.{option_copied};
ghost use Rattle.std.specs.Ordering.{nat_cmp};
ghost use Rattle.reload.specs.Graph.{built_of, found_in, path_or_none, path_of, paths_in};

use crate::places::{Place, place_of};
use plain::{ByNumber, Items, NoMemory, Text};
use project_model::{BuildScripts, CrateEntry, MacroPath, ProjectWorkspace};
use std::alloc::Global;

fn built_of(build: &Option<BuildScripts>) -> &[(u32, MacroPath)]
    ensures { result.now ≡ built_of build.now }
{
    match build {
        None => &[],
        Some(scripts) => scripts.macro_paths.as_slice(),
    }
}

/// What was built of each crate, by its index; of several entries for one crate the first.
fn by_index<'a>(
    alloc: Global,
    built: &'a [(u32, MacroPath)],
) -> Result<ByNumber<&'a MacroPath>, NoMemory>
    ensures { IfOk result (λ rows. (index : ℕ) → found_in rows index ≡ by_key.find nat_cmp index built.now) }
{
    let mut rows = ByNumber::new(alloc);
    for entry in built {
        rows.insert_new(entry.0 as u64, &entry.1)?;
    }
    Ok(rows)
}

fn found_in<'a>(rows: &ByNumber<&'a MacroPath>, index: u64) -> Option<&'a MacroPath>
    ensures { option_copied result ≡ found_in rows.now index }
{
    match rows.get(index) {
        Some(path) => Some(*path),
        None => None,
    }
}

fn path_or_none(alloc: Global, found: Option<&MacroPath>) -> Result<MacroPath, NoMemory>
    ensures { IfOk result (λ path. path ≡ path_or_none (option_copied found.entry)) }
{
    match found {
        Some(path) => path.clone(),
        None => Ok(MacroPath::Failed(Text::from_str(alloc, "crate has not yet been built")?)),
    }
}

fn push_path(
    alloc: Global,
    paths: &mut Items<(u32, MacroPath)>,
    rows: &ByNumber<&MacroPath>,
    places: &[Option<Place>],
    index: usize,
    entry: &CrateEntry,
) -> Result<(), NoMemory>
    ensures { OnOk result (paths.new ≡ paths.old
        ++ option_to_list (path_of (found_in rows.now) places.now (index, entry.now))) }
{
    if !entry.is_proc_macro {
        return Ok(());
    }
    match place_of(places, index) {
        None => Ok(()),
        Some((_file, number)) => {
            paths.push((number, path_or_none(alloc, found_in(rows, index as u64))?))?;
            Ok(())
        }
    }
}

fn paths_by(
    alloc: Global,
    rows: &ByNumber<&MacroPath>,
    places: &[Option<Place>],
    entries: &[CrateEntry],
) -> Result<Items<(u32, MacroPath)>, NoMemory>
    ensures { IfOk result (λ paths. paths
        ≡ filter_map (path_of (found_in rows.now) places.now) (enumerate_from 0 entries.now)) }
{
    let mut paths = Items::new(alloc);
    for (index, entry) in entries.iter().enumerate() {
        push_path(alloc, &mut paths, rows, places, index, entry)?;
    }
    Ok(paths)
}

/// What was built of the proc macro crates of a workspace that are kept.
fn paths_in(
    alloc: Global,
    places: &[Option<Place>],
    workspace: &ProjectWorkspace,
) -> Result<Items<(u32, MacroPath)>, NoMemory>
    ensures { IfOk result (λ paths. paths ≡ paths_in places.now workspace.now) }
{
    let rows = by_index(alloc, built_of(&workspace.build))?;
    let paths = paths_by(alloc, &rows, places, workspace.crates.as_slice())?;
    Ok(paths)
}

pub(crate) fn push_paths(
    alloc: Global,
    paths: &mut Items<Items<(u32, MacroPath)>>,
    places: &[Option<Place>],
    workspace: &ProjectWorkspace,
) -> Result<(), NoMemory>
    ensures { OnOk result (paths.new ≡ paths.old ++ paths_in places.now workspace.now ∷ []) }
{
    paths.push(paths_in(alloc, places, workspace)?)?;
    Ok(())
}
