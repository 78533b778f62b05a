// Crate data of the workspaces.
ghost use Rattle.std.specs.Prelude.{◌≡◌, IfOk, OnOk};
ghost use Rattle.std.specs.FinMap as map;
ghost use Rattle.session_port.specs.Refines.{Refines};
ghost use Rattle.session_model.specs.FilesSteps.{crates_put};
ghost use Rattle.session_model.specs.Crates.{are_unknown, builds_crates, crate_data, crate_graph, crates_asked, crates_sought, crates_wait, followed_by, waits, with_paths};
ghost use Rattle.session_model.specs.Machine.{at_files, crates_built};

use docs_vfs::{ByPath, VfsPath};
use file_ids::FileIds;
use plain::{Items, NoMemory, Text};
use project_model::{CrateData, MacroPath, ProjectWorkspace};
use ra_config::Config;
use reload::{crate_roots, ws_to_crate_graph};
use session_model::{SessionFiles, TurnError};
use session_port::TurnOut;
use session_store::{Store, file_of, is_unknown, loads_macros};
use std::alloc::Global;
use workspaces::{Follows, Workspaces, without_macros};

/// A crate graph, and for each workspace what was built of its proc macro crates.
type Graph = (CrateData, Items<Items<(u32, MacroPath)>>);

// Whether one of these paths has neither.
fn are_unknown(numbers: &FileIds, paths: &[VfsPath]) -> bool
    ensures { result ≡ are_unknown numbers.now paths.now }
{
    paths.iter().any(|path| is_unknown(numbers, path))
}

// The paths of a list.
fn paths_of(alloc: Global, list: Items<VfsPath>) -> Result<ByPath<()>, NoMemory>
    ensures { IfOk result (λ paths. paths ≡ with_paths map.empty list) }
{
    let mut paths = ByPath::new(alloc);
    for path in list.into_vec() {
        paths.insert(path, ())?;
    }
    Ok(paths)
}

// Crate data asks for the root file of each crate of the workspaces that are present.
fn ask_for_crates(
    alloc: Global,
    numbers: &FileIds,
    workspaces: &mut Workspaces,
) -> Result<(), NoMemory>
    ensures { OnOk result (workspaces.new ≡ crates_asked numbers.now workspaces.old) }
{
    let roots = crate_roots(alloc, workspaces.present())?;
    let incomplete = are_unknown(numbers, roots.as_slice());
    let asked = paths_of(alloc, roots)?;
    workspaces.keep_asked(asked, incomplete);
    Ok(())
}

// Whether crate data waits for its macros: where they are loaded, unless there were no workspaces before.
fn waits(settings: &Config, initial: bool) -> bool
    ensures { result ≡ waits settings.now initial }
{
    loads_macros(settings) && !initial
}

// Whether crate data that is built behind a switch that this follows goes into the world at once.
pub(crate) fn builds_crates(settings: &Config, follows: &Follows) -> bool
    ensures { result ≡ builds_crates settings.now follows.now }
{
    match follows {
        Follows::Nothing | Follows::Wait { .. } => false,
        Follows::CrateData => !waits(settings, false),
        Follows::GoOn { initial, .. } => !waits(settings, *initial),
    }
}

// Crate data waits for its macros.
fn wait_for_macros(
    alloc: Global,
    settings: &Config,
    numbers: &FileIds,
    workspaces: &mut Workspaces,
) -> Result<(), NoMemory>
    ensures { OnOk result (workspaces.new ≡ crates_wait settings.now numbers.now workspaces.old) }
{
    let cause = Text::from_str(alloc, "crate data")?;
    let (crates, paths) = load_graph(alloc, settings, numbers, workspaces.present())?;
    workspaces.ask_load(cause, crates, paths)
}

// Crate data is built: it asks for its roots, and waits where this flag is set.
fn seek_crates(
    alloc: Global,
    settings: &Config,
    files: &SessionFiles,
    waits: bool,
    workspaces: &mut Workspaces,
) -> Result<(), NoMemory>
    ensures { OnOk result (workspaces.new ≡ crates_sought waits settings.now files.now.ids workspaces.old) }
{
    let numbers = files.file_ids()?;
    ask_for_crates(alloc, &numbers, workspaces)?;
    if waits {
        wait_for_macros(alloc, settings, &numbers, workspaces)?;
    }
    Ok(())
}

// What follows a switch may be that crate data is built.
pub(crate) fn follow_crates(
    alloc: Global,
    settings: &Config,
    files: &SessionFiles,
    follows: &Follows,
    workspaces: &mut Workspaces,
) -> Result<(), NoMemory>
    ensures { OnOk result (workspaces.new ≡ followed_by settings.now files.now.ids follows.now workspaces.old) }
{
    match follows {
        Follows::Nothing | Follows::Wait { .. } => Ok(()),
        Follows::CrateData => {
            let waits = waits(settings, false);
            seek_crates(alloc, settings, files, waits, workspaces)
        }
        Follows::GoOn { initial, .. } => {
            let waits = waits(settings, *initial);
            seek_crates(alloc, settings, files, waits, workspaces)
        }
    }
}

// The crate graph of workspaces, by the settings and the numbers of the files, and for each workspace what was built of its macros.
fn load_graph(
    alloc: Global,
    settings: &Config,
    numbers: &FileIds,
    workspaces: &[ProjectWorkspace],
) -> Result<Graph, NoMemory>
    ensures { IfOk result (λ made. made ≡ crate_graph settings.now numbers.now workspaces.now) }
{
    ws_to_crate_graph(alloc, workspaces, settings.cargo_extra_env(None), |root| {
        file_of(numbers.get(root))
    })
}

// The same without what was built, with the macros of each crate, which are not yet built, or disabled.
fn crate_data(
    alloc: Global,
    settings: &Config,
    files: &SessionFiles,
    workspaces: &[ProjectWorkspace],
) -> Result<CrateData, NoMemory>
    ensures { IfOk result (λ made. made ≡ crate_data settings.now files.now.ids workspaces.now) }
{
    let numbers = files.file_ids()?;
    let (graph, _paths) = load_graph(alloc, settings, &numbers, workspaces)?;
    without_macros(alloc, graph, loads_macros(settings))
}

// This crate graph goes into the world.
pub(crate) fn put_crates(
    store: &mut Store,
    crates: CrateData,
    out: &mut TurnOut,
) -> Result<(), TurnError>
    ensures { Refines result (at_files (crates_put store.old.sources.roots crates) (record { state = store.old; out = out.old })) store.new out.new }
{
    store.files.put_crates(&store.roots, crates, out)
}

// Where this flag is set, crate data of the workspaces that are present goes into the world, without its macros.
#[tactic(auto, unfolding(session_model::specs::Machine::crates_built))]
pub(crate) fn build_crates(
    store: &mut Store,
    built: bool,
    out: &mut TurnOut,
) -> Result<(), TurnError>
    ensures { Refines result (crates_built built (record { state = store.old; out = out.old })) store.new out.new }
{
    if !built {
        return Ok(());
    }
    let crates = crate_data(
        store.alloc,
        store.client.settings(),
        &store.files,
        store.workspaces.present(),
    )?;
    put_crates(store, crates, out)
}
