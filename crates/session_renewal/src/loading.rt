// Loads of the macros of workspaces.
ghost use Rattle.std.specs.Prelude.{◌≡◌, is_some, IfOk, OnOk};
ghost use Rattle.session_port.specs.Refines.{Refines};
ghost use Rattle.session_model.specs.Loading.{crates_loaded, load_kept, load_kind};
ghost use Rattle.session_model.specs.Machine.{crates_arrived, load_handed_over, load_started, macros_taken};

use crate::crates::put_crates;
use plain::{Items, NoMemory, Text};
use project_model::{CrateData, MacroPath};
use ra_config::Config;
use session_model::{LoadEnd, TurnError};
use session_port::{JobKind, TurnOut};
use session_store::Store;
use std::alloc::{AllocError, Global};
use workspaces::Workspaces;

// A copy of texts by their names.
fn copied(
    alloc: Global,
    lists: &[(Text, Items<Text>)],
) -> Result<Items<(Text, Items<Text>)>, AllocError>
    ensures { IfOk result (λ copy. copy ≡ lists.now) }
{
    let mut copy = Items::new(alloc);
    for (name, texts) in lists {
        copy.push((name.clone()?, texts.clone()?))?;
    }
    Ok(copy)
}

// A load of macros ends, where one is in progress. Answers the crate data that waited for it.
fn end_load(workspaces: &mut Workspaces, told: LoadEnd) -> Result<Option<CrateData>, NoMemory>
    ensures value { IfOk result (λ crates. crates ≡ crates_loaded told workspaces.old) }
    ensures after { OnOk result (workspaces.new ≡ load_kept told workspaces.old) }
{
    if !workspaces.is_loading() {
        return Ok(None);
    }
    workspaces.end_load(told)
}

// Crate data that comes goes into the world, with the roots that are present.
#[tactic(auto, unfolding(session_model::specs::Machine::crates_arrived))]
fn let_in(store: &mut Store, crates: Option<CrateData>, out: &mut TurnOut) -> Result<(), TurnError>
    ensures { Refines result (crates_arrived crates (record { state = store.old; out = out.old })) store.new out.new }
{
    match crates {
        None => Ok(()),
        Some(crates) => put_crates(store, crates, out),
    }
}

/// The end of a load of macros is told to the workspaces, and crate data that waited for it goes into the world. Answers
/// whether there was some.
#[tactic(auto, unfolding(session_model::specs::Machine::macros_taken))]
pub fn take_macros(store: &mut Store, told: LoadEnd, out: &mut TurnOut) -> Result<bool, TurnError>
    ensures meets { Refines result (macros_taken told (record { state = store.old; out = out.old })) store.new out.new }
    ensures came { IfOk result (λ came. came ≡ is_some (crates_loaded told store.old.workspaces)) }
{
    let crates = end_load(&mut store.workspaces, told)?;
    let came = crates.is_some();
    let_in(store, crates, out)?;
    Ok(came)
}

// What the job of a load of these libraries is to find.
fn load_kind(
    alloc: Global,
    settings: &Config,
    paths: Items<Items<(u32, MacroPath)>>,
) -> Result<JobKind, AllocError>
    ensures { IfOk result (λ kind. kind ≡ load_kind settings.now paths) }
{
    Ok(JobKind::LoadProcMacros {
        paths,
        ignored: copied(alloc, settings.proc_macro_ignored(None))?,
    })
}

// Hands over the job of a load that is to start.
#[tactic(auto, unfolding(session_model::specs::Machine::load_handed_over))]
fn hand_over_load(
    store: &mut Store,
    paths: Option<Items<Items<(u32, MacroPath)>>>,
    out: &mut TurnOut,
) -> Result<(), TurnError>
    ensures { Refines result (load_handed_over paths (record { state = store.old; out = out.old })) store.new out.new }
{
    match paths {
        None => Ok(()),
        Some(paths) => {
            let kind = load_kind(store.alloc, store.client.settings(), paths)?;
            store.hand_over(kind, out)
        }
    }
}

// Starts the load that is asked for, where neither a fetch nor another load is in progress, nor this run of build data starts.
#[tactic(auto, unfolding(session_model::specs::Machine::load_started, session_model::specs::Machine::load_handed_over))]
pub(crate) fn start_load(
    store: &mut Store,
    build: Option<u64>,
    out: &mut TurnOut,
) -> Result<(), TurnError>
    ensures { Refines result (load_started build (record { state = store.old; out = out.old })) store.new out.new }
{
    match build {
        Some(_) => Ok(()),
        None => {
            let paths = store.workspaces.start_load();
            hand_over_load(store, paths, out)
        }
    }
}
