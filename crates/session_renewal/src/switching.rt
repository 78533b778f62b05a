// Switches to workspaces that were fetched.
ghost use Rattle.std.specs.Prelude.{◌≡◌, ◌⊎◌, None, Some, Ok, Err, IfOk, IfErr, OnOk};
ghost use Rattle.session_port.specs.Refines.{Refines, RefinesTotal};
ghost use Rattle.session_port.specs.declared.fault.Counter.TheVariants.{LoaderSettings};
ghost use Rattle.session_port.specs.declared.fault.TurnError.TheVariants.{Exhausted, NoMemory as OutOfMemory};
ghost use Rattle.activities.specs.Work.{graph_told};
ghost use Rattle.session_model.specs.Machine.{switch_followed, loader_set, roots_renewed, switch_done, tellings_told, crates_come, warned};
ghost use Rattle.session_model.specs.Sources.{other_parents, sources_now};
ghost use Rattle.session_model.specs.State.{State};
ghost use Rattle.session_model.specs.Switching.{switch_by, switch_made};

use crate::crates::{build_crates, builds_crates, follow_crates};
use crate::registering::register_watchers;
use activities::graph_told;
use docs_vfs::SourceRoots;
use notify::{MessageKind, Outgo};
use plain::{Items, Text};
use ra_config::Config;
use session_activities::tell_all;
use session_model::{Client, Counter, SessionFiles, TurnError};
use session_port::{Command, TurnOut};
use session_store::{Store, builds_scripts, client_watches, discovers, excludes, order};
use std::alloc::{AllocError, Global};
use workspaces::{Follows, SwitchFault, Workspaces};

// The user is told of a compiler that is too old.
#[tactic(auto, unfolding(session_model::specs::Machine::warned, session_port::specs::TurnState::written))]
fn warn(client: &Client, texts: Items<Text>, out: &mut TurnOut) -> Result<(), TurnError>
    ensures { (state : State) → RefinesTotal result (warned texts (record { state = state; out = out.old })) state out.new }
{
    for message in texts.into_vec() {
        let kind = MessageKind::Warning;
        client.tell(Outgo::ShowMessage { message, kind }, out)?;
    }
    Ok(())
}

// The host is to load the files of the workspaces that are present.
#[tactic(auto, unfolding(session_model::specs::Machine::loader_set))]
fn set_loader(store: &Store, version: u32, out: &mut TurnOut) -> Result<(), TurnError>
    ensures { RefinesTotal result (loader_set version (record { state = store.now; out = out.old })) store.now out.new }
{
    let settings = store.client.settings();
    let load = store.workspaces.loader_roots(excludes(settings))?;
    let watch = !client_watches(settings);
    order(
        Command::SetLoader {
            load,
            watch,
            version,
        },
        out,
    )
}

// The roots that the loader gets for the workspaces that are present.
fn roots_now(store: &Store) -> Result<SourceRoots, AllocError>
    ensures { IfOk result (λ roots. roots ≡ (sources_now store.now.client.settings store.now.workspaces).roots) }
{
    let excludes = excludes(store.client.settings());
    SourceRoots::new(store.workspaces.loader_roots(excludes)?)
}

// The parents of the roots, where the settings have others.
fn other_parents(
    store: &Store,
    roots: &SourceRoots,
) -> Result<Option<Items<(u32, u32)>>, AllocError>
    ensures { IfOk result (λ parents. parents ≡ other_parents store.now.client.settings roots.now) }
{
    let pairs = roots.parent_map()?;
    let has_parents = store
        .client
        .settings()
        .has_parents(store.alloc, pairs.as_slice())?;
    if has_parents {
        return Ok(None);
    }
    Ok(Some(pairs))
}

// The source roots are those that the loader gets.
#[tactic(auto, unfolding(session_model::specs::Machine::roots_renewed))]
fn renew_roots(store: &mut Store, out: &mut TurnOut) -> Result<(), TurnError>
    ensures { RefinesTotal result (roots_renewed (record { state = store.old; out = out.old })) store.new out.new }
{
    let roots = roots_now(store)?;
    store.parents = other_parents(store, &roots)?;
    store.roots = roots;
    Ok(())
}

// It is told that crate data is built.
fn tell_graph(store: &mut Store, out: &mut TurnOut) -> Result<(), TurnError>
    ensures { Refines result (tellings_told graph_told (record { state = store.old; out = out.old })) store.new out.new }
{
    let told = graph_told(store.alloc)?;
    tell_all(store, told, out)
}

// What the user, the client and the host are told behind a switch, and the roots that it renews.
#[tactic(auto, unfolding(session_model::specs::Machine::switch_followed))]
fn follow(store: &mut Store, follows: Follows, out: &mut TurnOut) -> Result<(), TurnError>
    ensures { Refines result (switch_followed follows (record { state = store.old; out = out.old })) store.new out.new }
{
    match follows {
        Follows::Nothing => Ok(()),
        Follows::CrateData => tell_graph(store, out),
        Follows::Wait { msrv } => warn(&store.client, msrv, out),
        Follows::GoOn {
            msrv,
            loader_version,
            ..
        } => {
            warn(&store.client, msrv, out)?;
            register_watchers(store, out)?;
            set_loader(store, loader_version, out)?;
            renew_roots(store, out)?;
            tell_graph(store, out)
        }
    }
}

// The switch by the settings, and what follows it.
fn make_switch(settings: &Config, workspaces: &mut Workspaces) -> Result<Follows, TurnError>
    ensures made { IfOk result (λ follows. switch_by settings.now workspaces.old ≡ Some (follows, workspaces.new)) }
    ensures err { IfErr result (λ e. (e ≡ OutOfMemory) ⊎ ((e ≡ Exhausted LoaderSettings) × (switch_by settings.now workspaces.old ≡ None))) }
{
    if !workspaces.has_next_version() {
        return Err(TurnError::Exhausted {
            counter: Counter::LoaderSettings,
        });
    }
    match workspaces.switch(discovers(settings), builds_scripts(settings)) {
        Ok(follows) => Ok(follows),
        Err(SwitchFault::Exhausted) => Err(TurnError::Exhausted {
            counter: Counter::LoaderSettings,
        }),
        Err(SwitchFault::NoMemory) => Err(TurnError::NoMemory),
    }
}

// The same where a switch is wanted and no files are loading, with the crate data that is built behind it; else nothing follows.
fn make_switch_if_due(
    alloc: Global,
    settings: &Config,
    files: &SessionFiles,
    workspaces: &mut Workspaces,
) -> Result<Follows, TurnError>
    ensures made { IfOk result (λ follows. switch_made settings.now files.now workspaces.old ≡ Ok (follows, workspaces.new)) }
    ensures err { IfErr result (λ e. (e ≡ OutOfMemory) ⊎ ((e ≡ Exhausted LoaderSettings) × (switch_made settings.now files.now workspaces.old ≡ Err LoaderSettings))) }
{
    if workspaces.is_switch_wanted() && !files.is_loading() {
        let follows = make_switch(settings, workspaces)?;
        follow_crates(alloc, settings, files, &follows, workspaces)?;
        Ok(follows)
    } else {
        Ok(Follows::Nothing)
    }
}

/// The switch that is wanted is made, unless files are loading, and what follows it is done. Answers whether crate data
/// goes into the world with it.
#[tactic(auto, unfolding(session_model::specs::Machine::switch_done, session_model::specs::Machine::switch_taken))]
pub fn switch_workspaces(store: &mut Store, out: &mut TurnOut) -> Result<bool, TurnError>
    ensures meets { Refines result (switch_done (record { state = store.old; out = out.old })) store.new out.new }
    ensures crates { IfOk result (λ crates. crates ≡ crates_come store.old) }
{
    let follows = make_switch_if_due(
        store.alloc,
        store.client.settings(),
        &store.files,
        &mut store.workspaces,
    )?;
    let built = builds_crates(store.client.settings(), &follows);
    follow(store, follows, out)?;
    build_crates(store, built, out)?;
    Ok(built)
}
