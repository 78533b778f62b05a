// Files that the client watches.
ghost use Rattle.std.specs.FinMap as map;
ghost use Rattle.docs_vfs.specs.FileUrls.{path_of};
ghost use Rattle.session_port.specs.Refines.{Refines, RefinesTotal};
ghost use Rattle.session_model.specs.Machine.{checks_restarted_if, file_changed, files_changed};
ghost use Rattle.session_model.specs.Restarting.{restart_checks};
ghost use Rattle.session_model.specs.State.{State};

use crate::checking::restart_checks;
use docs_vfs::path_named;
use plain::{ByText, Items, Text};
use session_activities::restart_checks_if;
use session_model::TurnError;
use session_port::{Command, LogCode, TurnOut};
use session_store::{Store, log, order};
use std::alloc::Global;

// The file of a URL is to be read anew.
#[tactic(auto, unfolding(session_model::specs::Machine::file_changed))]
fn change_file(alloc: Global, url: Text, out: &mut TurnOut) -> Result<(), TurnError>
    ensures { (state : State) → RefinesTotal result (file_changed url (path_of url) (record { state = state; out = out.old })) state out.new }
{
    match path_named(alloc, url.as_str())? {
        Some(path) => order(Command::Invalidate(path), out),
        None => log(LogCode::BadPath, url, out),
    }
}

// The files of URLs are to be read anew, each once.
#[tactic(auto, unfolding(session_model::specs::Machine::files_changed))]
fn change_files(alloc: Global, urls: Items<Text>, out: &mut TurnOut) -> Result<(), TurnError>
    ensures { (state : State) → RefinesTotal result (files_changed map.empty urls (record { state = state; out = out.old })) state out.new }
{
    let mut seen = ByText::new(alloc);
    for url in urls.into_vec() {
        if !seen.contains(&url) {
            seen.insert(url.clone()?, ())?;
            change_file(alloc, url, out)?;
        }
    }
    Ok(())
}

// Files that the client watches have changed. Where one of them lies outside the workspaces' folders, checks may restart.
pub(crate) fn on_changes(
    store: &mut Store,
    urls: Items<Text>,
    out: &mut TurnOut,
) -> Result<(), TurnError>
    ensures { Refines result (checks_restarted_if (restart_checks store.old.client.settings urls) (files_changed map.empty urls (record { state = store.old; out = out.old }))) store.new out.new }
{
    let wanted = restart_checks(store.alloc, store.client.settings(), &urls)?;
    change_files(store.alloc, urls, out)?;
    restart_checks_if(store, wanted, out)
}
