// Checks that a client asks for, and those that restart for files that it saves or watches.
ghost use Rattle.std.specs.Prelude.{◌≡◌, not, IfOk};
ghost use Rattle.std.specs.List.{list_any};
ghost use Rattle.docs_vfs.specs.FileUrls.{path_of};
ghost use Rattle.docs_vfs.specs.Paths.{is_within};
ghost use Rattle.session_port.specs.Refines.{Refines};
ghost use Rattle.session_model.specs.Machine.{checks_run, file_checked_at};
ghost use Rattle.session_model.specs.Restarting.{is_outside, restart_checks};

use docs_vfs::{VfsPath, path_named};
use plain::{Items, Text};
use ra_config::Config;
use session_activities::{check_file_if, restart_checks_if};
use session_model::TurnError;
use session_port::{LogCode, TurnOut};
use session_store::{Store, checks_saves, checks_workspaces, log};
use std::alloc::{AllocError, Global};

// Whether a path lies outside one of these folders.
fn is_path_outside(folders: &[VfsPath], path: &VfsPath) -> bool
    ensures { result ≡ list_any (λ folder. not (is_within folder path.now)) folders.now }
{
    folders.iter().any(|folder| !path.starts_with(folder))
}

// Whether the file of a URL does.
fn is_outside(alloc: Global, folders: &[VfsPath], url: &str) -> Result<bool, AllocError>
    ensures { IfOk result (λ outside. outside ≡ is_outside folders.now (path_of url.now)) }
{
    match path_named(alloc, url)? {
        None => Ok(false),
        Some(path) => Ok(is_path_outside(folders, &path)),
    }
}

// The same of one of these URLs.
fn are_outside(alloc: Global, folders: &[VfsPath], urls: &[Text]) -> Result<bool, AllocError>
    ensures { IfOk result (λ outside. outside ≡ list_any (λ url. is_outside folders.now (path_of url)) urls.now) }
{
    for url in urls {
        if is_outside(alloc, folders, url.as_str())? {
            return Ok(true);
        }
    }
    Ok(false)
}

/// Whether checks restart for files of these URLs, which changed.
pub(crate) fn restart_checks(
    alloc: Global,
    settings: &Config,
    urls: &Items<Text>,
) -> Result<bool, AllocError>
    ensures { IfOk result (λ restart. restart ≡ restart_checks settings.now urls.now) }
{
    if !checks_saves(settings) {
        return Ok(false);
    }
    are_outside(alloc, settings.workspace_roots(), urls.as_slice())
}

// A check of the file of a URL is asked for.
#[tactic(auto, unfolding(session_model::specs::Machine::file_checked_at))]
fn check_file_at(store: &mut Store, uri: Text, out: &mut TurnOut) -> Result<(), TurnError>
    ensures { Refines result (file_checked_at uri (path_of uri) (record { state = store.old; out = out.old })) store.new out.new }
{
    match path_named(store.alloc, uri.as_str())? {
        Some(path) => check_file_if(store, true, path, out),
        None => log(LogCode::BadPath, uri, out),
    }
}

/// A check of the file of a URL is asked for, or, without one, of all there is.
#[tactic(auto, unfolding(session_model::specs::Machine::checks_run))]
pub(crate) fn run_checks(
    store: &mut Store,
    uri: Option<Text>,
    out: &mut TurnOut,
) -> Result<(), TurnError>
    ensures { Refines result (checks_run uri (record { state = store.old; out = out.old })) store.new out.new }
{
    match uri {
        None => {
            let wanted = checks_workspaces(store.client.settings());
            restart_checks_if(store, wanted, out)
        }
        Some(uri) => check_file_at(store, uri, out),
    }
}
