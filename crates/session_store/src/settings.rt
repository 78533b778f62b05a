// What the settings say.
ghost use Rattle.std.specs.Prelude.{◌≡◌};
ghost use Rattle.session_model.specs.Restarting.{checks_all_on_save, checks_saves, checks_workspaces};
ghost use Rattle.session_model.specs.State.{discovers, goes_by_folders, may_fetch, loads_macros, builds_scripts, client_watches, excludes_in, watched_names};

use docs_vfs::VfsPath;
use plain::Text;
use ra_config::{Config, FilesWatcher};

/// Whether the projects are discovered by a command.
pub fn discovers(settings: &Config) -> bool
    ensures { result ≡ discovers settings.now }
{
    settings.workspace_discover_config().is_some()
}

/// Whether workspaces may be fetched.
pub fn may_fetch(settings: &Config) -> bool
    ensures { result ≡ may_fetch settings.now }
{
    settings.cargo_autoreload() || discovers(settings)
}

/// Whether the client's folders say what the workspaces are: no project is linked, and no file stands alone.
pub fn goes_by_folders(settings: &Config) -> bool
    ensures { result ≡ goes_by_folders settings.now }
{
    settings.linked_projects().is_empty() && settings.detached_files().is_empty()
}

/// Whether macros are loaded.
pub fn loads_macros(settings: &Config) -> bool
    ensures { result ≡ loads_macros settings.now }
{
    settings.proc_macro_enable()
}

/// The prefixes of the files that are excluded.
pub fn excludes(settings: &Config) -> &[VfsPath]
    ensures { result.now ≡ excludes_in settings.now }
{
    settings.files_exclude()
}

/// Whether build scripts are run.
pub fn builds_scripts(settings: &Config) -> bool
    ensures { result ≡ builds_scripts settings.now }
{
    settings.cargo_build_scripts_enable(None)
}

/// Whether the client watches files.
pub fn client_watches(settings: &Config) -> bool
    ensures { result ≡ client_watches settings.now }
{
    match settings.files_watcher() {
        FilesWatcher::Client => settings.watched_files_registration(),
        FilesWatcher::Server => false,
    }
}

/// The names of the files that the command that discovers the projects watches.
pub fn watched_names(settings: &Config) -> &[Text]
    ensures { result.now ≡ watched_names settings.now }
{
    match settings.workspace_discover_config() {
        None => &[],
        Some(command) => command.files_to_watch.as_slice(),
    }
}

/// Whether checks are made of whole workspaces.
pub fn checks_workspaces(settings: &Config) -> bool
    ensures { result ≡ checks_workspaces settings.now }
{
    settings.check_workspace(None)
}

/// Whether checks are made when files are saved.
pub fn checks_saves(settings: &Config) -> bool
    ensures { result ≡ checks_saves settings.now }
{
    settings.check_on_save(None)
}

/// Whether they are made then of whole workspaces.
pub fn checks_all_on_save(settings: &Config) -> bool
    ensures { result ≡ checks_all_on_save settings.now }
{
    checks_saves(settings) && checks_workspaces(settings)
}
