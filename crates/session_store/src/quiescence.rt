// Whether a session has come to rest.
ghost use Rattle.std.specs.Prelude.{◌≡◌};
ghost use Rattle.session_model.specs.Status.{is_quiescent, loader_settings};

use session_model::SessionFiles;
use workspaces::Workspaces;

// The version of the settings that the loader was given last, else 0.
fn loader_settings(workspaces: &Workspaces) -> u32
    ensures { result ≡ loader_settings workspaces.now }
{
    if workspaces.version() == 0 {
        0
    } else {
        workspaces.loader_version()
    }
}

/// Whether no files are loading, and nothing that renews the workspaces is in progress or waits for a timer.
pub fn is_quiescent(files: &SessionFiles, workspaces: &Workspaces) -> bool
    ensures { result ≡ is_quiescent files.now workspaces.now }
{
    !files.is_loading()
        && workspaces.is_idle()
        && !(files.progress_version() < loader_settings(workspaces))
}
