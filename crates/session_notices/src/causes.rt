// What the client says that asks for a fetch.
ghost use Rattle.std.specs.Prelude.{◌≡◌, IfOk, OnOk};
ghost use Rattle.session_model.specs.Fetching.{fetch_asked, fetch_caused, folders_told_if, settings_told};
ghost use Rattle.session_model.specs.Restarting.{has_other_checks};

use change_effects::{FetchCause, update_of};
use plain::Text;
use ra_config::Config;
use std::alloc::{AllocError, Global};
use workspaces::{FetchRequest, Workspaces};

// Asks for a fetch, for this cause.
fn ask_fetch(alloc: Global, cause: &str, workspaces: &mut Workspaces) -> Result<(), AllocError>
    ensures { OnOk result (workspaces.new ≡ fetch_asked cause.now workspaces.old) }
{
    let cause = Text::from_str(alloc, cause)?;
    workspaces.ask_fetch(cause, FetchRequest::unforced());
    Ok(())
}

// Asks for the fetch of a change of settings, where it asks for one.
fn tell_cause(
    alloc: Global,
    cause: Option<FetchCause>,
    workspaces: &mut Workspaces,
) -> Result<(), AllocError>
    ensures { OnOk result (workspaces.new ≡ fetch_caused cause workspaces.old) }
{
    if let Some(cause) = cause {
        ask_fetch(alloc, cause.text(), workspaces)?;
    }
    Ok(())
}

// The settings were the old ones, and are the new ones. Others ask for a fetch. Answers whether they ask for the checks to
// be set anew.
pub(crate) fn tell_settings(
    alloc: Global,
    old: &Config,
    new: &Config,
    workspaces: &mut Workspaces,
) -> Result<bool, AllocError>
    ensures after { OnOk result (workspaces.new ≡ settings_told old.now new.now workspaces.old) }
    ensures checks { IfOk result (λ checks. checks ≡ has_other_checks old.now new.now) }
{
    let update = update_of(alloc, old, new)?;
    tell_cause(alloc, update.fetch_cause(), workspaces)?;
    Ok(update.checks)
}

// The client's folders have changed, and say what the workspaces are where this flag is set.
pub(crate) fn tell_folders_if(
    alloc: Global,
    counts: bool,
    workspaces: &mut Workspaces,
) -> Result<(), AllocError>
    ensures { OnOk result (workspaces.new ≡ folders_told_if counts workspaces.old) }
{
    if counts {
        ask_fetch(alloc, "client workspaces changed", workspaces)?;
    }
    Ok(())
}
