// What was fetched and built.
ghost use Rattle.std.specs.Prelude.{◌≡◌};
ghost use Rattle.std.specs.Option.{option_copied};
ghost use Rattle.workspaces.specs.Switching.{list_fetched, was_forced, runs_built, version_built};

use plain::{Items, Text};
use project_model::{BuildScripts, ProjectWorkspace};

/// What a fetch found, and whether it was forced.
pub struct FetchOutput {
    pub workspaces: Items<Result<ProjectWorkspace, Text>>,
    pub forced: bool,
}

impl Drop for FetchOutput {
    fn drop(self) {
        let FetchOutput {
            workspaces: _,
            forced: _,
        } = self;
    }
}

/// What the build scripts of each workspace made, and the version of the workspaces.
pub struct BuildOutput {
    pub version: u64,
    pub runs: Items<Result<BuildScripts, Text>>,
}

impl Drop for BuildOutput {
    fn drop(self) {
        let BuildOutput {
            version: _,
            runs: _,
        } = self;
    }
}

pub(crate) fn list_fetched(last: Option<&FetchOutput>) -> Option<&[Result<ProjectWorkspace, Text>]>
    ensures { option_copied result ≡ list_fetched (option_copied last.entry) }
{
    match last {
        None => None,
        Some(output) => Some(output.workspaces.as_slice()),
    }
}

pub(crate) fn was_forced(last: Option<&FetchOutput>) -> bool
    ensures { result ≡ was_forced (option_copied last.entry) }
{
    match last {
        None => false,
        Some(output) => output.forced,
    }
}

pub(crate) fn runs_built(last: Option<&BuildOutput>) -> Option<&[Result<BuildScripts, Text>]>
    ensures { option_copied result ≡ runs_built (option_copied last.entry) }
{
    match last {
        None => None,
        Some(output) => Some(output.runs.as_slice()),
    }
}

pub(crate) fn version_built(last: Option<&BuildOutput>) -> u64
    ensures { result ≡ version_built (option_copied last.entry) }
{
    match last {
        None => 0,
        Some(output) => output.version,
    }
}
