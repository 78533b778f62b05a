//! One run of build data for each workspace.
ghost use Rattle.std.specs.Prelude.{◌≡◌, IfOk};
ghost use Rattle.workspaces.specs.Builds.{one_each, runs_of};

use plain::{Items, NoMemory, Text};
use project_model::BuildScripts;
use std::alloc::Global;

/// What the build scripts of a workspace made, or why they didn't run.
type Run = Result<BuildScripts, Text>;

#[tactic(auto, using(crate::proofs::Entries::next_run, crate::proofs::Entries::next_missing, crate::proofs::Entries::all_made))]
fn one_each(
    alloc: Global,
    error: &str,
    count: usize,
    runs: Items<Run>,
) -> Result<Items<Run>, NoMemory>
    ensures { IfOk result (λ list. list ≡ one_each error.now count runs) }
{
    let mut list = Items::new(alloc);
    let mut given = runs.into_vec().into_iter();
    for _ in 0..count {
        match given.next() {
            Some(run) => list.push(run)?,
            None => list.push(Err(Text::from_str(alloc, error)?))?,
        }
    }
    Ok(list)
}

/// The runs that are kept of what was given.
pub(crate) fn runs_of(
    alloc: Global,
    given: Result<Items<Run>, Text>,
    count: usize,
) -> Result<Items<Run>, NoMemory>
    ensures { IfOk result (λ list. list ≡ runs_of given count) }
{
    match given {
        Ok(runs) => one_each(alloc, "missing", count, runs),
        Err(error) => one_each(alloc, error.as_str(), count, Items::new(alloc)),
    }
}
