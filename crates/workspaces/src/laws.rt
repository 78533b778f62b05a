// What the calls come to.
ghost use Rattle.std.specs.Prelude.{◌≡◌, ◌≢◌, ◌⊎◌, ℕ, ◌+◌, Bool, true, false, List, ◌++◌, Some, None, Result, length, map, option_map};
ghost use Rattle.op_board.specs.QueueRuns.{running};
ghost use Rattle.project_model.specs.declared.crates.MacroState.{MacroState};
ghost use Rattle.project_model.specs.declared.workspace.ProjectWorkspace.{ProjectWorkspace};
ghost use Rattle.reload.specs.Switch.{Fetched, BuildRuns, with_builds};
ghost use Rattle.reload.specs.declared.switch.Switch.TheVariants.{Join};
ghost use Rattle.workspaces.specs.Builds.{build_to_start, end_build, runs_of};
ghost use Rattle.workspaces.specs.FetchRuns.{FetchAct, fetches_after, IsFetchRun, fetches_started, fetches_ended, last_ordered, asks_force, StartsNone};
ghost use Rattle.workspaces.specs.FetchRuns.{last_forced};
ghost use Rattle.workspaces.specs.Fetches.{fetch_to_start, start_fetch, end_fetch, starts_forced, fire};
ghost use Rattle.workspaces.specs.Loads.{load_to_start, macros_of};
ghost use Rattle.workspaces.specs.QueueRuns.{BuildAct, builds_after, IsBuildRun, builds_started, counts_started, builds_ended, last_started, LoadAct, loads_after, IsLoadRun};
ghost use Rattle.workspaces.specs.QueueRuns.{loads_started, loads_ended};
ghost use Rattle.workspaces.specs.Switching.{was_forced, version_built, decided};
ghost use Rattle.workspaces.specs.Workspaces.{Builds, Fetches, Loads, Workspaces};
ghost use Rattle.workspaces.specs.declared.outputs.BuildOutput.{BuildOutput};

/// A forced fetch that waits in the queue or for a timer stays forced, whatever is asked for, planned and fired, until it
/// starts; and then it starts forced, unless it still waits for its timer. What a fetch found is kept with its force flag.
pub fn force_is_kept()
    ensures waiting { (since before : List FetchAct) → StartsNone since → asks_force (fetches_after before) ≡ true
        → asks_force (fetches_after (since ++ before)) ≡ true }
    ensures started { (may_fetch : Bool) (f : Fetches) → asks_force f ≡ true
        → (starts_forced false (fetch_to_start may_fetch f) ≡ true) ⊎ (asks_force (start_fetch may_fetch f) ≡ true) }
    ensures ended { (run : List FetchAct) (found : Result Fetched (List ℕ))
        → was_forced (end_fetch found (fetches_after run)).queue.last ≡ last_forced (fetches_started run) }
{}

/// What waits for a timer waits for the last one that was ordered; any other changes nothing.
pub fn old_timers_change_nothing()
    ensures { (run : List FetchAct) (ticket : ℕ) → last_ordered run ≢ Some ticket
        → fire ticket (fetches_after run) ≡ fetches_after run }
{}

/// One fetch, one run of build data and one load of macros is in progress at most: all that were started but for that one
/// have ended.
pub fn one_of_each_runs()
    ensures fetch { (run : List FetchAct) → IsFetchRun run
        → length (fetches_started run) ≡ fetches_ended run + running (fetches_after run).queue }
    ensures build { (run : List BuildAct) → IsBuildRun run
        → length (builds_started run) ≡ builds_ended run + running (builds_after run).queue }
    ensures load { (run : List LoadAct) → IsLoadRun run
        → length (loads_started run) ≡ loads_ended run + running (loads_after run).queue }
{}

/// While a fetch is in progress no build data and no macros are asked of the host.
pub fn fetches_come_first()
    ensures build { (version : ℕ) (b : Builds) → build_to_start true version b ≡ None }
    ensures load { (l : Loads) → load_to_start true l ≡ None }
{}

/// What a run of build data made is kept with the version on which it was started, one entry for each workspace that there
/// was then, and build data of another version of the workspaces than the present one is not joined to them.
pub fn old_build_data_is_not_joined()
    ensures kept { (run : List BuildAct) (made : Result BuildRuns (List ℕ))
        → version_built (end_build made (builds_after run)).queue.last ≡ last_started (builds_started run) }
    ensures counted { (run : List BuildAct) (made : Result BuildRuns (List ℕ))
        → option_map (λ output. length output.runs) (end_build made (builds_after run)).queue.last ≡ Some (last_started (counts_started run)) }
    ensures with_builds { (discover build_scripts : Bool) (w : Workspaces) (made : List ProjectWorkspace) → decided discover build_scripts w ≡ Join made
        → (output : BuildOutput) × (w.builds.queue.last ≡ Some output) × (output.version ≡ w.version) × (made ≡ with_builds output.runs w.present) }
{
    reload::build_data_is_joined_to_its_version();
}

/// What is kept of a run of build data has one run for each workspace, and of a load of macros one state for each crate
/// that was listed, in order.
pub fn each_has_one_entry()
    ensures runs { (given : Result BuildRuns (List ℕ)) (count : ℕ) → length (runs_of given count) ≡ count }
    ensures macros { (told : Result (List (ℕ × MacroState)) (List ℕ)) (listed : List ℕ) → map (λ entry. entry.0) (macros_of told listed) ≡ listed }
{}
