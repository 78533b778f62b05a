// What the calls come to.
ghost use Rattle.std.specs.Prelude.{◌≡◌, ℕ, ◌+◌, ◌-◌, ◌<◌, ◌≤◌, ◌^◌, true, false, List, [], ◌∷◌, ◌++◌, All, Option, None, Some, slice_get, if◌then◌else◌};
ghost use Rattle.std.specs.List.{count_by};
ghost use Rattle.op_board.specs.QueueRuns.{running as running_in};
ghost use Rattle.project_model.specs.declared.workspace.ProjectWorkspace.{ProjectWorkspace};
ghost use Rattle.ra_config.specs.Config.{ConfigData};
ghost use Rattle.session_port.specs.declared.news.CheckProgress.{CheckProgress};
ghost use Rattle.session_port.specs.declared.news.CheckProgress.TheVariants.{DidStart, DidCheckCrate};
ghost use Rattle.session_port.specs.declared.event.LoaderMsg.{LoaderMsg};
ghost use Rattle.session_port.specs.declared.event.LoaderMsg.TheVariants.{Progress as IsAt};
ghost use Rattle.session_port.specs.declared.event.LoadingProgress.TheVariants.{Progress as Reported};
ghost use Rattle.activities.specs.CheckNames.{token_of};
ghost use Rattle.activities.specs.CheckRuns.{CheckAct, check_step, checks_after, Rises, IsOfWorkspace, IsOfSet, GoesOn};
ghost use Rattle.activities.specs.CheckRuns.CheckAct.{Progresses};
ghost use Rattle.activities.specs.Checks.{Checks, ids_of, is_checked, is_given, checks_for, is_end, is_set, cancelled_at};
ghost use Rattle.activities.specs.DiscoveryRuns.{DiscoveryAct, discovery_after, orders_given, ends_heard, begins_told, ends_told, going_on};
ghost use Rattle.activities.specs.Priming.{Priming, is_due, kept_of, prime_told};
ghost use Rattle.activities.specs.PrimingRuns.{PrimeAct, priming_after, jobs_started, jobs_ended, without_passed};
ghost use Rattle.activities.specs.Scanning.{scan_reported, scans_told};
ghost use Rattle.activities.specs.ScanRuns.{leaves_last};
ghost use Rattle.activities.specs.Settings.{runs_once, words_set};
ghost use Rattle.activities.specs.TestRun.{Tests};
ghost use Rattle.activities.specs.TestRuns.{TestAct, test_step, tests_after, stops_run, runs_started, runs_ended, running, programs_ended, StartsNone};
ghost use Rattle.activities.specs.TestRuns.TestAct.{Runs};
ghost use Rattle.activities.specs.declared.priming.PrimeMsg.{PrimeMsg};
ghost use Rattle.activities.specs.declared.telling.Telling.{Telling};
ghost use Rattle.activities.specs.declared.priming.PrimeMsg.TheVariants as prime;
ghost use Rattle.activities.specs.declared.telling.Telling.TheVariants.{Begin, Report, End, CancelCheck};

/// After every run the ids of the checks that are set rise, so no two are the same.
pub fn ids_are_distinct_and_rise()
    ensures { (run : List CheckAct) → Rises (ids_of (checks_after run)) }
{}

/// Where one check runs for all workspaces, it is for the root path. Else each check is of the workspace at its place, and
/// each workspace that has one has just that.
pub fn each_check_is_of_its_workspace()
    ensures once { (settings : ConfigData) (present : List ProjectWorkspace) → runs_once settings ≡ true
        → checks_for settings present ≡ (0, settings.root_path) ∷ [] }
    ensures sound { (settings : ConfigData) (present : List ProjectWorkspace) (at : ℕ) (check : ℕ × List ℕ) → runs_once settings ≡ false
        → slice_get (checks_for settings present) at ≡ Some check → IsOfWorkspace (is_given (words_set settings)) present check }
    ensures whole { (settings : ConfigData) (present : List ProjectWorkspace) (place : ℕ) (workspace : ProjectWorkspace) → runs_once settings ≡ false
        → slice_get present place ≡ Some workspace → is_checked (is_given (words_set settings)) workspace.kind ≡ true
        → (at : ℕ) × (slice_get (checks_for settings present) at ≡ Some (place, workspace.root)) }
{}

/// Whatever a call on checks tells, only checks that are set restart and are cancelled.
pub fn only_checks_that_are_set_restart()
    ensures { (run : List CheckAct) (act : CheckAct) → All (IsOfSet (checks_after run)) (check_step act (checks_after run)).tellings }
{}

/// A check ends under the title and the token that it began with, and reports under them meanwhile, unless checks were set or
/// it was started anew in between. The settings may have changed.
pub fn a_check_ends_under_the_title_that_it_began_with()
    ensures { (before since : List CheckAct) (then_set now_set : ConfigData) (id : ℕ) (command : List ℕ) (end : CheckProgress)
        → All (GoesOn id) since → is_end end ≡ true
        → (title : List ℕ)
        × ((check_step (Progresses then_set id (DidStart command)) (checks_after before)).tellings
        ≡ Begin title (Some (token_of id)) None None ∷ [])
        × ((check_step (Progresses now_set id end) (checks_after (since ++ Progresses then_set id (DidStart command) ∷ before))).tellings
        ≡ End title (Some (token_of id)) None ∷ [])
        × ((name : List ℕ)
        → (check_step (Progresses now_set id (DidCheckCrate name)) (checks_after (since ++ Progresses then_set id (DidStart command) ∷ before))).tellings
        ≡ Report title (Some (token_of id)) (Some name) None ∷ []) }
{}

/// The token under which a check is told cancels this check and no other, where its id has at most 32 bits.
pub fn a_token_cancels_its_check()
    ensures { (id : ℕ) (checks : Checks) → id < 2 ^ 32
        → cancelled_at (token_of id) checks ≡ (if is_set id checks then CancelCheck id ∷ [] else []) }
{}

/// Of the runs of tests that were ordered each has ended once but for the one in progress, if there is one; and a host is told
/// to stop a run only where one is in progress.
pub fn a_run_of_tests_ends_once()
    ensures ends { (run : List TestAct) → runs_started run ≡ runs_ended run + running (tests_after run) }
    ensures stops { (act : TestAct) (tests : Tests) → tests.active ≡ false → count_by stops_run (test_step act tests).tellings ≡ 0 }
{}

/// What remains of a run of tests is a program for each workspace less those that have ended since, never below none, until
/// another begins.
pub fn a_run_of_tests_has_a_program_for_each_workspace()
    ensures { (before since : List TestAct) (include exclude : Option (List (List ℕ))) (more : ℕ) → StartsNone since
        → (tests_after (since ++ Runs include exclude (more + 1) ∷ before)).remaining ≡ (more + 1) - programs_ended since }
{}

/// The discoveries in progress are never more than were ordered, nor fewer than were ordered less those that have ended; each order
/// has a number of its own. The work that is told of them begins with the first and ends with the last, in turn.
pub fn discoveries_never_fall_below_none()
    ensures given { (first : ℕ) (run : List DiscoveryAct) → (discovery_after first run).given ≡ first + orders_given first run }
    ensures most { (first : ℕ) (run : List DiscoveryAct) → (discovery_after first run).active ≤ orders_given first run }
    ensures least { (first : ℕ) (run : List DiscoveryAct) → orders_given first run ≤ (discovery_after first run).active + ends_heard run }
    ensures told { (first : ℕ) (run : List DiscoveryAct) → begins_told first run ≡ ends_told first run + going_on (discovery_after first run) }
{}

/// One job that primes is in progress at most: all that were started but for that one have ended. One that was cancelled is due again.
pub fn one_priming_runs()
    ensures one { (run : List PrimeAct) → jobs_started run ≡ jobs_ended run + running_in (priming_after run) }
    ensures again { (priming : Priming) → priming.in_progress ≡ true → is_due (prime_told (prime.End true) priming).state ≡ true }
{}

/// The last that a batch of a loader's messages tells is the last report in it, where no end came behind that.
pub fn a_loader_is_told_to_its_last_report()
    ensures { (root : List ℕ) (before after : List LoaderMsg) (done total : ℕ) (dir : Option (List ℕ)) (version : ℕ)
        → All (λ message. leaves_last message ≡ true) after
        → (front : List Telling) × (scans_told root (before ++ IsAt total (Reported done) dir version ∷ after) ≡ front ++ scan_reported root done total dir ∷ []) }
{}

/// Of a batch's messages of priming a report that has a report right behind it is left out, and no other message is.
pub fn a_report_gives_way_to_the_next()
    ensures { (batch : List PrimeMsg) → kept_of batch ≡ without_passed batch }
{}
