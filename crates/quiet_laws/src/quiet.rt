// Laws of sessions that are quiescent: by the lists of turns, at rest, and calm.
ghost use Rattle.std.specs.Prelude.{◌≡◌, ◌↔◌, List, true, false};
ghost use Rattle.std.specs.FinMap as map;
ghost use Rattle.desk.specs.Meaning.{Meaning};
ghost use Rattle.ra_config.specs.Config.{ConfigData};
ghost use Rattle.session_model.specs.OwnJobs.{before_quiet};
ghost use Rattle.session_model.specs.Run.{Runs, Steps, Turn, out_after_all};
ghost use Rattle.session_model.specs.State.{State, fresh};
ghost use Rattle.quiet_laws.specs.Heard.{IsQuietBy, heard_after_all, nothing_heard};
ghost use Rattle.quiet_laws.specs.Rest.{AsksNone, IsCalm, IsSettled, Lasts, asks_batch, is_quiet};

/// A session is quiescent exactly where the inputs and the commands of all turns so far say so.
pub fn quiescence_is_told_by_the_lists()
    ensures { (meaning : Meaning) (settings : ConfigData) (turns : List Turn) (last : State)
        → Runs meaning (fresh settings) turns last
        → is_quiet last ≡ true ↔ IsQuietBy (heard_after_all turns nothing_heard) (out_after_all turns map.empty) }
{}

/// Where the session is quiescent no switch is wanted, and no crate data waits for its macros.
pub fn quiescent_sessions_are_settled()
    ensures { (meaning : Meaning) (settings : ConfigData) (turns : List Turn) (last : State)
        → Runs meaning (fresh settings) turns last → is_quiet last ≡ true → IsSettled last }
{}

/// What a batch goes by is behind a turn as it is behind its files, and the session is quiescent behind a turn only where it
/// is so there.
pub fn what_files_leave_stands_behind_the_turn()
    ensures { (meaning : Meaning) (old : State) (turn : Turn) (new : State)
        → Steps meaning old turn new → Lasts (before_quiet meaning turn.input old).state new }
{}

/// A turn that leaves the session quiescent and asks for no batch was begun in a session that is quiescent, and changes nothing
/// that a batch goes by but the settings.
pub fn quiet_turns_without_a_batch_change_nothing()
    ensures { (meaning : Meaning) (settings : ConfigData) (turns : List Turn) (last : State) (turn : Turn) (new : State)
        → Runs meaning (fresh settings) turns last → Steps meaning last turn new
        → is_quiet new ≡ true → asks_batch meaning turn.input last ≡ false → IsCalm last new }
{}

/// Where no turn since this one has asked for a batch and the session is quiescent, nothing has changed that a batch of this
/// turn went by, but the settings.
pub fn nothing_changes_since_the_last_batch()
    ensures { (meaning : Meaning) (settings : ConfigData) (before : List Turn) (mid : State) (turn : Turn) (next : State)
        → (after : List Turn) (last : State)
        → Runs meaning (fresh settings) before mid → Steps meaning mid turn next → Runs meaning next after last
        → AsksNone meaning next after → is_quiet last ≡ true → IsCalm (before_quiet meaning turn.input mid).state last }
{}
