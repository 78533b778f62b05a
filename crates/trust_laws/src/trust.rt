// What a quiescent session is, and shows, since its last batch.
ghost use Rattle.std.specs.Prelude.{◌≡◌, ◌+◌, ◌++◌, ◌∷◌, Bool, List, Result, true, Some};
ghost use Rattle.lsp_frame.specs.Reader.{Reader};
ghost use Rattle.std.specs.FinMap as map;
ghost use Rattle.ra_config.specs.Config.{ConfigData};
ghost use Rattle.desk.specs.Meaning.{Meaning};
ghost use Rattle.op_board.specs.Board.{next_generation};
ghost use Rattle.session_model.specs.Diagnosing.{shows_diagnostics};
ghost use Rattle.session_model.specs.OwnJobs.{before_quiet};
ghost use Rattle.session_model.specs.Run.{AreHonestTurns, IsRun, Runs, Steps, Told, Turn};
ghost use Rattle.session_model.specs.declared.fault.SessionError.{SessionError};
ghost use Rattle.trust_laws.specs.Resting.{IsTrusted};
ghost use Rattle.session_model.specs.State.{State, fresh, snapshot_of};
ghost use Rattle.quiet_laws.specs.Rest.{AsksNone, asks_batch, is_quiet};
ghost use Rattle.diagnostics_laws.specs.Shown.{HasBytePaths};
ghost use Rattle.trust_laws.specs.Trusting.{IsAsAtBatch, ShowsBrought, ShowsFound};
ghost use Rattle.trust_laws.specs.CameBack.{AllCameBack};

use docs_vfs::equal_urls_name_equal_paths;

/// Behind turns that leave the session quiescent, all that the last batch went by is as it was
/// there but for the settings, and no file was cleared since.
pub fn quiet_sessions_are_as_at_their_last_batch()
    ensures { (meaning : Meaning) (settings : ConfigData) (before : List Turn) (s : State) (turn : Turn) (mid : State) (after : List Turn) (last : State)
        → Runs meaning (fresh settings) before s → Steps meaning s turn mid → Runs meaning mid after last
        → asks_batch meaning turn.input s ≡ true → AsksNone meaning mid after → is_quiet last ≡ true
        → IsAsAtBatch (before_quiet meaning turn.input s).state last }
{}

/// Where the last generation is that of the last batch, a quiescent session shows of each file what
/// the jobs of this batch have brought of it, by its syntax and by its meaning, and then what
/// checks have found.
pub fn quiet_sessions_show_what_the_last_batch_brought()
    ensures { (meaning : Meaning) (settings : ConfigData) (before : List Turn) (s : State) (turn : Turn) (mid : State) (after : List Turn) (last : State)
        → Runs meaning (fresh settings) before s → Steps meaning s turn mid → Runs meaning mid after last
        → asks_batch meaning turn.input s ≡ true → AsksNone meaning mid after → is_quiet last ≡ true
        → last.board.generation ≡ (before_quiet meaning turn.input s).state.board.generation + 1 → HasBytePaths last.files.table
        → ShowsBrought (before ++ turn ∷ after) last }
{
    equal_urls_name_equal_paths();
}

/// Let a turn have asked for a batch, with diagnostics shown, and no turn since. Let the session be quiescent, the host be
/// honest, and all jobs of the batch have come back with values. Then at the URL of each file that is shown stands what
/// the analysis finds in it, by its syntax and, once a fetch has ended, by its meaning, and then what checks have found.
/// The snapshot is that of the batch: its world is the present one (`quiet_sessions_are_as_at_their_last_batch`), and its
/// settings are those of the batch's turn.
pub fn quiet_sessions_show_the_present()
    ensures { (meaning : Meaning) (settings : ConfigData) (before : List Turn) (s : State) (turn : Turn) (mid : State) (after : List Turn) (last : State)
        → Runs meaning (fresh settings) before s → Steps meaning s turn mid → Runs meaning mid after last
        → asks_batch meaning turn.input s ≡ true → AsksNone meaning mid after → is_quiet last ≡ true
        → let at = (before_quiet meaning turn.input s).state in
        shows_diagnostics at.client.settings ≡ true → next_generation at.board ≡ Some last.board.generation
        → HasBytePaths last.files.table
        → AreHonestTurns meaning map.empty (before ++ turn ∷ after) → AllCameBack last.board.generation (before ++ turn ∷ after)
        → ShowsFound meaning (snapshot_of at) (before ++ turn ∷ after) last }
{
    equal_urls_name_equal_paths();
}

/// The turns of a run show the present wherever the session rests, with an honest host.
pub fn runs_show_the_present()
    ensures { (meaning : Meaning) (config : ConfigData) (reader : Reader) (old new : Told) (honest : Bool) (result : Result (Unit {0}) SessionError)
        → IsRun meaning config reader old new honest result → IsTrusted meaning config reader old new honest }
{}
