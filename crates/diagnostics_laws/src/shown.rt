// What a client is shown of the files, and the generations of batches.
ghost use Rattle.std.specs.Prelude.{◌≡◌, ◌≤◌, ◌+◌, ◌⊎◌, List};
ghost use Rattle.ra_config.specs.Config.{ConfigData};
ghost use Rattle.desk.specs.Meaning.{Meaning};
ghost use Rattle.session_model.specs.Run.{Runs, Steps, Turn};
ghost use Rattle.session_model.specs.State.{State, fresh};
ghost use Rattle.diagnostics_laws.specs.Batches.{HasGenerations, StoresBrought};
ghost use Rattle.diagnostics_laws.specs.Shown.{HasBytePaths, ShowsBoard};

use docs_vfs::equal_urls_name_equal_paths;

/// What was published last at the URL of each file is what the board has of the file, behind each
/// list of the machine's turns; where nothing was, the board has nothing of it. No file is left of
/// which the client is to be told.
pub fn each_published_list_is_the_boards()
    ensures { (meaning : Meaning) (settings : ConfigData) (turns : List Turn) (last : State)
        → Runs meaning (fresh settings) turns last → HasBytePaths last.files.table → ShowsBoard turns last }
{
    equal_urls_name_equal_paths();
}

/// No list that is stored, no mark of a file that was cleared and no job out is of a later
/// generation than the board's last one. A turn gives one at most, and so there are no more than
/// there were turns.
pub fn generations_are_those_of_batches()
    ensures known { (meaning : Meaning) (settings : ConfigData) (turns : List Turn) (last : State)
        → Runs meaning (fresh settings) turns last → HasGenerations last.board last.desk.jobs }
    ensures few { (meaning : Meaning) (settings : ConfigData) (turns : List Turn) (last : State)
        → Runs meaning (fresh settings) turns last → last.board.generation ≤ last.desk.turns }
    ensures rise { (meaning : Meaning) (settings : ConfigData) (turns : List Turn) (last : State) (turn : Turn) (new : State)
        → Runs meaning (fresh settings) turns last → Steps meaning last turn new
        → (new.board.generation ≡ last.board.generation) ⊎ (new.board.generation ≡ last.board.generation + 1) }
{}

/// The list that the jobs of the last generation brought last for a file is the one that the board
/// has of that pass, in order, unless the file was cleared since.
pub fn what_a_batch_brought_stays_stored()
    ensures { (meaning : Meaning) (settings : ConfigData) (turns : List Turn) (last : State)
        → Runs meaning (fresh settings) turns last → StoresBrought turns last.board }
{}
