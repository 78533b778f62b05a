ghost use Rattle.std.specs.Prelude.{◌≡◌, ◌++◌, ℕ, Bool, List, Option, Some, Ok, true};
ghost use Rattle.std.specs.FinMap as map;
ghost use Rattle.docs_vfs.specs.declared.file_kinds.RowState.TheVariants.{Excluded};
ghost use Rattle.docs_vfs.specs.Files.{Files, new_files, set_in, mark_in, changes, contents_at, kept_at, is_marked};
ghost use Rattle.docs_vfs.specs.FileLaws.{Keeps, SetsContents, IsNumbered, KeepsNumbers, KeepsTaken, number_at, taken_at, IsDifference};
ghost use Rattle.docs_vfs.specs.declared.file_kinds.FileId.{FileId};
ghost use Rattle.docs_vfs.specs.FileRuns.{Call, step, after, before_take, named};
ghost use Rattle.docs_vfs.specs.FileRuns.Call.{Sets, Marks};

/// What a table keeps changes at the path of the call alone; a marked path stays marked.
pub fn calls_change_one_path()
    ensures set { (t u : Files) (path : List ℕ) (contents : Option (List ℕ)) (changed : Bool)
        → set_in t path contents ≡ Ok (u, changed) → SetsContents t path contents u changed }
    ensures mark { (t u : Files) (path : List ℕ) → mark_in t path ≡ Ok u → Keeps t path Excluded u }
{}

/// Numbers and paths are inverse in every table. A path keeps its number, and new numbers follow the old.
pub fn numbers_are_kept()
    ensures new { (first : ℕ) → IsNumbered (new_files first) }
    ensures set { (t u : Files) (path : List ℕ) (contents : Option (List ℕ)) (changed : Bool)
        → IsNumbered t → set_in t path contents ≡ Ok (u, changed) → changed ≡ true → KeepsNumbers t path u }
    ensures mark { (t u : Files) (path : List ℕ) → IsNumbered t → mark_in t path ≡ Ok u → KeepsNumbers t path u }
    ensures take { (t : Files) → IsNumbered t → IsNumbered (record t { before = map.empty }) }
{}

/// The changes that are taken are the difference of the table at the last take and now.
pub fn changes_are_the_difference()
    ensures new { (first : ℕ) (path : List ℕ) → taken_at (new_files first) path ≡ contents_at (new_files first) path }
    ensures set { (t u : Files) (path : List ℕ) (contents : Option (List ℕ)) (changed : Bool)
        → set_in t path contents ≡ Ok (u, changed) → KeepsTaken t u }
    ensures mark { (t u : Files) (path : List ℕ) → mark_in t path ≡ Ok u → KeepsTaken t u }
    ensures take { (t : Files) (path : List ℕ)
        → taken_at (record t { before = map.empty }) path ≡ contents_at t path }
    ensures difference { (t : Files) → IsNumbered t → IsDifference t (changes t) }
{}

/// A call that succeeds is a step of a run. After every run numbers and paths are inverse, and the paths stand in the order
/// in which they first got contents or a mark; a number and a mark stay for good, whatever comes.
pub fn runs_keep_numbers_and_marks()
    ensures set { (t u : Files) (path : List ℕ) (contents : Option (List ℕ)) (changed : Bool)
        → set_in t path contents ≡ Ok (u, changed) → u ≡ step (Sets path contents) t }
    ensures mark { (t u : Files) (path : List ℕ) → mark_in t path ≡ Ok u → u ≡ step (Marks path) t }
    ensures inverse { (first : ℕ) (run : List Call) → IsNumbered (after first run) }
    ensures order { (first : ℕ) (run : List Call) → (after first run).paths ≡ named first run }
    ensures numbers { (first : ℕ) (run more : List Call) (path : List ℕ) (file : FileId)
        → number_at (after first run) path ≡ Some file → number_at (after first (more ++ run)) path ≡ Some file }
    ensures marks { (first : ℕ) (run more : List Call) (path : List ℕ)
        → is_marked (kept_at (after first run) path) ≡ true → is_marked (kept_at (after first (more ++ run)) path) ≡ true }
{}

/// After every run the changes to be taken are the difference of the contents now and those after the run before the
/// last take.
pub fn runs_give_the_difference()
    ensures taken { (first : ℕ) (run : List Call) (path : List ℕ)
        → taken_at (after first run) path ≡ contents_at (after first (before_take run)) path }
    ensures difference { (first : ℕ) (run : List Call) → IsDifference (after first run) (changes (after first run)) }
{}
