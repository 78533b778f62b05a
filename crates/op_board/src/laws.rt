// Laws of whole runs: what the calls leave behind, told by the calls alone.
ghost use Rattle.std.specs.Prelude.{◌≡◌, ◌↔◌, ℕ, ◌+◌, List, ◌++◌, Option, Some, length};
ghost use Rattle.std.specs.FinMap as map;
ghost use Rattle.docs_vfs.specs.declared.file_kinds.FileId.{FileId};
ghost use Rattle.lsp_types.specs.declared.diagnostic.Diagnostic.{Diagnostic};
ghost use Rattle.op_board.specs.declared.diagnostic.NativePass.{NativePass};
ghost use Rattle.op_board.specs.Acts.{Act, steps, after};
ghost use Rattle.op_board.specs.Board.{list_of, lists_of};
ghost use Rattle.op_board.specs.Changes.{ListsChanges};
ghost use Rattle.op_board.specs.CheckRuns.{entries, said_of, fixes_told, package_at, listed_in, fixes_at};
ghost use Rattle.op_board.specs.Marked.{taken};
ghost use Rattle.op_board.specs.QueueRuns.{QueueAct, queue_after, IsQueueRun, handed_out, ended, running, last_output, IsLastRequest};
ghost use Rattle.op_board.specs.Runs.{stored};

/// After every run the list of a file and pass is the last that was accepted since the last clear, in order, else
/// empty.
pub fn the_last_accepted_list_is_stored()
    ensures { (run : List Act) (pass : NativePass) (file : FileId)
        → list_of (map.get (lists_of pass (after run)) file.0) ≡ stored pass file run }
{}

/// A call that does one act or several leaves what the longer run leaves.
pub fn calls_continue_a_run()
    ensures { (more run : List Act) → steps more (after run) ≡ after (more ++ run) }
{}

/// What a take answers after every run: exactly the files of which a list changed since the last take, that of a pass, by
/// a clear too, or that of a package of a check. An entry of a newer generation first empties its package.
pub fn changed_files_are_marked()
    ensures { (run : List Act) → ListsChanges (taken (after run).marked) run }
{}

/// Of a queue's operations one is in progress at most: all that were handed out but for that one have ended. What waits
/// is the last request, if none was handed out since it came, and no other; and what the last operation that ended came
/// to is kept.
pub fn one_operation_runs<Args, Output>()
    ensures one { (run : List (QueueAct Args Output)) → IsQueueRun run
        → length (handed_out run) ≡ ended run + running (queue_after run) }
    ensures waiting { (run : List (QueueAct Args Output)) (request : List ℕ × Args)
        → ((queue_after run).waiting ≡ Some request) ↔ IsLastRequest request run }
    ensures last { (run : List (QueueAct Args Output)) → (queue_after run).last ≡ last_output run }
{}

/// After every run a package of a check says what came since it was last emptied: the entries of the newest generation,
/// in the order in which they came, without those whose diagnostic the file had already; and their fixes.
pub fn packages_say_the_newest()
    ensures lists { (run : List Act) (id : ℕ) (name : Option (List ℕ)) (file : FileId)
        → listed_in file (package_at id name (after run).checks) ≡ said_of file (entries id name run) }
    ensures fixes { (run : List Act) (id : ℕ) (name : Option (List ℕ))
        → fixes_at (package_at id name (after run).checks) ≡ fixes_told (entries id name run) }
{}
