// Laws of the table of requests.
ghost use Rattle.std.specs.Prelude.{◌≡◌, ◌≢◌, ◌↔◌, ◌⊎◌, ℕ, Bool, true, List, Option, codes, length, map, All, AllPairs, None, IfSome, IsSome};
ghost use Rattle.method_table.specs.Laws.{numbers_from, IsRowOf};
ghost use Rattle.method_table.specs.Plans.{plan};
ghost use Rattle.method_table.specs.Rows.{facts_of, method_of, row_of};
ghost use Rattle.method_table.specs.Table.{table};
ghost use Rattle.method_table.specs.declared.class.PoolClass.{PoolClass};
ghost use Rattle.method_table.specs.declared.planned.Plan.{Plan};
ghost use Rattle.method_table.specs.declared.row_id.RowId.{RowId};

use crate::named::{
    CODE_ACTION_RESOLVE, CODE_LENS_RESOLVE, COMPLETION, DOCUMENT_DIAGNOSTIC, FORMATTING, HOVER,
    INLAY_HINT_RESOLVE, JOIN_LINES, MATCHING_BRACE, ON_ENTER, ON_TYPE_FORMATTING, RANGE_FORMATTING,
    REBUILD_PROC_MACROS, RELOAD_WORKSPACE, RUN_TEST, SELECTION_RANGE, SHUTDOWN,
};

/// No two rows have one method, and the rows have the numbers from 1 on, in their order.
pub fn methods_are_distinct()
    ensures distinct { AllPairs (λ a b. a.method ≢ b.method) table }
    ensures numbered { map (λ facts. facts.number) table ≡ numbers_from 1 (length table) }
{}

/// A method has the row that has it, and none exactly where no row has it.
pub fn rows_are_found()
    ensures own { (row : RowId) → IsSome (facts_of row) → IsRowOf (method_of row) row }
    ensures some { (method : List ℕ) → IfSome (row_of method) (λ row. method_of row ≡ method) }
    ensures none { (method : List ℕ) → (row_of method ≡ None) ↔ All (λ facts. facts.method ≢ method) table }
{}

/// While files are loading only a formatting request is handed to a job, and after a shutdown was requested none is.
pub fn few_jobs_are_handed_over()
    ensures loading { (row : Option RowId) (incomplete shutdown : Bool) (pool : PoolClass)
        → plan row true incomplete shutdown ≡ Plan.Job pool → pool ≡ PoolClass.Formatting }
    ensures shutdown { (row : Option RowId) (loading incomplete : Bool)
        → (plan row loading incomplete true ≡ Plan.Shutdown) ⊎ (plan row loading incomplete true ≡ Plan.Refuse) }
{}

/// The rows that have a name of their own are those of these methods.
pub fn named_rows_have_their_methods()
    ensures shutdown { IsRowOf (codes "shutdown") SHUTDOWN }
    ensures reload_workspace { IsRowOf (codes "rust-analyzer/reloadWorkspace") RELOAD_WORKSPACE }
    ensures rebuild_proc_macros { IsRowOf (codes "rust-analyzer/rebuildProcMacros") REBUILD_PROC_MACROS }
    ensures run_test { IsRowOf (codes "experimental/runTest") RUN_TEST }
    ensures join_lines { IsRowOf (codes "experimental/joinLines") JOIN_LINES }
    ensures on_enter { IsRowOf (codes "experimental/onEnter") ON_ENTER }
    ensures selection_range { IsRowOf (codes "textDocument/selectionRange") SELECTION_RANGE }
    ensures matching_brace { IsRowOf (codes "experimental/matchingBrace") MATCHING_BRACE }
    ensures on_type { IsRowOf (codes "textDocument/onTypeFormatting") ON_TYPE_FORMATTING }
    ensures formatting { IsRowOf (codes "textDocument/formatting") FORMATTING }
    ensures range_formatting { IsRowOf (codes "textDocument/rangeFormatting") RANGE_FORMATTING }
    ensures completion { IsRowOf (codes "textDocument/completion") COMPLETION }
    ensures diagnostic { IsRowOf (codes "textDocument/diagnostic") DOCUMENT_DIAGNOSTIC }
    ensures inlay_hint { IsRowOf (codes "inlayHint/resolve") INLAY_HINT_RESOLVE }
    ensures code_lens { IsRowOf (codes "codeLens/resolve") CODE_LENS_RESOLVE }
    ensures code_action { IsRowOf (codes "codeAction/resolve") CODE_ACTION_RESOLVE }
    ensures hover { IsRowOf (codes "textDocument/hover") HOVER }
{}
