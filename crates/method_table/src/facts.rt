// The table of requests.
ghost use Rattle.std.specs.Prelude.{◌≡◌};
ghost use Rattle.method_table.specs.Seen.{seen_from};
ghost use Rattle.method_table.specs.Table.{table};

use crate::class::Class;
use crate::default_value::DefaultValue;
use crate::row_id::RowId;

/// What the table says of a row.
#[derive(Clone, Copy)]
pub struct MethodRow {
    pub method: &'static str,
    pub class: Class,
    pub retries: bool,
    pub default: DefaultValue,
}

// How many rows there are.
const ROWS: usize = 61;

macro_rules! row {
    ($method:literal, $class:ident, $retries:literal, $default:ident) => {
        MethodRow {
            method: $method,
            class: Class::$class,
            retries: $retries,
            default: DefaultValue::$default,
        }
    };
}

// The rows in the order of their numbers.
static TABLE: [MethodRow; ROWS] = [
    row!("shutdown", State, false, Null),
    row!("rust-analyzer/reloadWorkspace", State, false, Null),
    row!("rust-analyzer/rebuildProcMacros", State, false, Null),
    row!("experimental/runTest", State, false, Null),
    row!("experimental/joinLines", OnLoop, false, Null),
    row!("experimental/onEnter", OnLoop, false, Null),
    row!("textDocument/selectionRange", OnLoop, false, Null),
    row!("experimental/matchingBrace", OnLoop, false, Null),
    row!("textDocument/onTypeFormatting", OnLoop, false, Null),
    row!("textDocument/formatting", Formatting, false, Null),
    row!("textDocument/rangeFormatting", Formatting, false, Null),
    row!("textDocument/completion", Latency, true, Null),
    row!("completionItem/resolve", Latency, true, EmptyLabel),
    row!("textDocument/semanticTokens/full", Latency, true, Null),
    row!("textDocument/semanticTokens/range", Latency, false, Null),
    row!(
        "textDocument/diagnostic",
        DocumentDiagnostic,
        false,
        FullReport
    ),
    row!("textDocument/documentSymbol", Worker, true, Null),
    row!("textDocument/foldingRange", Worker, true, Null),
    row!("textDocument/signatureHelp", Worker, false, Null),
    row!("workspace/willRenameFiles", Worker, true, Null),
    row!("textDocument/definition", Worker, false, Null),
    row!("textDocument/declaration", Worker, false, Null),
    row!("textDocument/implementation", Worker, false, Null),
    row!("textDocument/typeDefinition", Worker, false, Null),
    row!("textDocument/inlayHint", Worker, false, Null),
    row!("inlayHint/resolve", Identity, false, Null),
    row!("textDocument/codeLens", Worker, false, Null),
    row!("codeLens/resolve", Identity, false, Null),
    row!("textDocument/prepareRename", Worker, false, Null),
    row!("textDocument/rename", Worker, false, Null),
    row!("textDocument/references", Worker, false, Null),
    row!("textDocument/documentHighlight", Worker, false, Null),
    row!("textDocument/prepareCallHierarchy", Worker, false, Null),
    row!("callHierarchy/incomingCalls", Worker, false, Null),
    row!("callHierarchy/outgoingCalls", Worker, false, Null),
    row!("rust-analyzer/fetchDependencyList", Worker, true, NoCrates),
    row!("rust-analyzer/analyzerStatus", Worker, true, EmptyText),
    row!("rust-analyzer/viewFileText", Worker, true, EmptyText),
    row!("rust-analyzer/viewCrateGraph", Worker, true, EmptyText),
    row!("rust-analyzer/viewItemTree", Worker, true, EmptyText),
    row!("experimental/discoverTest", Worker, true, NoTests),
    row!("workspace/symbol", Worker, true, Null),
    row!("experimental/ssr", Worker, false, EmptyObject),
    row!(
        "rust-analyzer/viewRecursiveMemoryLayout",
        Worker,
        false,
        Null
    ),
    row!("rust-analyzer/viewSyntaxTree", Worker, false, EmptyText),
    row!("rust-analyzer/viewHir", Worker, false, EmptyText),
    row!("rust-analyzer/viewMir", Worker, false, EmptyText),
    row!("rust-analyzer/interpretFunction", Worker, false, EmptyText),
    row!("rust-analyzer/expandMacro", Worker, false, Null),
    row!("experimental/parentModule", Worker, false, Null),
    row!("experimental/childModules", Worker, false, Null),
    row!("experimental/runnables", Worker, false, EmptyList),
    row!("rust-analyzer/relatedTests", Worker, false, EmptyList),
    row!("textDocument/codeAction", Worker, false, Null),
    row!("codeAction/resolve", Identity, true, Null),
    row!("textDocument/hover", Worker, false, Null),
    row!("experimental/externalDocs", Worker, false, Null),
    row!("experimental/openCargoToml", Worker, false, Null),
    row!("experimental/moveItem", Worker, false, EmptyList),
    row!(
        "rust-analyzer-internal/internalTestingFetchConfig",
        Worker,
        false,
        Null
    ),
    row!(
        "rust-analyzer/getFailedObligations",
        Worker,
        true,
        EmptyText
    ),
];

// The rows in the order of their methods' bytes.
pub(crate) static BY_METHOD: [RowId; ROWS] = [
    RowId(34),
    RowId(35),
    RowId(55),
    RowId(28),
    RowId(13),
    RowId(51),
    RowId(41),
    RowId(57),
    RowId(5),
    RowId(8),
    RowId(59),
    RowId(6),
    RowId(58),
    RowId(50),
    RowId(4),
    RowId(52),
    RowId(43),
    RowId(26),
    RowId(60),
    RowId(37),
    RowId(49),
    RowId(36),
    RowId(61),
    RowId(48),
    RowId(3),
    RowId(53),
    RowId(2),
    RowId(39),
    RowId(38),
    RowId(46),
    RowId(40),
    RowId(47),
    RowId(44),
    RowId(45),
    RowId(1),
    RowId(54),
    RowId(27),
    RowId(12),
    RowId(22),
    RowId(21),
    RowId(16),
    RowId(32),
    RowId(17),
    RowId(18),
    RowId(10),
    RowId(56),
    RowId(23),
    RowId(25),
    RowId(9),
    RowId(33),
    RowId(29),
    RowId(11),
    RowId(31),
    RowId(30),
    RowId(7),
    RowId(14),
    RowId(15),
    RowId(19),
    RowId(24),
    RowId(42),
    RowId(20),
];

/// The rows in the order of their numbers, from 1 on.
#[tactic(auto, unfolding(crate::specs::Table::table))]
pub fn table() -> &'static [MethodRow]
    ensures { seen_from 1 result.now ≡ table }
{
    &TABLE
}
