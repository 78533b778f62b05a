// The rows that have a name of their own: those that the session answers itself, and those of which an analysis
// answers more than the default.
use crate::row_id::RowId;

pub const SHUTDOWN: RowId = RowId(1);

pub const RELOAD_WORKSPACE: RowId = RowId(2);

pub const REBUILD_PROC_MACROS: RowId = RowId(3);

pub const RUN_TEST: RowId = RowId(4);

pub const JOIN_LINES: RowId = RowId(5);

pub const ON_ENTER: RowId = RowId(6);

pub const SELECTION_RANGE: RowId = RowId(7);

pub const MATCHING_BRACE: RowId = RowId(8);

pub const ON_TYPE_FORMATTING: RowId = RowId(9);

pub const FORMATTING: RowId = RowId(10);

pub const RANGE_FORMATTING: RowId = RowId(11);

pub const COMPLETION: RowId = RowId(12);

pub const DOCUMENT_DIAGNOSTIC: RowId = RowId(16);

pub const INLAY_HINT_RESOLVE: RowId = RowId(26);

pub const CODE_LENS_RESOLVE: RowId = RowId(28);

pub const CODE_ACTION_RESOLVE: RowId = RowId(55);

pub const HOVER: RowId = RowId(56);
