//! The requests that a session takes: one table of their methods, classes, retries and defaults, and what is to be
//! done for a request by its row and the state of the session, and the params of the requests that change that state.
#![tactic(auto)]

mod class;
mod default_value;
mod facts;
mod laws;
mod named;
mod planned;
mod planning;
mod read;
mod request;
mod row_id;
mod rows;
mod run_test;
mod unit;

pub use class::{Class, PoolClass};
pub use default_value::DefaultValue;
pub use facts::{MethodRow, table};
pub use laws::{
    few_jobs_are_handed_over, methods_are_distinct, named_rows_have_their_methods, rows_are_found,
};
pub use named::{
    CODE_ACTION_RESOLVE, CODE_LENS_RESOLVE, COMPLETION, DOCUMENT_DIAGNOSTIC, FORMATTING, HOVER,
    INLAY_HINT_RESOLVE, JOIN_LINES, MATCHING_BRACE, ON_ENTER, ON_TYPE_FORMATTING, RANGE_FORMATTING,
    REBUILD_PROC_MACROS, RELOAD_WORKSPACE, RUN_TEST, SELECTION_RANGE, SHUTDOWN,
};
pub use plain::NoMemory;
pub use planned::Plan;
pub use planning::plan;
pub use read::read_state_request;
pub use request::{RunTest, StateRequest};
pub use row_id::RowId;
pub use rows::{class_of, default_of, method_of, retries, row_of};
pub use run_test::read_run_test;
pub use unit::is_unit;
