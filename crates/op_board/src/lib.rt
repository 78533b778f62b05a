//! The queue of an operation that runs one at a time, and the board of diagnostics.
#![tactic(auto)]

mod board;
mod by_file;
mod by_package;
mod check_package;
mod checks;
mod clearing;
mod diagnostic;
mod laws;
mod marks;
mod op_queue;
mod pass_list;

pub use board::DiagnosticCollection;
pub use diagnostic::{CheckFix, NativePass};
pub use laws::{
    calls_continue_a_run, changed_files_are_marked, one_operation_runs, packages_say_the_newest,
    the_last_accepted_list_is_stored,
};
pub use lsp_types::{Diagnostic, Related};
pub use op_queue::OpQueue;
pub use plain::NoMemory;
