//! How requests are dispatched: the method table with what is done for a request, and the response that a query's
//! outcome is.
#![tactic(auto)]

mod cancelled;
mod error;
mod responding;

pub use cancelled::HandlerCancelledError;
pub use error::{LspError, invalid_params_error};
pub use method_table::{
    Class, Plan, PoolClass, RowId, class_of, default_of, plan, retries, row_of,
};
pub use plain::NoMemory;
pub use responding::{fault_code, refusal, response_with, result_to_response};
