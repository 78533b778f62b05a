//! What a host that runs no build system answers where workspaces, their build scripts and their macros are asked for.
#![tactic(auto)]

mod answers;
mod laws;
mod linked;

pub use answers::{macros_of, scripts_of, workspaces_of};
pub use laws::{alike_projects_give_equal_workspaces, the_first_of_equal_workspaces_stays};
pub use plain::NoMemory;
