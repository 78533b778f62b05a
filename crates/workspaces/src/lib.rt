//! What a session knows of its workspaces: those that are present, what is asked for to renew them, and what follows when
//! it comes.
#![tactic(auto)]

mod follows;
mod laws;
mod macros;
mod outputs;
mod requests;
mod roots;
mod runs;
mod state;

pub use follows::{Follows, SwitchFault};
pub use laws::{
    each_has_one_entry, fetches_come_first, force_is_kept, old_build_data_is_not_joined,
    old_timers_change_nothing, one_of_each_runs,
};
pub use macros::without_macros;
pub use outputs::{BuildOutput, FetchOutput};
pub use plain::NoMemory;
pub use requests::FetchRequest;
pub use state::Workspaces;
