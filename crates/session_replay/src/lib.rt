//! Sessions that are recorded, and records that are run again. `record` runs a session over a host and writes its record;
//! `replay` reads a record from a host and runs its session, over the sink that is handed in.
#![tactic(auto)]

mod beginning;
mod error;
mod gathering;
mod laws;
mod recording;
mod replaying;
mod silent_sink;

pub use beginning::config_of;
pub use error::ReplayError;
pub use gathering::MOST_BYTES;
pub use laws::{a_record_repeats_the_run, a_replay_repeats_the_run, sinks_tell_what_was_written};
pub use plain::NoMemory;
pub use recording::{put_text, record};
pub use replaying::{read_record, replay, run_again};
pub use session_record::StartConfig;
