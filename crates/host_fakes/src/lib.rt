//! Peers in memory, for tests: hosts that follow a list, one that is honest and one that gives whatever it was told to
//! give, a sink and a source that fail at listed calls, and an analysis that knows nothing.
#![tactic(auto)]

mod fail_plan;
mod hostile_host;
mod memory_sink;
mod memory_source;
mod null_analysis;
mod queue;
mod script;
mod script_host;

pub use fail_plan::FailPlan;
pub use hostile_host::HostileHost;
pub use memory_sink::MemorySink;
pub use memory_source::MemorySource;
pub use null_analysis::NullAnalysis;
pub use plain::NoMemory;
pub use script::ScriptStep;
pub use script_host::ScriptHost;
