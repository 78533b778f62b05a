//! What stands around a session: the host with its events, jobs and commands, the sink of what is written, the
//! source of what is read, and what a job comes to. Hosts, sinks and sources themselves are in crates above. And what a
//! turn of a session writes and orders, and how its parts are put together: each part is a step of its own piece of the
//! state, and goes on from what those before it have written.
#![tactic(auto)]

mod asking;
mod cause;
mod command;
mod copies;
mod event;
mod fault;
mod host_job;
mod job;
mod joining;
mod kinds;
mod lent;
mod news;
mod peers;
mod runs;
mod turn_out;

pub use cause::HostError;
pub use command::{Command, DeferredTask, DiscoverArg, LogCode};
pub use event::{HostEvent, LoadedFile, LoaderMsg, LoadingProgress, TaskBody, TaskMsg};
pub use fault::{Counter, TurnError};
pub use host_job::small_project;
pub use job::{Job, JobKind, JobResult, JobValue};
pub use kinds::{JobFacts, JobGroup, Slot, ValueKind};
pub use news::{CheckProgress, DiscoverMsg, FlycheckMsg, TestMsg, TestOutput, TestState};
pub use peers::{Host, Sink, Source};
pub use plain::NoMemory;
pub use runs::run_job;
pub use turn_out::TurnOut;
