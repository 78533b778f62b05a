//! The host on one thread, as one whose record tells more: what it has given, and when, follows from the bytes of its
//! source and from what was ordered. And a source of the messages of a generator.
#![tactic(auto)]

mod generated_source;
mod ordered_host;

pub use generated_source::GeneratedSource;
pub use ordered_host::OrderedHost;
pub use plain::NoMemory;
