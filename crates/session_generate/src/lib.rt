//! A session over generated messages: it is run, and a summary of it is written. What was run is told whole: the bytes
//! that the session has read, the turns that it has written, and that each request was answered once.
#![tactic(auto)]

mod generating;
mod output;
mod running;
mod settings;
mod summary;

pub use generating::generate;
pub use plain::NoMemory;
