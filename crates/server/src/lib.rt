//! A program over the session, for any analysis: the handshake with a client, what the words of a command line ask for,
//! the statuses that a program ends with, and its standard input, standard output and log.
//!
//! The whole of a server is its `main`: `start(rt, &PROGRAM, analysis)`, or `start_on_one_thread(&rt, &PROGRAM, &analysis)`. On a host and a sink of one's own it is `serve`.
#![tactic(auto)]

mod command_line;
mod handshake;
mod laws;
mod running;
mod serving;
mod starting;
mod statuses;
mod stdio;
mod threaded;
mod words;

pub use command_line::Words;
pub use handshake::{Opening, initialize};
pub use laws::sessions_capabilities_stand;
pub use plain::NoMemory;
pub use running::{Program, run};
pub use serving::serve;
pub use session::{Counter, SessionError, main_loop_from};
pub use starting::{start, start_on_one_thread};
pub use statuses::{BAD_WORDS, status_of, status_text};
pub use stdio::{LoggingHost, StandardInput, StandardOutput};
pub use threaded::{Served, serve_threaded};
pub use words::{Asked, asked_by};
