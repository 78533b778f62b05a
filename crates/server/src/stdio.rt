// A session's peers at the edge of a program: standard input, standard output, and log lines on standard error.
mod logging_host;
mod standard_input;
mod standard_output;

pub use logging_host::LoggingHost;
pub use standard_input::StandardInput;
pub use standard_output::StandardOutput;
