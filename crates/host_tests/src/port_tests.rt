// Tests of `session_port`, `inline_host` and `host_fakes`: jobs that run, hosts that follow a script, and peers that are lent. Lines of
// words tell the cases, and what comes of them. Calls with large contracts go through wrappers that claim nothing, or one fact, and one
// function alone owns a host, so that a test stays quick to prove.
mod copies;
mod fixtures;
mod jobs;
mod lent;
mod scripts;
mod words;
