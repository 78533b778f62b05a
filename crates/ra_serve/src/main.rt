//! `ra_serve`: a language server over standard input and output, with a small analysis. An editor starts `ra_serve lsp`.
#![tactic(auto)]

use server::{Program, start};
use small_analysis::SmallAnalysis;
use std::process::ExitCode;

const PROGRAM: Program<'static> = Program {
    help: "\
ra_serve: a language server over standard input and output.

usage: ra_serve lsp | session | record | replay
       ra_serve generate N
       ra_serve --explain | --help | --version

`lsp` is what an editor starts: it reads framed messages of the Language Server Protocol, from `initialize` on, and
writes framed responses. `session` begins behind that handshake; the root of its workspace is /w.

`record` reads what `session` reads, and writes the session's record in place of its responses. `replay` reads a
record and writes what its session writes. `--explain` reads a record and writes a line for each event, message and
order of each turn of its session.

`generate N` reads nothing: it runs a session of its own over N documents, from 1 to 20,000, with ten edits and a hover
each, and writes how many there were, and hashes of the texts and of what the session wrote.

status: 0 the session ended by `exit`               7 the output failed
        2 bad words                                 8 counter exhausted
        3 input ended without `exit`                9 out of memory
        4 bad frame                                10 bad record
        5 bad message                              11 a session that has no record
        6 the host failed                          12 a record of more than 256 MiB
",
    version: "ra_serve 0.1.0\n",
    keeps_record: true,
};

fn main(rt: HostRuntime) -> ExitCode {
    start(rt, &PROGRAM, SmallAnalysis::new(rt.alloc()))
}
