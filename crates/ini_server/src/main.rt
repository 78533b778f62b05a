//! `ini_server`: a language server for `.ini` files, over standard input and output.
#![tactic(auto)]

mod ini;

use ini::Ini;
use server::{Program, start_on_one_thread};
use std::process::ExitCode;

const PROGRAM: Program<'static> = Program {
    help: "\
ini_server: a language server for .ini files, over standard input and output.

usage: ini_server lsp
       ini_server session
       ini_server --help | --version

`lsp` is what an editor starts; `session` begins behind the `initialize` handshake. A hover on a key answers its value.
",
    version: "ini_server 0.1.0\n",
    keeps_record: false,
};

fn main(rt: HostRuntime) -> ExitCode {
    start_on_one_thread(&rt, &PROGRAM, &Ini(rt.alloc()))
}
