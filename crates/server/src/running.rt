// A program, over any host and any sink.
ghost use Rattle.std.specs.Prelude.{◌≡◌, false};
ghost use Rattle.std.specs.FinMap as map;
ghost use Rattle.session_port.specs.Record.{Rose};
ghost use Rattle.session.specs.Meaning.{meaning_of};
ghost use Rattle.session.specs.Run.{told_of};
ghost use Rattle.server.specs.CommandLine.{purpose_of, texts_of};
ghost use Rattle.server.specs.Running.{Prints};
ghost use Rattle.session_explain.specs.Explaining.{Explains};
ghost use Rattle.server.specs.Serving.{EndsReplay, Serves};
ghost use Rattle.server.specs.Words.{asked_by};
ghost use Rattle.server.specs.declared.command_line.Purpose.TheVariants.{Help, Version, Explain, Serve, Unreadable};
ghost use Rattle.server.specs.Status.{bad_words};

use crate::command_line::{Purpose, Words, purpose_of};
use crate::serving::serve;
use crate::statuses::{BAD_WORDS, NO_MEMORY, WRITE_FAULT, status_of_replay};
use analysis_host::Analysis;
use session_explain::explain;
use session_port::{Host, HostError, Sink};
use std::alloc::Global;

/// What a program says of itself, and what it keeps.
#[derive(Clone, Copy)]
pub struct Program<'a> {
    /// What `--help` prints.
    pub help: &'a str,
    /// What `--version` prints.
    pub version: &'a str,
    /// Whether the host keeps a record of a session, which grows with it. None is kept of `lsp`.
    pub keeps_record: bool,
}

/// Prints a text, and answers the status.
fn print<S: Sink>(text: &str, sink: &mut S) -> u8
    requires usable { S.poisoned sink.old ≡ false }
    ensures { Prints text.now (S.turns sink.old) (S.turns sink.new) (Rose (S.faults sink.old) (S.faults sink.new)) result }
{
    match sink.put_turn(text.as_bytes()) {
        Ok(()) => 0,
        Err(HostError::Failed) => WRITE_FAULT,
        Err(HostError::NoMemory) => NO_MEMORY,
    }
}

/// Does what the words of the command line ask for, on this host and this sink, and answers the status to end with:
/// `--help` and `--version` print the program's texts, `--explain` writes out a record, and all other words are served.
pub fn run<H: Host<A>, S: Sink, A: Analysis>(
    alloc: Global,
    program: &Program<'_>,
    words: &Words,
    host: &mut H,
    sink: &mut S,
    analysis: &A,
) -> u8
    // No job was handed to the host before.
    requires idle { H.out host.old ≡ map.empty }
    requires unused { H.last_job host.old ≡ 0 }
    requires host_usable { H.poisoned host.old ≡ false }
    requires sink_usable { S.poisoned sink.old ≡ false }

    ensures help { purpose_of words.now ≡ Help → Prints program.now.help.now (S.turns sink.old) (S.turns sink.new) (Rose (S.faults sink.old) (S.faults sink.new)) result }
    ensures version { purpose_of words.now ≡ Version → Prints program.now.version.now (S.turns sink.old) (S.turns sink.new) (Rose (S.faults sink.old) (S.faults sink.new)) result }

    // The host is asked for nothing but to serve.
    ensures help_alone { purpose_of words.now ≡ Help → host.new ≡ host.old }
    ensures version_alone { purpose_of words.now ≡ Version → host.new ≡ host.old }

    // A record is read from the host, its session is run, and a text is written of it.
    ensures explained { purpose_of words.now ≡ Explain → EndsReplay (Explains (meaning_of A.decodes A.answer) (told_of (H.calls host.old) (S.turns sink.old)) (told_of (H.calls host.new) (S.turns sink.new)) (Rose (H.faults host.old) (H.faults host.new)) (Rose (S.faults sink.old) (S.faults sink.new))) result }

    // A word is no text: nothing is read or written.
    ensures not_text { purpose_of words.now ≡ Unreadable → (result ≡ bad_words) × (host.new ≡ host.old) × (sink.new ≡ sink.old) }

    // All that is promised of the top call, of what this host and this sink tell.
    ensures served { purpose_of words.now ≡ Serve → Serves (asked_by (texts_of words.now)) A.server_info (meaning_of A.decodes A.answer) (told_of (H.calls host.old) (S.turns sink.old)) (told_of (H.calls host.new) (S.turns sink.new)) (H.honest host.old) (Rose (H.faults host.old) (H.faults host.new)) (Rose (S.faults sink.old) (S.faults sink.new)) result }
{
    match purpose_of(words) {
        Purpose::Help => print(program.help, sink),
        Purpose::Version => print(program.version, sink),
        Purpose::Explain => status_of_replay(explain(alloc, host, sink, analysis)),
        Purpose::Unreadable => BAD_WORDS,
        Purpose::Serve => serve(alloc, words.texts(), host, sink, analysis),
    }
}
