// The top call.
ghost use Rattle.std.specs.Prelude.{◌≡◌, IfOk, false, ◌↔◌};
ghost use Rattle.std.specs.FinMap as map;
ghost use Rattle.session_port.specs.Record.{Rose};
ghost use Rattle.session.specs.Meaning.{meaning_of};
ghost use Rattle.session.specs.Run.{empty_reader, told_of};
ghost use Rattle.session.specs.Ran.{RanSession};
ghost use Rattle.session_replay.specs.Recording.{RecordsSession};
ghost use Rattle.server.specs.Serving.{session_config, session_start, EndsGenerate, EndsWith, Serves, Welcomed};
ghost use Rattle.server.specs.Words.{asked_by};
ghost use Rattle.server.specs.Status.{status_of, bad_words};

use crate::handshake::{Opening, initialize};
use crate::statuses::{BAD_WORDS, status_of, status_of_generate, status_of_replay};
use crate::words::{Asked, asked_by};
use analysis_host::Analysis;
use docs_vfs::VfsPath;
use plain::Text;
use ra_config::Config;
use session::{SessionError, main_loop, main_loop_from};
use session_generate::generate;
use session_port::{Host, Sink};
use session_replay::{ReplayError, record, replay};
use std::alloc::{AllocError, Global};

/// How many threads the program's sessions may use.
pub(crate) const THREADS: u32 = 4;

// The settings of a session that begins without a handshake.
fn session_config(alloc: Global) -> Result<Config, AllocError>
    ensures { IfOk result (λ config. config ≡ session_config) }
{
    let Some(root) = VfsPath::new(alloc, "/w")? else {
        return Err(AllocError);
    };
    Config::new(alloc, root, THREADS)
}

// One session, from its start to its end.
fn run_session<H: Host<A>, S: Sink, A: Analysis>(
    alloc: Global,
    host: &mut H,
    sink: &mut S,
    analysis: &A,
) -> Result<(), SessionError>
    requires idle { H.out host.old ≡ map.empty }
    requires unused { H.last_job host.old ≡ 0 }
    requires host_usable { H.poisoned host.old ≡ false }
    requires sink_usable { S.poisoned sink.old ≡ false }
    ensures run { EndsWith (RanSession (meaning_of A.decodes A.answer) session_config empty_reader (told_of (H.calls host.old) (S.turns sink.old)) (told_of (H.calls host.new) (S.turns sink.new)) (H.honest host.old) (Rose (H.faults host.old) (H.faults host.new)) (Rose (S.faults sink.old) (S.faults sink.new))) (status_of result) }
    ensures host_fault { result ≡ Err SessionError.HostFault → Rose (H.faults host.old) (H.faults host.new) }
    ensures write_fault { result ≡ Err SessionError.WriteFault → Rose (S.faults sink.old) (S.faults sink.new) }
{
    let config = session_config(alloc)?;
    main_loop(alloc, config, host, sink, analysis)
}

// A handshake, and the session that it begins.
pub(crate) fn run_lsp<H: Host<A>, S: Sink, A: Analysis>(
    alloc: Global,
    host: &mut H,
    sink: &mut S,
    analysis: &A,
) -> Result<(), SessionError>
    requires idle { H.out host.old ≡ map.empty }
    requires unused { H.last_job host.old ≡ 0 }
    requires host_usable { H.poisoned host.old ≡ false }
    requires sink_usable { S.poisoned sink.old ≡ false }
    ensures run { EndsWith (Welcomed A.server_info (meaning_of A.decodes A.answer) (told_of (H.calls host.old) (S.turns sink.old)) (told_of (H.calls host.new) (S.turns sink.new)) (H.honest host.old) (Rose (H.faults host.old) (H.faults host.new)) (Rose (S.faults sink.old) (S.faults sink.new))) (status_of result) }
    ensures host_fault { result ≡ Err SessionError.HostFault → Rose (H.faults host.old) (H.faults host.new) }
    ensures write_fault { result ≡ Err SessionError.WriteFault → Rose (S.faults sink.old) (S.faults sink.new) }
{
    match initialize(alloc, THREADS, host, sink) {
        Ok(Opening::Begun { config, reader }) => {
            main_loop_from(alloc, config, reader, host, sink, analysis)
        }
        Ok(Opening::Left) => Ok(()),
        Err(error) => Err(error),
    }
}

// One session, of which the record is written.
fn run_record<H: Host<A>, S: Sink, A: Analysis>(
    alloc: Global,
    host: &mut H,
    sink: &mut S,
    analysis: &A,
) -> Result<(), ReplayError>
    requires idle { H.out host.old ≡ map.empty }
    requires unused { H.last_job host.old ≡ 0 }
    requires host_usable { H.poisoned host.old ≡ false }
    requires sink_usable { S.poisoned sink.old ≡ false }
    ensures records { RecordsSession (meaning_of A.decodes A.answer) session_start session_config (told_of (H.calls host.old) (S.turns sink.old)) (told_of (H.calls host.new) (S.turns sink.new)) (H.honest host.old) (Rose (H.faults host.old) (H.faults host.new)) (Rose (S.faults sink.old) (S.faults sink.new)) result }
    ensures host_fault { result ≡ Err (ReplayError.Session SessionError.HostFault) → Rose (H.faults host.old) (H.faults host.new) }
    ensures write_fault { result ≡ Err (ReplayError.Session SessionError.WriteFault) → Rose (S.faults sink.old) (S.faults sink.new) }
{
    match VfsPath::new(alloc, "/w") {
        Ok(Some(root)) => record(alloc, root, THREADS, host, sink, analysis),
        Ok(None) => Err(ReplayError::Session(SessionError::NoMemory)),
        Err(_) => Err(ReplayError::Session(SessionError::NoMemory)),
    }
}

/// Does what the words say, and answers the status to end with, on the host and the sink that are handed in: `session`
/// runs one session, to its end, with `/w` as the root; `lsp` makes the handshake with the client, and then runs the
/// session that it begins; `record` and `replay` are for records of sessions; `generate` with a number runs a session of
/// its own and writes a summary. All other words give the status 2.
pub fn serve<H: Host<A>, S: Sink, A: Analysis>(
    alloc: Global,
    words: &[Text],
    host: &mut H,
    sink: &mut S,
    analysis: &A,
) -> u8
    // No job was handed to the host before.
    requires idle { H.out host.old ≡ map.empty }
    requires unused { H.last_job host.old ≡ 0 }
    requires host_usable { H.poisoned host.old ≡ false }
    requires sink_usable { S.poisoned sink.old ≡ false }

    // One session, with all that is promised of a session, behind a handshake where it is asked for; or the words are none that
    // are known, and nothing is read or written.
    ensures serves { Serves (asked_by words.now) A.server_info (meaning_of A.decodes A.answer) (told_of (H.calls host.old) (S.turns sink.old)) (told_of (H.calls host.new) (S.turns sink.new)) (H.honest host.old) (Rose (H.faults host.old) (H.faults host.new)) (Rose (S.faults sink.old) (S.faults sink.new)) result }

    // The status 2 comes exactly where the words are none that are known.
    ensures words { (result ≡ bad_words) ↔ (asked_by words.now ≡ Asked.Unknown) }

    ensures host_fault { result ≡ 6 → Rose (H.faults host.old) (H.faults host.new) }
    ensures write_fault { result ≡ 7 → Rose (S.faults sink.old) (S.faults sink.new) }
{
    match asked_by(words) {
        Asked::Session => status_of(run_session(alloc, host, sink, analysis)),
        Asked::Lsp => status_of(run_lsp(alloc, host, sink, analysis)),
        Asked::Record => status_of_replay(run_record(alloc, host, sink, analysis)),
        Asked::Replay => status_of_replay(replay(alloc, host, sink, analysis)),
        Asked::Generate { count } => status_of_generate(generate(alloc, count, sink, analysis)),
        Asked::Unknown => BAD_WORDS,
    }
}
