// The service of an editor, on a host with threads.
ghost use Rattle.std.specs.Prelude.{◌≡◌, false, IfOk, OnErr};
ghost use Rattle.inline_host.specs.Inline.{started};
ghost use Rattle.session_port.specs.Record.{Rose};
ghost use Rattle.session.specs.Meaning.{meaning_of};
ghost use Rattle.session.specs.Run.{told_of};
ghost use Rattle.server.specs.Threaded.{ServesEditor};

use crate::serving::{THREADS, run_lsp};
use crate::statuses::{CLIENT_EXITED, status_of};
use crate::stdio::LoggingHost;
use analysis_host::Analysis;
use inline_host::RecordedCall;
use log::Log;
use plain::{Items, NoMemory};
use session_port::{Sink, Source};
use std::alloc::Global;
use std::sync::{Arc, Wait};
use std::thread::Threads;
use task_pool::{StartsWorkers, ThreadedHost};

/// What the service of an editor came to.
#[derive(Drop)]
pub struct Served {
    /// The status to end with.
    pub status: u8,
    /// The calls of the host, if a record was kept.
    pub calls: Option<Items<RecordedCall>>,
    /// How often the source failed.
    pub faults: u64,
}

/// Lets go of a host. Where the source has ended, it waits for all threads; else not, since the reader may wait for input that never
/// comes.
fn let_go<R: Threads + Wait + Drop, I, A: Analysis>(
    mut host: ThreadedHost<R, I, A>,
    status: u8,
) -> Served
    ensures { result ≡ record { status = status; calls = host.calls; faults = host.faults } }
{
    let calls = host.take_calls();
    let faults = host.faults();
    if status == CLIENT_EXITED {
        host.finish();
    } else {
        drop(host);
    }
    Served {
        status,
        calls,
        faults,
    }
}

/// Does what `lsp` asks for, on a host of its own with threads, which keeps a record if `keep` says so: one thread reads this source, and
/// each job is answered in one of four, or, where it formats, in a fifth. Lines for the log go to `log`. Where the source has ended, it
/// waits for all threads; at any other end it doesn't. Want of memory for the host is an `Err`.
pub fn serve_threaded<
    R: Threads + Wait + Drop + 'static,
    L: Log,
    I: Source + Send + 'static,
    S: Sink,
    A: StartsWorkers<R>,
>(
    rt: R,
    alloc: Global,
    log: &L,
    keep: bool,
    source: I,
    sink: &mut S,
    analysis: &Arc<A, Global>,
) -> Result<Served, NoMemory>
    requires source_usable { I.poisoned source ≡ false }
    requires sink_usable { S.poisoned sink.old ≡ false }

    // A handshake and the session that it begins, with all that is promised of a session over an honest host.
    ensures serves { IfOk result (ServesEditor A.server_info (meaning_of A.decodes A.answer) (told_of (started keep) (S.turns sink.old)) (S.turns sink.new) (Rose (S.faults sink.old) (S.faults sink.new))) }

    // Where there is no host, nothing is written.
    ensures unserved { OnErr result (sink.new ≡ sink.old) }
{
    let theirs = Arc::try_clone(analysis)?;
    let host = ThreadedHost::new(rt, alloc, THREADS, source, theirs, keep)?;
    let mut host = LoggingHost::new(log, host);
    let status = status_of(run_lsp(alloc, &mut host, sink, &**analysis));
    Ok(let_go(host.into_host(), status))
}
