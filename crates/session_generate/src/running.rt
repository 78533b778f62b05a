// The run of a session over generated messages.
ghost use Rattle.std.specs.Prelude.{◌≡◌, [], OnOk};
ghost use Rattle.session.specs.Meaning.{meaning_of};
ghost use Rattle.session_generate.specs.Generating.{RunsOver};

use crate::settings::session_settings;
use analysis_host::Analysis;
use host_fakes::MemorySink;
use ordered_host::{GeneratedSource, OrderedHost};
use plain::NoMemory;
use session::main_loop;
use std::alloc::{AllocError, Global};

/// Runs a session over the messages of this many documents, to its end. The sink has its turns then.
pub(crate) fn run_to_exit<A: Analysis>(
    alloc: Global,
    count: u16,
    sink: &mut MemorySink,
    analysis: &A,
) -> Result<(), NoMemory>
    requires { sink.old.turns ≡ [] }
    ensures { OnOk result (RunsOver (meaning_of A.decodes A.answer) count sink.new.turns) }
{
    let config = session_settings(alloc)?;
    let mut host = OrderedHost::new(alloc, GeneratedSource::new(alloc, count), analysis);
    let end = main_loop(alloc, config, &mut host, sink, analysis);
    host.keeps_order();
    drop(host);
    match end {
        Ok(()) => Ok(()),
        // The messages end by `exit`, and nothing of it can fail but for want of memory.
        Err(_) => Err(AllocError),
    }
}
