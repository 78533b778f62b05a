// The whole: a session is run, and its summary written.
ghost use Rattle.std.specs.Prelude.{◌≡◌, false, IfOk};
ghost use Rattle.session_port.specs.Record.{Rose};
ghost use Rattle.session.specs.Meaning.{meaning_of};
ghost use Rattle.session_generate.specs.Generating.{Generates, IsSummary};

use crate::output::output_hash;
use crate::running::run_to_exit;
use crate::summary::summary_text;
use analysis_host::Analysis;
use host_fakes::MemorySink;
use message_generator::texts_hash;
use plain::{Items, NoMemory, Text};
use session_port::{HostError, Sink};
use std::alloc::Global;

/// The summary of a session that is run.
fn summarize<A: Analysis>(alloc: Global, count: u16, analysis: &A) -> Result<Text, NoMemory>
    ensures { IfOk result (IsSummary (meaning_of A.decodes A.answer) count) }
{
    let mut sink = MemorySink::new(alloc, Items::new(alloc));
    run_to_exit(alloc, count, &mut sink, analysis)?;
    let texts = texts_hash(alloc, count)?;
    let output = output_hash(sink.turns());
    summary_text(alloc, count, &texts, &output)
}

/// Runs a session over the generated messages of so many documents, on a host and a sink of its own, and writes its
/// summary by one turn.
pub fn generate<S: Sink, A: Analysis>(
    alloc: Global,
    count: u16,
    sink: &mut S,
    analysis: &A,
) -> Result<(), HostError>
    requires { S.poisoned sink.old ≡ false }
    ensures { Generates (meaning_of A.decodes A.answer) count (S.turns sink.old) (S.turns sink.new) (Rose (S.faults sink.old) (S.faults sink.new)) result }
{
    let summary = summarize(alloc, count, analysis)?;
    sink.put_turn(summary.as_str().as_bytes())
}
