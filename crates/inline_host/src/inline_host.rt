// The host that runs everything on one thread.
ghost use Rattle.std.specs.Prelude.{◌≡◌, ◌≤◌, ℕ, List, true, false, length, take, drop, Err, IsTrue, IfOk, IfErr, OnOk, OnErr, option_copied};
ghost use Rattle.inline_host.specs.Coming.{Comes, NeedsRead, orders_after, source_before, jobs_after};
ghost use Rattle.inline_host.specs.Framed.{waiting as framed_waiting};
ghost use Rattle.session_port.specs.Events.{is_news};
ghost use Rattle.session_port.specs.Honest.{IsHonest};
ghost use Rattle.inline_host.specs.Inline.{new_inline, waiting, GivesAnswer, GivesBytes, GivesResults, GivesEnd, ReadsNow};
ghost use Rattle.inline_host.specs.Orders.{after_commands};
ghost use Rattle.session_port.specs.declared.command.DeferredTask.{DeferredTask as Deferred};
ghost use Rattle.session_port.specs.declared.event.LoaderMsg.{LoaderMsg};
ghost use Rattle.session_port.specs.declared.event.TaskMsg.{TaskMsg};
ghost use Rattle.session_port.specs.Record.{HasCause, AreRising, UnlessEnded, added, after_given, after_ok, after_order, gave, last_number, spawned, took};

use crate::framed_source::FramedSource;
use crate::jobs_out::JobsOut;
use crate::orders::{keep_orders, next_answer};
use crate::recorded_call::{RecordedCall, record_event};
use analysis_host::Analysis;
use host_orders::HostOrders;
use plain::{Bytes, Items};
use session_port::{Command, DeferredTask, Host, HostError, HostEvent, Source};
use std::alloc::{AllocError, Global};
use std::marker::Model;

/// Before more bytes come the results of all jobs out, which it runs within `next`, then the answers to the settings of a loader, one event
/// each, then the deferred tasks, then the newest timer. It reads the source where it needs more bytes.
pub struct InlineHost<'a, S: Source, A> {
    alloc: Global,
    source: FramedSource<S>,
    analysis: &'a A,
    jobs: JobsOut,
    orders: HostOrders<DeferredTask>,
    calls: Option<Items<RecordedCall>>,
}

impl<'a, S: Source + Drop, A: Drop> Drop for InlineHost<'a, S, A> {
    fn drop(self) {
        let InlineHost {
            alloc: _,
            source: _,
            analysis: _,
            jobs: _,
            orders: _,
            calls: _,
        } = self;
    }
}

impl<'a, S: Source, A> Model for InlineHost<'a, S, A> {
    ghost use Rattle.inline_host.specs.Codes.{call_code, inline_code};
    ghost use Rattle.inline_host.specs.Inline.{InlineData};
    ghost use Rattle.session_port.specs.contracts.command.Command as command;
    ghost use Rattle.session_port.specs.contracts.command.DeferredTask as task;
    ghost use Rattle.session_port.specs.contracts.event.HostEvent as event;
    ghost use Rattle.session_port.specs.contracts.job.Job as job;

    ghost Value = { InlineData };

    ghost coded = { inline_code job.the_row.coded task.the_row.coded (call_code event.the_row.coded command.the_row.coded) };

    ghost view = { λ h. record { out = h.jobs.out; last_job = h.jobs.last_job; orders = h.orders; held = h.source.held; left = h.source.left; calls = h.calls; faults = h.source.faults; poisoned = h.source.poisoned } };
}

/// Gives an event, which it records before.
fn recorded(
    calls: &mut Option<Items<RecordedCall>>,
    event: HostEvent,
) -> Result<HostEvent, AllocError>
    ensures event { IfOk result (λ given. given ≡ event) }
    ensures calls { calls.new ≡ after_ok result (λ given. added calls.old (gave given)) calls.old }
{
    match record_event(calls, &event) {
        Ok(()) => Ok(event),
        Err(error) => {
            drop(event);
            Err(error)
        }
    }
}

/// Gives the first of the bytes held. On an error they are held as before.
fn give_bytes<S: Source>(
    alloc: Global,
    source: &mut FramedSource<S>,
    calls: &mut Option<Items<RecordedCall>>,
    end: usize,
) -> Result<HostEvent, AllocError>
    requires { end ≤ length source.old.held }
    ensures event { IfOk result (λ event. event ≡ HostEvent.Bytes (take end source.old.held)) }
    ensures ok { OnOk result (source.new ≡ record source.old { held = drop end source.old.held }) }
    ensures err { OnErr result (source.new ≡ source.old) }
    ensures calls { calls.new ≡ after_ok result (λ event. added calls.old (gave event)) calls.old }
{
    if calls.is_none() {
        return Ok(HostEvent::Bytes(source.give(end)?));
    }
    let piece = Bytes::from_slice(alloc, source.front(end))?;
    let event = recorded(calls, HostEvent::Bytes(piece))?;
    source.advance(end);
    Ok(event)
}

/// Gives the event that comes next, and records it. On an error all bytes wait as before.
fn coming<S: Source, A: Analysis>(
    alloc: Global,
    source: &mut FramedSource<S>,
    jobs: &mut JobsOut,
    orders: &mut HostOrders<DeferredTask>,
    calls: &mut Option<Items<RecordedCall>>,
    analysis: &A,
) -> Result<HostEvent, HostError>
    requires usable { source.old.poisoned ≡ false }
    ensures usable { IfOk result (λ _. source.new.poisoned ≡ false) }
    ensures waiting { IfOk result (λ event. framed_waiting (source_before event source.new)
        ≡ framed_waiting source.old) }
    ensures kept { OnErr result (framed_waiting source.new ≡ framed_waiting source.old) }
    ensures event { IfOk result (λ event. Comes A.answer jobs.old.out orders.old source.old
        (source_before event source.new) event) }
    ensures orders { IfOk result (λ event. orders.new ≡ orders_after event orders.old) }
    ensures jobs { jobs.new ≡ after_ok result (λ event. jobs_after event jobs.old) jobs.old }
    ensures calls { calls.new ≡ after_ok result (λ event. added calls.old (gave event)) calls.old }
    ensures cause { HasCause source.old.faults source.new.faults result }
    ensures failed { result ≡ Err HostError.Failed → NeedsRead jobs.old.out orders.old source.old }
{
    if !jobs.is_empty() {
        let batch = jobs.results(alloc, analysis)?;
        let event = recorded(calls, HostEvent::Tasks(batch))?;
        jobs.clear();
        return Ok(event);
    }
    if let Some(event) = next_answer(alloc, orders)? {
        return Ok(recorded(calls, event)?);
    }
    let end = source.next_end()?;
    if end == 0 {
        return Ok(recorded(calls, HostEvent::Ended)?);
    }
    Ok(give_bytes(alloc, source, calls, end)?)
}

impl<'a, S: Source, A: Analysis> InlineHost<'a, S, A> {
    /// A host that keeps a record of what it gives and takes if `keep` says so.
    pub fn new(alloc: Global, source: S, analysis: &'a A, keep: bool) -> Self
        ensures { result ≡ new_inline (S.left source) (S.faults source) (S.poisoned source) keep }
    {
        InlineHost {
            alloc,
            source: FramedSource::new(alloc, source),
            analysis,
            jobs: JobsOut::new(alloc),
            orders: HostOrders::new(alloc),
            calls: keep.then(|| Items::new(alloc)),
        }
    }

    /// The calls so far that did not fail, if a record is kept.
    pub fn calls(&self) -> Option<&Items<RecordedCall>>
        ensures { option_copied result ≡ self.now.calls }
    {
        self.calls.as_ref()
    }
}

impl<'a, S: Source, A: Analysis> Host<A> for InlineHost<'a, S, A> {
    ghost out = { λ h. h.out };

    ghost last_job = { λ h. h.last_job };

    ghost honest = { λ _. true };

    ghost faults = { λ h. h.faults };

    ghost calls = { λ h. h.calls };

    ghost poisoned = { λ h. h.poisoned };

    ghost origin = { λ _. tt };

    fn next(&mut self) -> Result<HostEvent, HostError>
        requires usable { self.old.poisoned ≡ false }
        ensures usable { IfOk result (λ event. UnlessEnded event (self.new.poisoned ≡ false)) }
        ensures out { self.new.out ≡ after_given result self.old.out }
        ensures last_job { self.new.last_job ≡ self.old.last_job }
        ensures honest { IfOk result (λ event. IsTrue true → IsHonest A.answer self.old.out event) }
        ensures calls { self.new.calls
            ≡ after_ok result (λ event. added self.old.calls (gave event)) self.old.calls }
        ensures cause { HasCause self.old.faults self.new.faults result }

        // What comes, and when. The source is read only where nothing else is there to give.
        ensures bytes { IfOk result (λ event. (piece : List ℕ) → event ≡ HostEvent.Bytes piece → GivesBytes self.old self.new piece) }
        ensures results { IfOk result (λ event. (batch : List TaskMsg) → event ≡ HostEvent.Tasks batch → GivesResults self.old self.new batch) }
        ensures ended { IfOk result (λ event. event ≡ HostEvent.Ended → GivesEnd self.old self.new) }
        ensures loader { IfOk result (λ event. (messages : List LoaderMsg) → event ≡ HostEvent.Vfs messages → GivesAnswer self.old self.new event) }
        ensures deferred { IfOk result (λ event. (tasks : List Deferred) → event ≡ HostEvent.DeferredTask tasks → GivesAnswer self.old self.new event) }
        ensures timer { IfOk result (λ event. (ticket : ℕ) → event ≡ HostEvent.Timer ticket → GivesAnswer self.old self.new event) }
        // It checks nothing, runs no tests and discovers nothing.
        ensures news { IfOk result (λ event. is_news event ≡ false) }
        // It may be called again after the end too.
        ensures usable_at_end { IfOk result (λ _. self.new.poisoned ≡ false) }
        ensures kept { OnErr result (waiting self.new ≡ waiting self.old) }
        ensures failed { result ≡ Err HostError.Failed → ReadsNow self.old }
    {
        coming(
            self.alloc,
            &mut self.source,
            &mut self.jobs,
            &mut self.orders,
            &mut self.calls,
            self.analysis,
        )
    }

    fn order(&mut self, commands: Items<Command>) -> Result<(), HostError>
        requires usable { self.old.poisoned ≡ false }
        requires rising { AreRising self.old.last_job (spawned commands) }
        ensures usable { IfOk result (λ _. self.new.poisoned ≡ false) }
        ensures out { IfOk result (λ _. self.new.out ≡ after_order commands self.old.out) }
        ensures last_job { IfOk result (λ _. self.new.last_job
            ≡ last_number self.old.last_job (spawned commands)) }
        ensures calls { self.new.calls
            ≡ after_ok result (λ _. added self.old.calls (took commands)) self.old.calls }
        ensures cause { HasCause self.old.faults self.new.faults result }

        ensures orders { IfOk result (λ _. self.new.orders ≡ after_commands commands self.old.orders) }
        ensures held { self.new.held ≡ self.old.held }
        ensures left { self.new.left ≡ self.old.left }
        ensures faults { self.new.faults ≡ self.old.faults }
        ensures memory { IfErr result (λ e. e ≡ HostError.NoMemory) }
    {
        keep_orders(&mut self.orders, commands.as_slice())?;
        // The jobs are copied only where the record holds them too.
        match &mut self.calls {
            Some(calls) => {
                self.jobs.take_copies(commands.as_slice())?;
                calls.push(RecordedCall::of_commands(commands))?;
            }
            None => self.jobs.take(commands)?,
        }
        Ok(())
    }
}
