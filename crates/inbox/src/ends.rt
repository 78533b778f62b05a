//! The ends of an inbox: the host's, the reader's and the workers', each with its pass.
ghost use Rattle.std.specs.Prelude.{◌≡◌, true, false, IfOk, OnOk, OnErr, MatchOption, MatchResult, ◌∷◌, [], ◌++◌};
ghost use Rattle.std.specs.Arc.{arc_value};
ghost use Rattle.crossbeam_queue.specs.SegTies.{IsSegPassOf};
ghost use Rattle.inbox.specs.Posting.{IsPosting};
ghost use Rattle.inbox.specs.Rule.{opened, reader_of, host_of, worker, after_post, after_take, Continues, IsBeginning};

use crate::entry::Entry;
use crate::queue::{Inbox, Pass};
use crate::told::tell;
use session_port::Source;
use std::alloc::{AllocError, Global};
use std::sync::{Arc, Wait};
use std::thread;

/// The end that takes.
#[derive(Drop)]
pub struct HostEnd {
    pub inbox: Arc<Inbox, Global>,
    pub pass: Pass,
    ghost of: { IsSegPassOf (arc_value inbox).queue pass },
    ghost takes: { pass.me.view.client.takes ≡ true },
}

/// The end that posts what was read.
#[derive(Drop)]
pub struct ReaderEnd {
    pub inbox: Arc<Inbox, Global>,
    pub pass: Pass,
    ghost of: { IsSegPassOf (arc_value inbox).queue pass },
    ghost reads: { pass.me.view.client.reads ≡ true },
}

/// The end that tells of jobs that are done.
#[derive(Drop)]
pub struct WorkerEnd {
    pub inbox: Arc<Inbox, Global>,
    pub pass: Pass,
    ghost of: { IsSegPassOf (arc_value inbox).queue pass },
}

/// An inbox for a source: the host's end, and the reader's, which knows what the source holds.
pub fn open_inbox<R: Wait, S: Source>(
    rt: &R,
    alloc: Global,
    source: &S,
) -> Result<(HostEnd, ReaderEnd), AllocError>
    ensures host { IfOk result (λ ends. ends.0.pass.me.view.client ≡ host_of (opened (S.left source.now) (S.faults source.now))) }
    ensures reader { IfOk result (λ ends. ends.1.pass.me.view.client ≡ reader_of (opened (S.left source.now) (S.faults source.now))) }
    ensures one { IfOk result (λ ends. IsSegPassOf (arc_value ends.0.inbox).queue ends.1.pass) }
{
    let token = tell(alloc, source)?;
    let (inbox, mut pass) = Inbox::new(alloc)?;
    inbox.open(rt, &mut pass, token)?;
    let inbox = Arc::new(alloc, inbox)?;
    let theirs = Arc::try_clone(&inbox)?;
    let reader = inbox.reader(&mut pass);
    Ok((
        HostEnd { inbox, pass },
        ReaderEnd {
            inbox: theirs,
            pass: reader,
        },
    ))
}

impl ReaderEnd {
    /// Posts an entry; one for which there is no memory comes back.
    pub fn post<R: Wait>(&mut self, rt: &R, entry: Entry) -> Result<(), Entry>
        requires still { self.old.pass.me.view.client.closed ≡ false }
        requires entry { IsPosting self.old.pass.me.view.client.faults self.old.pass.me.view.client.left (entry ∷ []) }
        ensures posted { MatchResult result (λ _. self.new.pass.me.view.client ≡ after_post self.old.pass.me.view.client entry) (λ x. (x ≡ entry) × (self.new.pass.me.view.client ≡ self.old.pass.me.view.client)) }
        ensures same { self.new.inbox ≡ self.old.inbox }
    {
        self.inbox.post(rt, &mut self.pass, entry)
    }
}

impl WorkerEnd {
    /// Posts the number of a job that is done.
    pub fn report<R: Wait>(&mut self, rt: &R, number: u64) -> Result<(), Entry>
        ensures done { OnOk result (self.new.pass.me.view.client.done ≡ self.old.pass.me.view.client.done ++ number ∷ []) }
        ensures kept { OnErr result (self.new.pass.me.view.client ≡ self.old.pass.me.view.client) }
        ensures same { self.new.inbox ≡ self.old.inbox }
    {
        self.inbox.report(rt, &mut self.pass, number)
    }

    /// Posts the number of a job that is done. Where there is no memory it tries again.
    pub fn report_surely<R: Wait>(&mut self, rt: &R, number: u64)
        ensures done { self.new.pass.me.view.client.done ≡ self.old.pass.me.view.client.done ++ number ∷ [] }
        ensures same { self.new.inbox ≡ self.old.inbox }
    {
        for _ in rt.forever() {
            if self.report(rt, number).is_ok() {
                return;
            }
            thread::yield_now();
        }
        unreachable!()
    }
}

impl HostEnd {
    /// The oldest entry.
    pub fn take<R: Wait>(&mut self, rt: &R) -> Option<Entry>
        ensures taken { MatchOption result (self.new.pass.me.view.client ≡ self.old.pass.me.view.client) (λ x. (self.new.pass.me.view.client ≡ after_take self.old.pass.me.view.client x) × Continues self.old.pass.me.view.client x) }
        ensures same { self.new.inbox ≡ self.old.inbox }
    {
        self.inbox.take(rt, &mut self.pass)
    }

    /// The oldest entry, once there is one.
    pub fn wait<R: Wait>(&mut self, rt: &R) -> Entry
        ensures taken { (self.new.pass.me.view.client ≡ after_take self.old.pass.me.view.client result) × Continues self.old.pass.me.view.client result }
        ensures same { self.new.inbox ≡ self.old.inbox }
    {
        for _ in rt.forever() {
            if let Some(entry) = self.take(rt) {
                if entry.is_read() {
                    self.inbox.make_room();
                }
                return entry;
            }
            self.inbox.sleep(rt);
        }
        unreachable!()
    }

    /// An end for a worker, which has posted nothing.
    pub fn worker(&mut self) -> Result<WorkerEnd, AllocError>
        ensures worker { IfOk result (λ end. (end.pass.me.view.client ≡ worker) × (arc_value end.inbox ≡ arc_value self.old.inbox)) }
        ensures same { (self.new.pass.me.view.client ≡ self.old.pass.me.view.client) × (self.new.inbox ≡ self.old.inbox) }
    {
        let inbox = Arc::try_clone(&self.inbox)?;
        let pass = self.inbox.worker(&mut self.pass);
        Ok(WorkerEnd { inbox, pass })
    }

    /// Takes in the end of a worker that has ended.
    pub fn close(&mut self, end: WorkerEnd)
        requires { IsSegPassOf (arc_value self.old.inbox).queue end.pass }
        ensures { (self.new.pass.me.view.client ≡ self.old.pass.me.view.client) × (self.new.inbox ≡ self.old.inbox) }
    {
        let WorkerEnd { inbox: _, pass } = end;
        self.inbox.close(&mut self.pass, pass);
    }

    /// Takes in the end of a reader that has ended. What was taken of its entries is a beginning of what it posted, which is of the source.
    pub fn settle<R: Wait>(self, rt: &R, end: ReaderEnd)
        requires { IsSegPassOf (arc_value self.inbox).queue end.pass }
        ensures begins { IsBeginning self.pass.me.view.client.taken end.pass.me.view.client.posted }
        ensures posting { IsPosting self.pass.me.view.client.faults self.pass.me.view.client.held end.pass.me.view.client.posted }
    {
        let HostEnd { inbox, mut pass } = self;
        let ReaderEnd {
            inbox: _,
            pass: reader,
        } = end;
        inbox.settle(rt, &mut pass, reader);
    }
}
