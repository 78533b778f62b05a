// Messages of jobs.
ghost use Rattle.std.specs.Prelude.{◌≡◌, true, decimal, IfOk, IfSome, MatchOption, None, Result, Some, option_copied};
ghost use Rattle.std.specs.FinMap as map;
ghost use Rattle.method_table.specs.Rows.{class_of};
ghost use Rattle.session_port.specs.Jobs.{final_of, fits_kind, fitting_job, plain_result};
ghost use Rattle.session_port.specs.Kinds.{ticket_of_job};
ghost use Rattle.lsp_frame.specs.Pending.{id_of};
ghost use Rattle.session_port.specs.Refines.{Refines, RefinesTotal};
ghost use Rattle.session_port.specs.TurnState.{TurnState, logged};
ghost use Rattle.session_port.specs.Written.{Written};
ghost use Rattle.session_port.specs.declared.fault.Counter.{Counter};
ghost use Rattle.desk.specs.Desk.{Desk as DeskData, waiting_for};
ghost use Rattle.desk.specs.Meaning.{meaning_of, Meaning};
ghost use Rattle.desk.specs.Replies.{outdated_reply};
ghost use Rattle.desk.specs.Scene.{Scene};
ghost use Rattle.desk.specs.Steps.{result_taken, delivered, outdated, outdated_for, responded};
ghost use Rattle.desk.specs.WorkEnds.{IsPlainEnd, ended_message, work_end_of, work_ended};

use crate::replies::{finished_reply, outdated_reply};
use crate::scene::Present;
use crate::state::Desk;
use crate::state::ends::{WorkEnd, work_end};
use analysis_host::{Analysis, RowId};
use method_table::{class_of, retries};
use plain::{SharedJson, Text};
use session_port::{Job, JobKind, JobResult, LogCode, TaskBody, TaskMsg, TurnError, TurnOut};

// The same answer, of what ends none of the session's own work.
fn ending_nothing(done: Result<(), TurnError>) -> Result<Option<WorkEnd>, TurnError>
    ensures same { (machine : Result (TurnState DeskData) Counter) (new : DeskData) (written : Written) → Refines done machine new written → Refines result machine new written }
    ensures nothing { IfOk result (λ end. end ≡ None) }
    ensures plain { IfOk result (λ end. IfSome end IsPlainEnd) }
{
    match done {
        Ok(()) => Ok(None),
        Err(TurnError::Exhausted { counter }) => Err(TurnError::Exhausted { counter }),
        Err(TurnError::NoMemory) => Err(TurnError::NoMemory),
    }
}

impl Desk {
    // The request of a job that stopped is refused, since the texts have changed.
    #[tactic(auto, unfolding(crate::specs::Steps::responded, crate::specs::Steps::answered_if, crate::specs::Steps::request_answered))]
    fn refuse_stopped(
        &mut self,
        ticket: u64,
        row: RowId,
        out: &mut TurnOut,
    ) -> Result<(), TurnError>
        ensures { RefinesTotal result (responded ticket (outdated_reply (class_of row)) (record { state = self.old; out = out.old })) self.new out.new }
    {
        let Some(id) = self.close(ticket) else {
            return Ok(());
        };
        let response = outdated_reply(self.alloc, class_of(row), id)?;
        self.reply(response, out)
    }

    // The job of a request that waits has stopped, whose snapshot had this revision: the request is refused, or taken as one that is read
    // now, under the ticket that it has.
    #[tactic(auto, unfolding(crate::specs::Steps::outdated_for))]
    fn take_again<P: Present, A: Analysis>(
        &mut self,
        scene: &P,
        revision: u64,
        ticket: u64,
        row: RowId,
        params: SharedJson,
        analysis: &A,
        out: &mut TurnOut,
    ) -> Result<(), TurnError>
        ensures { Refines result (outdated_for (meaning_of A.decodes A.answer) (P.scene scene.now) revision (Some (record { ticket = ticket; row = row; params = params })) (record { state = self.old; out = out.old })) self.new out.new }
    {
        if revision < scene.revision() && !retries(row) {
            drop(params);
            return self.refuse_stopped(ticket, row, out);
        }
        self.on_class(scene, ticket, row, params, analysis, out)
    }

    // A job stopped whose request waits.
    #[tactic(auto, unfolding(crate::specs::Steps::outdated_for))]
    fn on_stopped<P: Present, A: Analysis>(
        &mut self,
        scene: &P,
        job: Job,
        analysis: &A,
        out: &mut TurnOut,
    ) -> Result<(), TurnError>
        ensures { Refines result (outdated (meaning_of A.decodes A.answer) (P.scene scene.now) job.snapshot.revision job.kind (record { state = self.old; out = out.old })) self.new out.new }
    {
        let Job { kind, snapshot, .. } = job;
        let revision = snapshot.revision();
        drop(snapshot);
        match kind {
            JobKind::Request {
                ticket,
                row,
                params,
            } => self.take_again(scene, revision, ticket, row, params, analysis, out),
            JobKind::Part {
                ticket,
                part: _part,
                row,
                params,
                files,
            } => {
                drop(files);
                self.take_again(scene, revision, ticket, row, params, analysis, out)
            }
            kind => {
                drop(kind);
                Ok(())
            }
        }
    }

    // The result of a request's job, where the request still waits.
    #[tactic(auto, unfolding(crate::specs::Steps::delivered, crate::specs::Steps::settled, crate::specs::Steps::request_answered))]
    fn deliver<P: Present, A: Analysis>(
        &mut self,
        scene: &P,
        ticket: u64,
        job: Job,
        outcome: JobResult,
        analysis: &A,
        out: &mut TurnOut,
    ) -> Result<(), TurnError>
        requires own { ticket_of_job job.kind ≡ Some ticket }
        requires plain { plain_result outcome ≡ true }
        ensures { Refines result (delivered (meaning_of A.decodes A.answer) (P.scene scene.now) (id_of ticket self.old.pending) job outcome (record { state = self.old; out = out.old })) self.new out.new }
    {
        if self.is_completed(ticket) {
            drop(job);
            drop(outcome);
            return Ok(());
        }
        if let JobResult::Cancelled { .. } = &outcome {
            drop(outcome);
            return self.on_stopped(scene, job, analysis, out);
        }
        drop(job);
        let Some(id) = self.close(ticket) else {
            drop(outcome);
            return Ok(());
        };
        match finished_reply(self.alloc, id, outcome)? {
            Some(response) => self.reply(response, out),
            None => Ok(()),
        }
    }

    // What a job came to that is off: the result of its request, or the end of the session's own work.
    #[tactic(auto, using(session_port::proofs::Facts::plain_fits, crate::proofs::Slots::ticket_of_slot, crate::proofs::Slots::slot_ends_nothing, crate::proofs::PlainEnds::plain_ends), unfolding(crate::specs::Steps::delivered))]
    fn take_result<P: Present, A: Analysis>(
        &mut self,
        scene: &P,
        job: Job,
        outcome: JobResult,
        analysis: &A,
        out: &mut TurnOut,
    ) -> Result<Option<WorkEnd>, TurnError>
        requires { fits_kind job.kind outcome ≡ true }
        ensures meets { Refines result (delivered (meaning_of A.decodes A.answer) (P.scene scene.now) (waiting_for job self.old) job outcome (record { state = self.old; out = out.old })) self.new out.new }
        ensures ends { IfOk result (λ end. end ≡ work_end_of job.kind outcome) }
        ensures plain { IfOk result (λ end. IfSome end IsPlainEnd) }
    {
        let Some(slot) = job.kind.facts().slot else {
            let end = work_end(self.alloc, &job.kind, outcome);
            drop(job);
            return Ok(end?);
        };
        ending_nothing(self.deliver(scene, slot.ticket, job, outcome, analysis, out))
    }

    // A message of a job that fits none.
    fn on_strange(&mut self, number: u64, out: &mut TurnOut) -> Result<(), TurnError>
        ensures { RefinesTotal result (logged LogCode.StrangeResult (decimal number) (record { state = self.old; out = out.old })) self.new out.new }
    {
        let text = Text::from_string(format!(in self.alloc; "{number}")?);
        self.log(LogCode::StrangeResult, text, out)
    }

    // Takes the job with this number off that this end fits, where it fits one.
    fn take_ended(&mut self, number: u64, outcome: &JobResult) -> Option<Job>
        ensures value { result ≡ fitting_job (ended_message number outcome.now) self.old.jobs }
        ensures fits { IfSome result (λ job. fits_kind job.kind outcome.now ≡ true) }
        ensures state { MatchOption result (self.new ≡ self.old) (λ _. self.new ≡ record self.old { jobs = map.remove self.old.jobs number }) }
    {
        let job = self.jobs.get(number)?;
        if !outcome.fits(&job.kind) {
            return None;
        }
        self.jobs.remove(number)
    }

    // An end of a job, and what it ends of the session's own work.
    #[tactic(auto, unfolding(crate::specs::Steps::job_ended, crate::specs::Steps::brought))]
    fn on_end<P: Present, A: Analysis>(
        &mut self,
        scene: &P,
        number: u64,
        outcome: JobResult,
        analysis: &A,
        out: &mut TurnOut,
    ) -> Result<Option<WorkEnd>, TurnError>
        ensures meets { Refines result (result_taken (meaning_of A.decodes A.answer) (P.scene scene.now) (ended_message number outcome) (record { state = self.old; out = out.old })) self.new out.new }
        ensures ends { IfOk result (λ end. end ≡ work_ended (ended_message number outcome) self.old.jobs) }
        ensures plain { IfOk result (λ end. IfSome end IsPlainEnd) }
    {
        match self.take_ended(number, &outcome) {
            None => {
                drop(outcome);
                self.on_strange(number, out)?;
                Ok(None)
            }
            Some(job) => self.take_result(scene, job, outcome, analysis, out),
        }
    }

    /// The job out that a message fits, if it fits one.
    pub fn fitting(&self, message: &TaskMsg) -> Option<&Job>
        ensures { option_copied result ≡ fitting_job message.now self.now.jobs }
    {
        let job = self.jobs.get(message.job)?;
        if message.body.fits(job) {
            Some(job)
        } else {
            None
        }
    }

    // A message of a job that goes on: it is strange where it fits none.
    #[tactic(auto, unfolding(crate::specs::Steps::job_ended, crate::specs::Steps::brought))]
    fn on_going(&mut self, message: &TaskMsg, out: &mut TurnOut) -> Result<(), TurnError>
        requires { final_of message.now.body ≡ None }
        ensures { (meaning : Meaning) (scene : Scene) → Refines result (result_taken meaning scene message.now (record { state = self.old; out = out.old })) self.new out.new }
    {
        if self.fitting(message).is_some() {
            return Ok(());
        }
        self.on_strange(message.job, out)
    }

    /// A message of a job, and what it ends of the session's own work: where it fits a job that is out. After an `Err` the desk is poisoned.
    pub fn on_task<P: Present, A: Analysis>(
        &mut self,
        scene: &P,
        message: TaskMsg,
        analysis: &A,
        out: &mut TurnOut,
    ) -> Result<Option<WorkEnd>, TurnError>
        ensures meets { Refines result (result_taken (meaning_of A.decodes A.answer) (P.scene scene.now) message (record { state = self.old; out = out.old })) self.new out.new }
        ensures ends { IfOk result (λ end. end ≡ work_ended message self.old.jobs) }
        ensures plain { IfOk result (λ end. IfSome end IsPlainEnd) }
    {
        match message {
            TaskMsg {
                job: number,
                body: TaskBody::Final(outcome),
            } => self.on_end(scene, number, outcome, analysis, out),
            going => {
                let told = self.on_going(&going, out);
                drop(going);
                ending_nothing(told)
            }
        }
    }
}
