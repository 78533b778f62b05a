// The session's state, as its callers see it.
ghost use Rattle.std.specs.Prelude.{◌≡◌, ◌≤◌, IfOk, OnOk, Some, is_some, not};
ghost use Rattle.lsp_frame.specs.Pending.{id_of, is_pending};
ghost use Rattle.lsp_frame.specs.Written.{AreWritable};
ghost use Rattle.lsp_frame.specs.declared.message.Message.TheVariants.{Response as ResponseMessage};
ghost use Rattle.notify.specs.Writing.{HoldsPlain};
ghost use Rattle.lsp_frame.specs.Outgoing.{number_limit};
ghost use Rattle.session_port.specs.Refines.{Refines, RefinesTotal};
ghost use Rattle.docs_vfs.specs.Files.{path_at};
ghost use Rattle.session_port.specs.TurnState.{written};
ghost use Rattle.session_model.specs.ClientProgress.{progress_reported};
ghost use Rattle.session_model.specs.ClientSteps.{asked_for, notification_of};
ghost use Rattle.session_model.specs.Meaning.{Meaning, meaning_of};
ghost use Rattle.session_model.specs.DeskSteps.{responded, cancelled};
ghost use Rattle.session_model.specs.FilesFolds.{has_changed};
ghost use Rattle.workspaces.specs.Fetches.{fetch_to_start, start_fetch};
ghost use Rattle.session_model.specs.Fetching.{with_fetches};
ghost use Rattle.session_model.specs.Machine.{answer_taken, at_client, files_processed, published_at, step, with_workspaces};
ghost use Rattle.session_model.specs.State.{snapshot_of, fresh, fresh_at};
ghost use Rattle.session_model.specs.Status.{is_quiescent};
ghost use Rattle.session_model.specs.declared.input.Input.TheVariants.{Start, Next};

use crate::turns;
use analysis_host::{Analysis, GlobalStateSnapshot};
use docs_vfs::FileId;
use lsp_frame::{RequestId, Response};
use notify::Outgo;
use plain::{NoMemory, Text};
use ra_config::Config;
use session_model::{Counters, Event, ReqHandler, TurnError, WorkProgress};
use session_port::TurnOut;
use session_store::{Store, is_quiescent};
use std::alloc::{AllocError, Global};
use std::marker::Model;
use workspaces::FetchRequest;

/// The state of a session.
pub struct GlobalState {
    store: Store,
}

impl Drop for GlobalState {
    fn drop(self) {
        let GlobalState { store: _ } = self;
    }
}

impl Model for GlobalState {
    ghost use Rattle.session_store.specs.contracts.state.Store as store_of;
    ghost use Rattle.session_model.specs.State.{State};

    ghost Value = { State };

    ghost coded = { store_of.the_row.coded };

    ghost view = { λ g. g.store };
}

impl GlobalState {
    /// The state before any turn.
    pub fn new(alloc: Global, settings: Config) -> Result<Self, AllocError>
        ensures { IfOk result (λ state. state ≡ fresh settings) }
    {
        Ok(GlobalState {
            store: Store::new(alloc, settings)?,
        })
    }

    /// The same, where so many of each counter were used.
    pub fn new_at(alloc: Global, settings: Config, used: Counters) -> Result<Self, AllocError>
        requires { used.outgoing ≤ number_limit }
        ensures { IfOk result (λ state. state ≡ fresh_at used settings) }
    {
        Ok(GlobalState {
            store: Store::new_at(alloc, settings, used)?,
        })
    }

    /// The snapshot of the present.
    pub fn snapshot(&self) -> Result<GlobalStateSnapshot, AllocError>
        ensures { IfOk result (λ snapshot. snapshot ≡ snapshot_of self.now) }
    {
        self.store.snapshot()
    }

    /// Whether no files are loading, and nothing that renews the workspaces is in progress or waits for a timer.
    pub fn is_quiescent(&self) -> bool
        ensures { result ≡ is_quiescent self.now.files self.now.workspaces }
    {
        is_quiescent(&self.store.files, &self.store.workspaces)
    }
}

// Requests by their tickets and ids.
impl GlobalState {
    /// Answers the request of a ticket under its id, and closes it; false where it isn't pending. After an `Err` the state is poisoned.
    pub fn respond(
        &mut self,
        ticket: u64,
        response: Response,
        out: &mut TurnOut,
    ) -> Result<bool, NoMemory>
        requires { AreWritable (ResponseMessage response) }
        ensures pending { IfOk result (λ done. done ≡ is_some (id_of ticket self.old.desk.pending)) }
        ensures others { self.new ≡ record self.old { desk = self.new.desk } }
        ensures after { OnOk result (record { state = self.new.desk; out = out.new } ≡ responded ticket (λ id. record response { id = Some id }) (record { state = self.old.desk; out = out.old })) }
    {
        self.store.desk.respond(ticket, response, out)
    }

    /// Answers the request of an id as one that the client cancelled, and closes it; false where it isn't pending. After an `Err` the
    /// state is poisoned.
    pub fn cancel(&mut self, id: RequestId, out: &mut TurnOut) -> Result<bool, NoMemory>
        ensures pending { IfOk result (λ done. done ≡ is_pending id self.old.desk.pending) }
        ensures others { self.new ≡ record self.old { desk = self.new.desk } }
        ensures after { OnOk result (record { state = self.new.desk; out = out.new } ≡ cancelled id (record { state = self.old.desk; out = out.old })) }
    {
        self.store.desk.cancel(id, out)
    }

    /// Whether no request waits under a ticket.
    pub fn is_completed(&self, ticket: u64) -> bool
        ensures { result ≡ not (is_some (id_of ticket self.now.desk.pending)) }
    {
        self.store.desk.is_completed(ticket)
    }
}

// What is agreed with the client.
impl GlobalState {
    /// Sends a request of the session's own, whose answer is followed by what `then` says. After an `Err` the state is poisoned.
    pub fn send_request(
        &mut self,
        message: Outgo,
        then: ReqHandler,
        out: &mut TurnOut,
    ) -> Result<(), TurnError>
        requires { HoldsPlain message }
        ensures { Refines result (at_client (asked_for message then) (record { state = self.old; out = out.old })) self.new out.new }
    {
        self.store.send_request(message, then, out)
    }

    /// Sends a notification.
    #[tactic(auto, unfolding(session_port::specs::TurnState::written))]
    pub fn send_notification(&mut self, message: Outgo, out: &mut TurnOut) -> Result<(), NoMemory>
        requires { HoldsPlain message }
        ensures after { OnOk result (written (notification_of message) (record { state = self.old; out = out.old }) ≡ record { state = self.new; out = out.new }) }
        ensures same { self.new ≡ self.old }
    {
        self.store.client.tell(message, out)
    }

    /// Tells the client how far some work is, if it shows progress. After an `Err` the state is poisoned.
    pub fn report_progress(
        &mut self,
        work: WorkProgress,
        out: &mut TurnOut,
    ) -> Result<(), TurnError>
        ensures { Refines result (at_client (progress_reported work) (record { state = self.old; out = out.old })) self.new out.new }
    {
        self.store.report_progress(work, out)
    }

    /// Tells the client what is wrong in a file: an empty message as a space.
    pub fn publish_diagnostics(&mut self, file: FileId, out: &mut TurnOut) -> Result<(), TurnError>
        ensures { RefinesTotal result (published_at (path_at self.old.files.table file) file (record { state = self.old; out = out.old })) self.new out.new }
    {
        session_diagnostics::publish(&self.store, file, out)
    }

    /// The client answers what it was asked. Other settings than before ask for a fetch, or for the checks to be set anew. That no request has the answer's id
    /// is logged. After an `Err` the state is poisoned.
    pub fn complete_request(
        &mut self,
        response: Response,
        out: &mut TurnOut,
    ) -> Result<(), TurnError>
        ensures { Refines result (answer_taken response (record { state = self.old; out = out.old })) self.new out.new }
    {
        session_notices::complete_request(&mut self.store, response, out)
    }
}

// Fetches and files.
impl GlobalState {
    /// Takes the fetch that waits out of the queue, with its cause, where fetches may start and none is in progress: it is in
    /// progress from then on.
    pub fn dequeue_fetch(&mut self, may: bool) -> Option<(Text, FetchRequest)>
        ensures value { result ≡ fetch_to_start may self.old.workspaces.fetches }
        ensures after { self.new ≡ with_workspaces (with_fetches (start_fetch may) self.old.workspaces) self.old }
    {
        self.store.workspaces.start_fetch(may)
    }

    /// What has changed goes into the world: one change, and so one revision. The settings files among it go into the
    /// settings, and the fetch that it asks for waits for a timer. Answers whether something has changed, also while files
    /// are loading. After an `Err` the state is poisoned.
    pub fn process_changes(&mut self, out: &mut TurnOut) -> Result<bool, TurnError>
        ensures meets { Refines result (files_processed (record { state = self.old; out = out.old })) self.new out.new }
        ensures some { IfOk result (λ some. some ≡ has_changed self.old.files) }
    {
        session_notices::process_changes(&mut self.store, out)
    }
}

// Turns.
impl GlobalState {
    /// Turn 0. It uses no number of the turns. After an `Err` the state is poisoned.
    pub fn start(&mut self, out: &mut TurnOut) -> Result<(), TurnError>
        ensures { (meaning : Meaning) → Refines result (step meaning Start (record { state = self.old; out = out.old })) self.new out.new }
    {
        turns::start(&mut self.store, out)
    }

    /// One turn. After an `Err` the state is poisoned.
    pub fn handle_event<A: Analysis>(
        &mut self,
        event: Event,
        analysis: &A,
        out: &mut TurnOut,
    ) -> Result<(), TurnError>
        ensures { Refines result (step (meaning_of A.decodes A.answer) (Next event) (record { state = self.old; out = out.old })) self.new out.new }
    {
        turns::handle_event(&mut self.store, event, analysis, out)
    }
}
