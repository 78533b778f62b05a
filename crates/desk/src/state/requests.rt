// Requests.
ghost use Rattle.std.specs.Prelude.{◌≡◌, IfOk, OnOk, Some, true};
ghost use Rattle.lsp_frame.specs.Pending.{IsAbove, Registers, id_of};
ghost use Rattle.lsp_frame.specs.declared.message.RequestId.{RequestId};
ghost use Rattle.lsp_frame.specs.Written.{AreWritable};
ghost use Rattle.lsp_frame.specs.declared.message.Message.TheVariants.{Response as ResponseMessage};
ghost use Rattle.plain.specs.Plain.{is_plain};
ghost use Rattle.analysis_host.specs.declared.ask.Ask.TheVariants.{Request as RequestAsk};
ghost use Rattle.method_table.specs.Plans.{is_shutdown};
ghost use Rattle.method_table.specs.Rows.{default_of};
ghost use Rattle.method_table.specs.StateRequests.{request_of};
ghost use Rattle.dispatch.specs.Responses.{response_with};
ghost use Rattle.session_port.specs.Refines.{Refines, RefinesTotal};
ghost use Rattle.session_port.specs.TurnState.{replied};
ghost use Rattle.desk.specs.Meaning.{meaning_of, can_read};
ghost use Rattle.desk.specs.Replies.{already_pending, shut_already, unknown_request, invalid_params, finding_reply};
ghost use Rattle.desk.specs.Steps.{requested, responded, request_admitted, shut_down, asked, unknown, classed, planned, stated, echoed, queried, submitted, dispatched, handed_over};

use crate::replies::{already_pending, fault_reply, invalid_params, shut_already, unknown_request};
use crate::scene::Present;
use crate::state::{Desk, next_number};
use analysis_host::{Analysis, Answer, Ask, GlobalStateSnapshot, Never, Outcome, RowId};
use dispatch::response_with;
use lsp_frame::{Registered, Request, RequestId, Response};
use method_table::{
    Plan, PoolClass, SHUTDOWN, default_of, is_unit, plan, read_state_request, row_of,
};
use plain::{Json, SharedJson, Text};
use session_port::{Command, Counter, Job, JobKind, LogCode, TurnError, TurnOut};
use std::alloc::AllocError;

fn is_shutdown(row: Option<RowId>) -> bool
    ensures { result ≡ is_shutdown row }
{
    match row {
        None => false,
        Some(row) => row == SHUTDOWN,
    }
}

// The answer to a request on a snapshot.
fn answer_now<A: Analysis>(
    snapshot: &GlobalStateSnapshot,
    id: RequestId,
    row: RowId,
    params: SharedJson,
    analysis: &A,
) -> Result<Response, AllocError>
    ensures value { IfOk result (λ response. response ≡ finding_reply id (A.answer snapshot.now (RequestAsk row params))) }
    ensures writable { IfOk result (λ response. AreWritable (ResponseMessage response)) }
{
    // A revision fits 64 bits.
    let _revision = snapshot.revision();
    let ask = Ask::Request { row, params };
    let mut never = Never::new();
    match analysis.query(snapshot, &ask, &mut never)? {
        Outcome::Value(Answer::Json(value)) => Ok(response_with(id, value)),
        Outcome::Fault { code, message } => Ok(fault_reply(id, code, message)),
        Outcome::Value(_) | Outcome::Cancelled { .. } => unreachable!(),
    }
}

// What a request of a row is answered at once.
impl Desk {
    // Refuses a request whose params can't be read.
    #[tactic(auto, unfolding(crate::specs::Steps::responded, crate::specs::Steps::answered_if, crate::specs::Steps::request_answered))]
    fn refuse_params(&mut self, ticket: u64, out: &mut TurnOut) -> Result<(), TurnError>
        ensures { RefinesTotal result (responded ticket invalid_params (record { state = self.old; out = out.old })) self.new out.new }
    {
        let Some(id) = self.close(ticket) else {
            return Ok(());
        };
        let response = invalid_params(self.alloc, id)?;
        self.reply(response, out)
    }

    // Refuses a request after a shutdown.
    #[tactic(auto, unfolding(crate::specs::Steps::responded, crate::specs::Steps::answered_if, crate::specs::Steps::request_answered))]
    fn refuse_shut(&mut self, ticket: u64, out: &mut TurnOut) -> Result<(), TurnError>
        ensures { RefinesTotal result (responded ticket shut_already (record { state = self.old; out = out.old })) self.new out.new }
    {
        let Some(id) = self.close(ticket) else {
            return Ok(());
        };
        let response = shut_already(self.alloc, id)?;
        self.reply(response, out)
    }

    // Refuses a request of a row that the table doesn't have.
    #[tactic(auto, unfolding(crate::specs::Steps::responded, crate::specs::Steps::answered_if, crate::specs::Steps::request_answered))]
    fn refuse_unknown(&mut self, ticket: u64, out: &mut TurnOut) -> Result<(), TurnError>
        ensures { RefinesTotal result (responded ticket unknown_request (record { state = self.old; out = out.old })) self.new out.new }
    {
        let Some(id) = self.close(ticket) else {
            return Ok(());
        };
        let response = unknown_request(self.alloc, id)?;
        self.reply(response, out)
    }

    // Answers a request by a value.
    #[tactic(auto, unfolding(crate::specs::Steps::responded, crate::specs::Steps::answered_if, crate::specs::Steps::request_answered))]
    fn answer_value(&mut self, ticket: u64, value: Json, out: &mut TurnOut) -> Result<(), TurnError>
        requires { is_plain value ≡ true }
        ensures { RefinesTotal result (responded ticket (λ id. response_with id value) (record { state = self.old; out = out.old })) self.new out.new }
    {
        let Some(id) = self.close(ticket) else {
            return Ok(());
        };
        self.reply(response_with(id, value), out)
    }

    // Answers a request by its row's default.
    fn answer_default(
        &mut self,
        ticket: u64,
        row: RowId,
        out: &mut TurnOut,
    ) -> Result<(), TurnError>
        ensures { RefinesTotal result (responded ticket (λ id. response_with id (default_of row)) (record { state = self.old; out = out.old })) self.new out.new }
    {
        let value = default_of(self.alloc, row)?;
        self.answer_value(ticket, value, out)
    }

    // Answers a request by a query on a snapshot.
    #[tactic(auto, unfolding(crate::specs::Steps::responded, crate::specs::Steps::answered_if, crate::specs::Steps::request_answered))]
    fn answer_on<A: Analysis>(
        &mut self,
        snapshot: &GlobalStateSnapshot,
        ticket: u64,
        row: RowId,
        params: SharedJson,
        analysis: &A,
        out: &mut TurnOut,
    ) -> Result<(), TurnError>
        ensures { RefinesTotal result (responded ticket (λ id. finding_reply id (A.answer snapshot.now (RequestAsk row params))) (record { state = self.old; out = out.old })) self.new out.new }
    {
        let Some(id) = self.close(ticket) else {
            return Ok(());
        };
        let response = answer_now(snapshot, id, row, params, analysis)?;
        self.reply(response, out)
    }

    // Answers a request by a query on the present snapshot.
    fn answer_query<P: Present, A: Analysis>(
        &mut self,
        scene: &P,
        ticket: u64,
        row: RowId,
        params: SharedJson,
        analysis: &A,
        out: &mut TurnOut,
    ) -> Result<(), TurnError>
        ensures { RefinesTotal result (responded ticket (λ id. finding_reply id (A.answer (P.scene scene.now).snapshot (RequestAsk row params))) (record { state = self.old; out = out.old })) self.new out.new }
    {
        let snapshot = scene.snapshot()?;
        let answered = self.answer_on(&snapshot, ticket, row, params, analysis, out);
        drop(snapshot);
        answered
    }
}

// What is planned for a request.
impl Desk {
    /// Hands over a job of this kind on this snapshot. After an `Err` the desk is poisoned.
    #[tactic(auto, unfolding(session_port::specs::TurnState::ordered))]
    pub fn hand_over(
        &mut self,
        kind: JobKind,
        class: PoolClass,
        snapshot: GlobalStateSnapshot,
        out: &mut TurnOut,
    ) -> Result<(), TurnError>
        ensures { Refines result (handed_over snapshot class kind (record { state = self.old; out = out.old })) self.new out.new }
    {
        let number = match next_number(self.last_job, Counter::Jobs) {
            Ok(number) => number,
            Err(error) => {
                drop(kind);
                drop(snapshot);
                return Err(error);
            }
        };
        let job = Job {
            number,
            class,
            kind,
            snapshot,
        };
        self.last_job = number;
        self.order(Command::Spawn(job), out)
    }

    // Hands over a request's job on the present snapshot.
    #[tactic(auto, unfolding(crate::specs::Steps::dispatched))]
    fn dispatch<P: Present>(
        &mut self,
        scene: &P,
        class: PoolClass,
        ticket: u64,
        row: RowId,
        params: SharedJson,
        out: &mut TurnOut,
    ) -> Result<(), TurnError>
        ensures { Refines result (dispatched (P.scene scene.now) class ticket row params (record { state = self.old; out = out.old })) self.new out.new }
    {
        let snapshot = scene.snapshot()?;
        let kind = JobKind::Request {
            ticket,
            row,
            params,
        };
        self.hand_over(kind, class, snapshot, out)
    }

    // Answers a request by its own params, where they can be read.
    #[tactic(auto, unfolding(crate::specs::Steps::echoed))]
    fn echo<A: Analysis>(
        &mut self,
        ticket: u64,
        row: RowId,
        params: SharedJson,
        analysis: &A,
        out: &mut TurnOut,
    ) -> Result<(), TurnError>
        ensures { let reads = can_read (meaning_of A.decodes A.answer) row params in
            RefinesTotal result (echoed reads ticket params (record { state = self.old; out = out.old })) self.new out.new }
    {
        if !params.as_json().is_plain() || !analysis.decodes(row, params.as_json()) {
            return self.refuse_params(ticket, out);
        }
        let value = params.into_json()?;
        self.answer_value(ticket, value, out)
    }

    // The same by a query on the present snapshot.
    #[tactic(auto, unfolding(crate::specs::Steps::queried))]
    fn query<P: Present, A: Analysis>(
        &mut self,
        scene: &P,
        ticket: u64,
        row: RowId,
        params: SharedJson,
        analysis: &A,
        out: &mut TurnOut,
    ) -> Result<(), TurnError>
        ensures { let meaning = meaning_of A.decodes A.answer in
            RefinesTotal result (queried meaning (P.scene scene.now) (can_read meaning row params) ticket row params (record { state = self.old; out = out.old })) self.new out.new }
    {
        if !params.as_json().is_plain() || !analysis.decodes(row, params.as_json()) {
            return self.refuse_params(ticket, out);
        }
        self.answer_query(scene, ticket, row, params, analysis, out)
    }

    // The same by a job.
    #[tactic(auto, unfolding(crate::specs::Steps::submitted))]
    fn submit<P: Present, A: Analysis>(
        &mut self,
        scene: &P,
        class: PoolClass,
        ticket: u64,
        row: RowId,
        params: SharedJson,
        analysis: &A,
        out: &mut TurnOut,
    ) -> Result<(), TurnError>
        ensures { let reads = can_read (meaning_of A.decodes A.answer) row params in
            Refines result (submitted (P.scene scene.now) reads class ticket row params (record { state = self.old; out = out.old })) self.new out.new }
    {
        if !params.as_json().is_plain() || !analysis.decodes(row, params.as_json()) {
            return self.refuse_params(ticket, out);
        }
        self.dispatch(scene, class, ticket, row, params, out)
    }

    // A request to change the session's own state. Nothing is done for it yet.
    #[tactic(auto, unfolding(crate::specs::Steps::stated))]
    fn on_state(
        &mut self,
        ticket: u64,
        row: RowId,
        params: &SharedJson,
        out: &mut TurnOut,
    ) -> Result<(), TurnError>
        ensures { RefinesTotal result (stated ticket (request_of row params.now) (record { state = self.old; out = out.old })) self.new out.new }
    {
        match read_state_request(self.alloc, row, params.as_json())? {
            None => self.refuse_params(ticket, out),
            Some(_) => self.answer_value(ticket, Json::null(), out),
        }
    }

    // What is planned for a request of a row.
    #[tactic(auto, unfolding(crate::specs::Steps::planned))]
    fn carry_out<P: Present, A: Analysis>(
        &mut self,
        scene: &P,
        plan: Plan,
        ticket: u64,
        row: RowId,
        params: SharedJson,
        analysis: &A,
        out: &mut TurnOut,
    ) -> Result<(), TurnError>
        ensures { Refines result (planned (meaning_of A.decodes A.answer) (P.scene scene.now) plan ticket row params (record { state = self.old; out = out.old })) self.new out.new }
    {
        match plan {
            Plan::Shutdown => self.on_state(ticket, row, &params, out),
            Plan::Refuse => self.refuse_shut(ticket, out),
            Plan::Unknown => self.refuse_unknown(ticket, out),
            Plan::Default => self.answer_default(ticket, row, out),
            Plan::Identity => self.echo(ticket, row, params, analysis, out),
            Plan::State => self.on_state(ticket, row, &params, out),
            Plan::OnLoop => self.query(scene, ticket, row, params, analysis, out),
            Plan::Job(class) => self.submit(scene, class, ticket, row, params, analysis, out),
        }
    }

    // A request of a row.
    #[tactic(auto, unfolding(crate::specs::Steps::classed))]
    pub(super) fn on_class<P: Present, A: Analysis>(
        &mut self,
        scene: &P,
        ticket: u64,
        row: RowId,
        params: SharedJson,
        analysis: &A,
        out: &mut TurnOut,
    ) -> Result<(), TurnError>
        ensures { Refines result (classed (meaning_of A.decodes A.answer) (P.scene scene.now) ticket row params (record { state = self.old; out = out.old })) self.new out.new }
    {
        let plan = plan(
            Some(row),
            scene.is_loading(),
            scene.is_incomplete(),
            self.shutdown,
        );
        self.carry_out(scene, plan, ticket, row, params, analysis, out)
    }
}

// Requests that are read.
impl Desk {
    #[tactic(auto, unfolding(crate::specs::Steps::unknown))]
    fn on_unknown(&mut self, ticket: u64, method: Text, out: &mut TurnOut) -> Result<(), TurnError>
        ensures { RefinesTotal result (unknown ticket method (record { state = self.old; out = out.old })) self.new out.new }
    {
        self.refuse_unknown(ticket, out)?;
        self.log(LogCode::UnknownRequest, method, out)
    }

    // A request that isn't `shutdown`.
    #[tactic(auto, unfolding(crate::specs::Steps::asked))]
    fn on_row<P: Present, A: Analysis>(
        &mut self,
        scene: &P,
        row: Option<RowId>,
        method: Text,
        params: Json,
        analysis: &A,
        out: &mut TurnOut,
    ) -> Result<(), TurnError>
        ensures { Refines result (asked (meaning_of A.decodes A.answer) (P.scene scene.now) row method params (record { state = self.old; out = out.old })) self.new out.new }
    {
        let ticket = self.turns;
        match row {
            None if self.shutdown => self.refuse_shut(ticket, out),
            None => self.on_unknown(ticket, method, out),
            Some(row) => {
                let params = SharedJson::new(self.alloc, params)?;
                self.on_class(scene, ticket, row, params, analysis, out)
            }
        }
    }

    // From now on no other request is taken.
    #[tactic(auto, unfolding(crate::specs::Steps::shut_down))]
    fn shut_down(&mut self, params: &Json, out: &mut TurnOut) -> Result<(), TurnError>
        ensures { RefinesTotal result (shut_down params.now (record { state = self.old; out = out.old })) self.new out.new }
    {
        let ticket = self.turns;
        if !is_unit(params) {
            return self.refuse_params(ticket, out);
        }
        self.shutdown = true;
        self.answer_value(ticket, Json::null(), out)
    }

    // A request that waits now.
    #[tactic(auto, unfolding(crate::specs::Steps::request_admitted))]
    fn admit<P: Present, A: Analysis>(
        &mut self,
        scene: &P,
        method: Text,
        params: Json,
        analysis: &A,
        out: &mut TurnOut,
    ) -> Result<(), TurnError>
        ensures { Refines result (request_admitted (meaning_of A.decodes A.answer) (P.scene scene.now) method params (record { state = self.old; out = out.old })) self.new out.new }
    {
        let row = row_of(method.as_str());
        if is_shutdown(row) {
            return self.shut_down(&params, out);
        }
        self.on_row(scene, row, method, params, analysis, out)
    }

    // The request waits for an answer, under the turn's number as its ticket, unless one of its id waits already.
    #[tactic(auto, using(lsp_frame::proofs::Above::registering_above))]
    fn note(&mut self, id: RequestId, method: &Text) -> Result<Registered, AllocError>
        requires { IsAbove self.old.turns self.old.pending }
        ensures registers { IfOk result (Registers self.old.turns id self.old.pending self.new.pending) }
        ensures others { OnOk result (self.new ≡ record self.old { pending = self.new.pending }) }
    {
        self.pending.register(self.turns, id, method.as_str())
    }

    // A request whose id waits already, under this ticket, is refused.
    fn refuse_pending(&mut self, ticket: u64, out: &mut TurnOut) -> Result<(), TurnError>
        ensures { (id : RequestId) → id_of ticket self.old.pending ≡ Some id → RefinesTotal result (replied (already_pending id) (record { state = self.old; out = out.old })) self.new out.new }
    {
        let Some(id) = self.pending.id_of(ticket) else {
            return Ok(());
        };
        let id = id.clone()?;
        let response = already_pending(self.alloc, id)?;
        self.reply(response, out)
    }

    /// A request that this turn reads. After an `Err` the desk is poisoned.
    #[tactic(auto, using(crate::proofs::Tickets::requested_again, crate::proofs::Tickets::requested_new))]
    pub fn on_request<P: Present, A: Analysis>(
        &mut self,
        scene: &P,
        request: Request,
        analysis: &A,
        out: &mut TurnOut,
    ) -> Result<(), TurnError>
        requires { IsAbove self.old.turns self.old.pending }
        ensures { Refines result (requested (meaning_of A.decodes A.answer) (P.scene scene.now) request (record { state = self.old; out = out.old })) self.new out.new }
    {
        let Request { id, method, params } = request;
        match self.note(id, &method)? {
            Registered::AlreadyPending(ticket) => self.refuse_pending(ticket, out),
            Registered::New => self.admit(scene, method, params, analysis, out),
        }
    }
}
