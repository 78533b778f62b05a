// The requests that wait, by their tickets and by their ids.
ghost use Rattle.std.specs.Prelude.{◌≡◌, ◌||◌, IfOk, OnOk, MatchOption, Some, is_some, not};
ghost use Rattle.lsp_frame.specs.Pending.{closed, id_of, is_pending};
ghost use Rattle.lsp_frame.specs.Written.{AreWritable};
ghost use Rattle.lsp_frame.specs.declared.message.Message.TheVariants.{Response as ResponseMessage};
ghost use Rattle.desk.specs.Steps.{cancelled, responded};

use crate::replies::canceled_by_client;
use crate::state::Desk;
use lsp_frame::{RequestId, Response};
use plain::NoMemory;
use session_port::TurnOut;

impl Desk {
    // Closes the request of a ticket, where it waits, and answers its id.
    #[tactic(auto, using(crate::proofs::Tickets::completed_above))]
    pub(super) fn close(&mut self, ticket: u64) -> Option<RequestId>
        ensures value { result ≡ id_of ticket self.old.pending }
        ensures after { MatchOption result (self.new ≡ self.old) (λ id. self.new ≡ record self.old { pending = closed id self.old.pending }) }
    {
        if !self.pending.is_pending(ticket) {
            return None;
        }
        self.pending.complete(ticket)
    }

    /// Answers the request of a ticket under its id, and closes it; false where it isn't pending. After an `Err` the desk is poisoned.
    #[tactic(auto, unfolding(crate::specs::Steps::responded, crate::specs::Steps::answered_if, crate::specs::Steps::request_answered, session_port::specs::TurnState::replied))]
    pub fn respond(
        &mut self,
        ticket: u64,
        response: Response,
        out: &mut TurnOut,
    ) -> Result<bool, NoMemory>
        requires { AreWritable (ResponseMessage response) }
        ensures pending { IfOk result (λ done. done ≡ is_some (id_of ticket self.old.pending)) }
        ensures after { OnOk result (record { state = self.new; out = out.new } ≡ responded ticket (λ id. record response { id = Some id }) (record { state = self.old; out = out.old })) }
    {
        let Some(id) = self.close(ticket) else {
            return Ok(false);
        };
        let Response { result, error, .. } = response;
        out.reply(Response {
            id: Some(id),
            result,
            error,
        })?;
        Ok(true)
    }

    /// Answers the request of an id as one that the client cancelled, and closes it; false where it isn't pending. After an `Err` the
    /// desk is poisoned.
    #[tactic(auto, using(lsp_frame::proofs::Above::closed_above), unfolding(crate::specs::Steps::cancelled, crate::specs::Steps::request_answered, session_port::specs::TurnState::replied))]
    pub fn cancel(&mut self, id: RequestId, out: &mut TurnOut) -> Result<bool, NoMemory>
        ensures pending { IfOk result (λ done. done ≡ is_pending id self.old.pending) }
        ensures after { OnOk result (record { state = self.new; out = out.new } ≡ cancelled id (record { state = self.old; out = out.old })) }
    {
        if !self.pending.has_id(&id) {
            return Ok(false);
        }
        self.pending.cancel(&id);
        let response = canceled_by_client(self.alloc, id)?;
        out.reply(response)?;
        Ok(true)
    }

    /// Whether a request of this id is taken: none waits under it, and no shutdown was requested.
    pub fn takes(&self, id: &RequestId) -> bool
        ensures { result ≡ not (self.now.shutdown || is_pending id.now self.now.pending) }
    {
        !(self.shutdown || self.pending.has_id(id))
    }

    /// Whether no request waits under a ticket.
    pub fn is_completed(&self, ticket: u64) -> bool
        ensures { result ≡ not (is_some (id_of ticket self.now.pending)) }
    {
        !self.pending.is_pending(ticket)
    }
}
