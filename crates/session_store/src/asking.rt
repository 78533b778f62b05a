// What the client is asked and told.
ghost use Rattle.std.specs.Prelude.{◌≡◌};
ghost use Rattle.notify.specs.Writing.{HoldsPlain};
ghost use Rattle.session_port.specs.Refines.{Refines};
ghost use Rattle.session_model.specs.ClientProgress.{progress_reported};
ghost use Rattle.session_model.specs.ClientSteps.{asked_for};
ghost use Rattle.session_model.specs.Machine.{asked_if, at_client, text_shown};

use crate::state::Store;
use notify::{MessageKind, Outgo};
use plain::Text;
use session_model::{ReqHandler, TurnError, WorkProgress};
use session_port::TurnOut;

impl Store {
    /// Sends a request of the session's own, whose answer is followed by what `then` says. After an `Err` the state is poisoned.
    pub fn send_request(
        &mut self,
        message: Outgo,
        then: ReqHandler,
        out: &mut TurnOut,
    ) -> Result<(), TurnError>
        requires { HoldsPlain message }
        ensures meets { Refines result (at_client (asked_for message then) (record { state = self.old; out = out.old })) self.new out.new }
        ensures desk { self.new.desk ≡ self.old.desk }
    {
        self.client.ask(message, then, out)
    }

    /// Asks the client for this, where the flag is set. Nothing follows its answer. After an `Err` the state is poisoned.
    #[tactic(auto, unfolding(session_model::specs::Machine::asked_if))]
    pub fn ask_if(
        &mut self,
        wanted: bool,
        message: Outgo,
        out: &mut TurnOut,
    ) -> Result<(), TurnError>
        requires { HoldsPlain message }
        ensures { Refines result (asked_if wanted message (record { state = self.old; out = out.old })) self.new out.new }
    {
        if wanted {
            return self.send_request(message, ReqHandler::Ignore, out);
        }
        Ok(())
    }

    /// Tells the client how far some work is, if it shows progress. After an `Err` the state is poisoned.
    pub fn report_progress(
        &mut self,
        work: WorkProgress,
        out: &mut TurnOut,
    ) -> Result<(), TurnError>
        ensures meets { Refines result (at_client (progress_reported work) (record { state = self.old; out = out.old })) self.new out.new }
        ensures desk { self.new.desk ≡ self.old.desk }
    {
        self.client.report_progress(work, out)
    }

    /// Shows a text, if there is one; with the button that opens the logs as a request. After an `Err` the state is poisoned.
    #[tactic(auto, unfolding(session_model::specs::Machine::text_shown, session_port::specs::TurnState::written))]
    pub fn show_text(
        &mut self,
        button: bool,
        text: Option<(Text, MessageKind)>,
        out: &mut TurnOut,
    ) -> Result<(), TurnError>
        ensures meets { Refines result (text_shown button text (record { state = self.old; out = out.old })) self.new out.new }
        ensures desk { self.new.desk ≡ self.old.desk }
    {
        let Some((message, kind)) = text else {
            return Ok(());
        };
        if button {
            let asked = Outgo::ShowMessageRequest { message, kind };
            return self.send_request(asked, ReqHandler::OpenLogs, out);
        }
        self.client.tell(Outgo::ShowMessage { message, kind }, out)?;
        Ok(())
    }
}
