// Answers to the session's own requests.
ghost use Rattle.std.specs.Prelude.{◌≡◌, OnOk};
ghost use Rattle.client.specs.Answers.{fault_in, settings_in};
ghost use Rattle.client.specs.Folds.{follows, asked_after, with_client_settings, errors_with, client_change};
ghost use Rattle.client.specs.Steps.{answered, logged_if};
ghost use Rattle.session_port.specs.declared.command.LogCode.TheVariants.{SettingsError};
ghost use Rattle.session_port.specs.Refines.{RefinesTotal};

use crate::answers::{SettingsAnswer, chooses, read_settings};
use crate::handler::ReqHandler;
use crate::ids::id_text;
use crate::state::Client;
use lsp_frame::{RequestId, Response};
use notify::Outgo;
use plain::{Items, Json};
use ra_config::ConfigChange;
use session_port::{Command, LogCode, TurnError, TurnOut};
use std::alloc::{AllocError, Global};

// A change of the client's settings alone.
fn client_change(alloc: Global, value: Json) -> ConfigChange
    ensures { result ≡ client_change value }
{
    ConfigChange {
        client: Some(value),
        user: None,
        workspace_toml: Items::new(alloc),
        crate_toml: Items::new(alloc),
        parents: None,
    }
}

impl Client {
    // Takes out what is to follow the answer to the request of this id.
    fn take_following(&mut self, id: &Option<RequestId>) -> Option<ReqHandler>
        ensures value { result ≡ follows id.now self.old.asked }
        ensures after { self.new ≡ record self.old { asked = asked_after id.now self.old.asked } }
    {
        match id {
            Some(id) => self.asked.complete(id),
            None => None,
        }
    }

    // The client sets this from now on, where it is there.
    fn set_client(&mut self, value: Option<Json>) -> Result<(), AllocError>
        ensures { OnOk result (self.new ≡ record self.old { settings = with_client_settings value self.old.settings; errors = errors_with value self.old }) }
    {
        let Some(value) = value else {
            return Ok(());
        };
        let change = client_change(self.alloc, value);
        self.change_settings(change)?;
        Ok(())
    }

    // The answer to a request for the settings.
    #[tactic(auto, unfolding(session_port::specs::TurnState::logged, session_port::specs::TurnState::ordered))]
    fn take_settings(&mut self, response: Response, out: &mut TurnOut) -> Result<(), AllocError>
        ensures { OnOk result (logged_if SettingsError (fault_in response)
            (record { state = record self.old { settings = with_client_settings (settings_in response) self.old.settings; errors = errors_with (settings_in response) self.old }; out = out.old })
            ≡ record { state = self.new; out = out.new }) }
    {
        let SettingsAnswer { settings, fault } = read_settings(self.alloc, response)?;
        if let Some(fault) = fault {
            out.order(Command::Log(LogCode::SettingsError, fault))?;
        }
        self.set_client(settings)
    }

    /// An answer to a request of the session's own. After an `Err` the client is poisoned.
    #[tactic(auto, unfolding(crate::specs::Steps::answered, crate::specs::Steps::followed, session_port::specs::TurnState::logged, session_port::specs::TurnState::ordered, session_port::specs::TurnState::written))]
    pub fn complete(&mut self, response: Response, out: &mut TurnOut) -> Result<(), TurnError>
        ensures { RefinesTotal result (answered response (record { state = self.old; out = out.old })) self.new out.new }
    {
        match self.take_following(&response.id) {
            None => {
                let id = id_text(self.alloc, response.id)?;
                out.order(Command::Log(LogCode::UnknownResponse, id))?;
            }
            Some(ReqHandler::Ignore) => {}
            Some(ReqHandler::Settings) => self.take_settings(response, out)?,
            Some(ReqHandler::OpenLogs) if chooses(&response) => self.tell(Outgo::OpenLogs, out)?,
            Some(ReqHandler::OpenLogs) => {}
        }
        Ok(())
    }
}
