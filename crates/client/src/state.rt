// What is agreed with the client, and the requests of the session's own.
ghost use Rattle.std.specs.Prelude.{◌≡◌, ◌≢◌, ◌≤◌, ◌⊎◌, pos, IfOk, IfErr, OnOk};
ghost use Rattle.std.specs.Arc.{arc_value};
ghost use Rattle.notify.specs.Writing.{HoldsPlain};
ghost use Rattle.layered_settings.specs.Change.{passed_over};
ghost use Rattle.lsp_frame.specs.Outgoing.{number_limit};
ghost use Rattle.session_port.specs.Refines.{Refines};
ghost use Rattle.session_port.specs.declared.fault.TurnError.TheVariants.{Exhausted, NoMemory as OutOfMemory};
ghost use Rattle.session_port.specs.declared.fault.Counter.TheVariants.{Outgoing as OutgoingNumbers};
ghost use Rattle.client.specs.Client.{new_client, new_client_at};
ghost use Rattle.client.specs.Folds.{after_asking, after_change};
ghost use Rattle.client.specs.Steps.{asked_for, notification_of};
ghost use Rattle.client.specs.Texts.{errors_told};
ghost use Rattle.session_port.specs.TurnState.{written};

mod answering;
mod folders;
mod progress;

use crate::errors::errors_text;
use crate::handler::ReqHandler;
use docs_vfs::VfsPath;
use lsp_frame::{Message, Notification, Outgoing, OutgoingFault, Request, RequestId};
use notify::{Outgo, outgo_body};
use plain::{Items, NoMemory, Text};
use ra_config::{Config, ConfigChange, ConfigErrors};
use session_port::{Counter, TurnError, TurnOut};
use std::alloc::{AllocError, Global};
use std::marker::Model;
use std::sync::Arc;

/// What is agreed with the client, and the session's own requests that wait for its answer. Snapshots share the settings.
pub struct Client {
    alloc: Global,
    settings: Arc<Config, Global>,
    asked: Outgoing<ReqHandler>,
    /// The errors of the last change of the settings.
    errors: ConfigErrors,
}

impl Drop for Client {
    fn drop(self) {
        let Client {
            alloc: _,
            settings: _,
            asked: _,
            errors: _,
        } = self;
    }
}

impl Model for Client {
    ghost use Rattle.std.specs.Arc.{arc_value};
    ghost use Rattle.client.specs.contracts.handler.ReqHandler as handler;
    ghost use Rattle.client.specs.Codes.{client_code};
    ghost use Rattle.client.specs.Client.{Client};

    ghost Value = { Client };

    ghost coded = { client_code handler.the_row.coded };

    ghost view = { λ c. record { settings = arc_value c.settings; asked = c.asked; errors = c.errors } };
}

impl Client {
    /// These settings, where nothing was asked.
    pub fn new(alloc: Global, settings: Config) -> Result<Self, AllocError>
        ensures { IfOk result (λ client. client ≡ new_client settings) }
    {
        Client::new_at(alloc, 0, settings)
    }

    /// These settings, where so many numbers of requests were given and none waits.
    pub fn new_at(alloc: Global, given: u32, settings: Config) -> Result<Self, AllocError>
        requires { given ≤ number_limit }
        ensures { IfOk result (λ client. client ≡ new_client_at given settings) }
    {
        Ok(Client {
            alloc,
            settings: Arc::new(alloc, settings)?,
            asked: Outgoing::new_at(alloc, given),
            errors: ConfigErrors::new(alloc, Items::new(alloc))?,
        })
    }

    /// The settings, to be shared.
    pub fn settings(&self) -> &Arc<Config, Global>
        ensures { arc_value result.now ≡ self.now.settings }
    {
        &self.settings
    }

    /// The errors of the last change of the settings in one text, where there are any.
    pub fn errors_text(&self) -> Result<Option<Text>, AllocError>
        ensures { IfOk result (λ text. text ≡ errors_told self.now.errors) }
    {
        errors_text(self.alloc, &self.errors)
    }

    /// The settings change. Answers the changed files that don't hold.
    pub fn change_settings(&mut self, change: ConfigChange) -> Result<Items<VfsPath>, AllocError>
        ensures after { OnOk result (self.new ≡ after_change change self.old) }
        ensures passed { IfOk result (λ paths. paths ≡ passed_over change) }
    {
        let applied = self.settings.apply_change(self.alloc, change)?;
        self.settings = Arc::new(self.alloc, applied.config)?;
        self.errors = applied.errors;
        Ok(applied.passed_over)
    }

    // Gives the next number to a request that is to wait.
    fn register(&mut self, then: ReqHandler) -> Result<i32, TurnError>
        ensures number { IfOk result (λ number. (number ≡ pos self.old.asked.given) × (self.old.asked.given ≢ number_limit)) }
        ensures after { OnOk result (self.new ≡ after_asking then self.old) }
        ensures err { IfErr result (λ e. (e ≡ OutOfMemory) ⊎ ((e ≡ Exhausted OutgoingNumbers) × (self.old.asked.given ≡ number_limit))) }
    {
        match self.asked.register(then) {
            Ok(number) => Ok(number),
            Err(OutgoingFault::Exhausted) => Err(TurnError::Exhausted {
                counter: Counter::Outgoing,
            }),
            Err(OutgoingFault::NoMemory) => Err(TurnError::NoMemory),
        }
    }

    /// Sends a request of the session's own. After an `Err` the client is poisoned.
    #[tactic(auto, unfolding(crate::specs::Steps::asked_for, session_port::specs::TurnState::written))]
    pub fn ask(
        &mut self,
        message: Outgo,
        then: ReqHandler,
        out: &mut TurnOut,
    ) -> Result<(), TurnError>
        requires { HoldsPlain message }
        ensures { Refines result (asked_for message then (record { state = self.old; out = out.old })) self.new out.new }
    {
        let (method, params) = outgo_body(self.alloc, message)?;
        let number = self.register(then)?;
        out.write(Message::Request(Request {
            id: RequestId::Number(number),
            method,
            params,
        }))?;
        Ok(())
    }

    /// Sends a notification.
    #[tactic(auto, unfolding(session_port::specs::TurnState::written))]
    pub fn tell(&self, message: Outgo, out: &mut TurnOut) -> Result<(), NoMemory>
        requires { HoldsPlain message }
        ensures { OnOk result (written (notification_of message) (record { state = self.now; out = out.old }) ≡ record { state = self.now; out = out.new }) }
    {
        let (method, params) = outgo_body(self.alloc, message)?;
        out.write(Message::Notification(Notification { method, params }))
    }
}
