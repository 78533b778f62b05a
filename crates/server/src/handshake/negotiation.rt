// What the handshake waits for, and what it answers.
ghost use Rattle.std.specs.Prelude.{◌≡◌, true, IfOk, None};
ghost use Rattle.lsp_frame.specs.Written.{AreWritable};
ghost use Rattle.lsp_frame.specs.declared.message.Message.TheVariants.{Response as ResponseMessage};
ghost use Rattle.ra_config.specs.Initialize.{initial_config};
ghost use Rattle.server.specs.Stages.{Setup, by_settings, with_reply};
ghost use Rattle.server.specs.Talking.{ComesTo, IfWaiting, IsInStep, stage_of};

use crate::handshake::replies::{no_workspace, welcome};
use analysis_host::Analysis;
use lsp_frame::{Handshake, Message, RequestId, Response, Step};
use plain::{Json, NoMemory};
use ra_config::{Config, ConfigFault};
use std::alloc::Global;
use std::mem;

/// What the handshake waits for: `initialize`, or `initialized` where there are settings.
#[derive(Drop)]
pub(crate) struct Negotiation {
    pub(crate) handshake: Handshake,
    pub(crate) config: Option<Config>,
}

/// What came of a message.
#[derive(Drop)]
pub(crate) enum Answer {
    Nothing,
    Reply(Response),
    /// The session begins, with these settings.
    Begins(Config),
}

impl Negotiation {
    /// No message has come.
    pub(crate) fn new(alloc: Global) -> Negotiation
        ensures in_step { IsInStep result }
        ensures none { result.config ≡ None }
    {
        Negotiation {
            handshake: Handshake::new(alloc),
            config: None,
        }
    }

    /// Accepts an `initialize`, or refuses it and begins anew. After an `Err` the negotiation is poisoned.
    fn accept<A: Analysis>(
        &mut self,
        alloc: Global,
        threads: u32,
        id: RequestId,
        params: &Json,
    ) -> Result<Response, NoMemory>
        requires begun { self.old.handshake ≡ true }
        ensures in_step { IfOk result (λ _. IsInStep self.new) }
        ensures value { IfOk result (λ response. by_settings A.server_info id (initial_config params.now threads) ≡ with_reply response (stage_of self.new.config)) }
        ensures writable { IfOk result (λ response. AreWritable (ResponseMessage response)) }
    {
        match Config::from_initialize(alloc, params, threads)? {
            // What is replaced is dropped by a call: spelled out here, settings are what the proof would cost.
            Ok(config) => {
                let response = welcome::<A>(alloc, id, &config);
                drop(self.config.replace(config));
                response
            }
            Err(ConfigFault::NoRoot) => {
                drop(mem::replace(self, Negotiation::new(alloc)));
                no_workspace(alloc, id)
            }
        }
    }

    /// What the next message comes to, which isn't `exit`. After an `Err` the negotiation is poisoned.
    pub(crate) fn take<A: Analysis>(
        &mut self,
        alloc: Global,
        threads: u32,
        message: Message,
    ) -> Result<Answer, NoMemory>
        requires in_step { IsInStep self.old }
        ensures in_step { IfOk result (λ answer. IfWaiting answer (IsInStep self.new)) }
        ensures answers { let setup : Setup = record { threads = threads; info = A.server_info } in IfOk result (ComesTo setup self.old.config message self.new.config) }
    {
        match self.handshake.step(message)? {
            Step::Initialize(id, params) => {
                Ok(Answer::Reply(self.accept::<A>(alloc, threads, id, &params)?))
            }
            Step::Refuse(response) => Ok(Answer::Reply(response)),
            Step::Ignore | Step::Exit => Ok(Answer::Nothing),
            Step::Initialized => Ok(match self.config.take() {
                Some(config) => Answer::Begins(config),
                None => Answer::Nothing,
            }),
        }
    }
}
