// The handshake, message by message.
ghost use Rattle.std.specs.Prelude.{◌≡◌, false, codes, OnErr, IfOk};
ghost use Rattle.lsp_frame.specs.Handshake.{refusal, request_step, notification_step, step_of, begun_by, IfRefused};

use crate::message::{Message, Notification, Request, RequestId, Response, ResponseError};
use crate::step::Step;
use plain::{NoMemory, Text};
use std::alloc::Global;
use std::marker::Model;

/// A handshake, which contracts see as whether `initialize` has come.
#[derive(Drop)]
pub struct Handshake {
    alloc: Global,
    begun: bool,
}

impl Model for Handshake {
    ghost use Rattle.std.specs.Prelude.{Bool};

    ghost Value = { Bool };

    ghost view = { λ h. h.begun };
}

/// The refusal of a request that comes too early.
fn refusal(alloc: Global, id: RequestId, expected: &str) -> Result<Response, NoMemory>
    ensures { IfOk result (λ response. response ≡ refusal id expected.now) }
{
    Ok(Response {
        id: Some(id),
        result: None,
        error: Some(ResponseError {
            code: -32002,
            message: Text::from_str(alloc, expected)?,
            extra: None,
        }),
    })
}

/// What a notification is.
fn notification_step(begun: bool, notification: &Notification) -> Step
    ensures { result ≡ notification_step begun notification.now.method }
{
    if notification.method.is("exit") {
        Step::Exit
    } else if begun && notification.method.is("initialized") {
        Step::Initialized
    } else {
        Step::Ignore
    }
}

/// The step that refuses a request.
fn refused(alloc: Global, id: RequestId, expected: &str) -> Result<Step, NoMemory>
    ensures { IfOk result (λ step. step ≡ Step.Refuse (refusal id expected.now)) }
{
    let response = refusal(alloc, id, expected)?;
    Ok(Step::Refuse(response))
}

/// What a request is.
fn request_step(alloc: Global, begun: bool, request: Request) -> Result<Step, NoMemory>
    ensures { IfOk result (λ step. step ≡ request_step begun request) }
{
    let Request { id, method, params } = request;
    let begins = method.is("initialize");
    drop(method);
    if begun {
        drop(params);
        return refused(alloc, id, "expected initialized notification");
    }
    if begins {
        return Ok(Step::Initialize(id, params));
    }
    drop(params);
    refused(alloc, id, "expected initialize request")
}

/// What a message is.
fn step_of(alloc: Global, begun: bool, message: Message) -> Result<Step, NoMemory>
    ensures step { IfOk result (λ step. step ≡ step_of begun message) }
    ensures writable { IfOk result IfRefused }
{
    match message {
        Message::Request(request) => request_step(alloc, begun, request),
        Message::Notification(notification) => {
            let step = notification_step(begun, &notification);
            drop(notification);
            Ok(step)
        }
        Message::Response(response) => {
            drop(response);
            Ok(Step::Ignore)
        }
    }
}

impl Handshake {
    /// No message has come.
    pub fn new(alloc: Global) -> Handshake
        ensures { result ≡ false }
    {
        Handshake {
            alloc,
            begun: false,
        }
    }

    /// What the next message asks for.
    pub fn step(&mut self, message: Message) -> Result<Step, NoMemory>
        ensures step { IfOk result (λ step. step ≡ step_of self.old message) }
        ensures after { IfOk result (λ step. self.new ≡ begun_by self.old step) }
        ensures writable { IfOk result IfRefused }
        ensures err { OnErr result (self.new ≡ self.old) }
    {
        let step = step_of(self.alloc, self.begun, message)?;
        if let Step::Initialize(_, _) = &step {
            self.begun = true;
        }
        Ok(step)
    }
}
