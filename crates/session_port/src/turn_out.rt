// What a turn writes and orders.
ghost use Rattle.std.specs.Prelude.{◌≡◌, ◌++◌, ◌∷◌, [], OnOk, IfOk};
ghost use Rattle.lsp_frame.specs.Written.{AreWritable};
ghost use Rattle.lsp_frame.specs.declared.message.Message.TheVariants.{Response as ResponseMessage};
ghost use Rattle.session_port.specs.Written.{nothing_done, AllWritable, AreRead, frames_for};

use crate::command::Command;
use lsp_frame::{Message, Response, write_message};
use plain::Items;
use std::alloc::{AllocError, Global};
use std::marker::Model;
use std::mem;

/// What a turn writes and orders. The values of its messages can be written.
pub struct TurnOut {
    messages: Items<Message>,
    commands: Items<Command>,
}

impl Drop for TurnOut {
    fn drop(self) {
        let TurnOut {
            messages: _,
            commands: _,
        } = self;
    }
}

impl Model for TurnOut {
    ghost use Rattle.lsp_frame.specs.contracts.message.Message as message;
    ghost use Rattle.session_port.specs.contracts.command.Command as command;
    ghost use Rattle.session_port.specs.Codes.{written_code};
    ghost use Rattle.session_port.specs.Written.{Written, AllWritable};

    ghost Value = { Written };

    ghost coded = { written_code message.the_row.coded command.the_row.coded };

    ghost view = { λ t. record { messages = t.messages; commands = t.commands } };

    ghost invariant = { λ t. AllWritable t.messages };
}

impl TurnOut {
    pub fn new(alloc: Global) -> Self
        ensures { result ≡ nothing_done }
    {
        TurnOut {
            messages: Items::new(alloc),
            commands: Items::new(alloc),
        }
    }

    /// Writes a message more.
    #[tactic(auto, using(crate::proofs::Writable::writable_push))]
    pub fn write(&mut self, message: Message) -> Result<(), AllocError>
        requires { AreWritable message }
        ensures { OnOk result (self.new ≡ record self.old { messages = self.old.messages ++ message ∷ [] }) }
    {
        self.messages.push(message)?;
        Ok(())
    }

    /// Writes a response more.
    pub fn reply(&mut self, response: Response) -> Result<(), AllocError>
        requires { AreWritable (ResponseMessage response) }
        ensures { OnOk result (self.new ≡ record self.old { messages = self.old.messages ++ ResponseMessage response ∷ [] }) }
    {
        self.write(Message::Response(response))
    }

    /// Orders a command more.
    pub fn order(&mut self, command: Command) -> Result<(), AllocError>
        ensures { OnOk result (self.new ≡ record self.old { commands = self.old.commands ++ command ∷ [] }) }
    {
        self.commands.push(command)?;
        Ok(())
    }

    /// The commands of the turn.
    pub fn commands(&self) -> &[Command]
        ensures { result.now ≡ self.now.commands }
    {
        self.commands.as_slice()
    }

    /// Takes the messages out, and answers their frames.
    pub fn take_bytes(&mut self, alloc: Global) -> Result<Vec<u8>, AllocError>
        ensures value { IfOk result (λ bytes. bytes.items ≡ frames_for self.old.messages) }
        ensures read { OnOk result (AreRead self.old.messages) }
        ensures commands { self.new.commands ≡ self.old.commands }
    {
        let messages = mem::replace(&mut self.messages, Items::new(alloc));
        encode(alloc, messages)
    }

    pub fn into_commands(self) -> Items<Command>
        ensures { result ≡ self.commands }
    {
        let TurnOut {
            messages: _,
            commands,
        } = self;
        commands
    }
}

// The frames of messages.
fn encode(alloc: Global, messages: Items<Message>) -> Result<Vec<u8>, AllocError>
    requires { AllWritable messages }
    ensures value { IfOk result (λ bytes. bytes.items ≡ frames_for messages) }
    ensures read { OnOk result (AreRead messages) }
{
    let mut bytes = Vec::new(alloc);
    for message in messages.into_vec() {
        write_message(message, &mut bytes)?;
    }
    Ok(bytes)
}
