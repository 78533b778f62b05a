// What is ordered, in whatever state.
ghost use Rattle.session_port.specs.Refines.{RefinesTotal};
ghost use Rattle.session_port.specs.TurnState.{ordered, logged};
ghost use Rattle.session_model.specs.ClientSteps.{logged_if};
ghost use Rattle.session_model.specs.State.{State};

use plain::Text;
use session_model::TurnError;
use session_port::{Command, LogCode, TurnOut};

/// Orders a command.
#[tactic(auto, unfolding(session_port::specs::TurnState::ordered))]
pub fn order(command: Command, out: &mut TurnOut) -> Result<(), TurnError>
    ensures { (state : State) → RefinesTotal result (ordered command (record { state = state; out = out.old })) state out.new }
{
    out.order(command)?;
    Ok(())
}

/// Writes a log line.
#[tactic(auto, unfolding(session_port::specs::TurnState::logged))]
pub fn log(code: LogCode, text: Text, out: &mut TurnOut) -> Result<(), TurnError>
    ensures { (state : State) → RefinesTotal result (logged code text (record { state = state; out = out.old })) state out.new }
{
    order(Command::Log(code, text), out)
}

/// A log line, if there is a text.
pub fn log_if(code: LogCode, text: Option<Text>, out: &mut TurnOut) -> Result<(), TurnError>
    ensures { (state : State) → RefinesTotal result (logged_if code text (record { state = state; out = out.old })) state out.new }
{
    match text {
        None => Ok(()),
        Some(text) => log(code, text, out),
    }
}
