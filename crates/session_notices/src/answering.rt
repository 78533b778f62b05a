// Answers of calls that tell whether a document came or went.
ghost use Rattle.std.specs.Prelude.{◌≡◌, IfOk, Result};
ghost use Rattle.session_port.specs.Refines.{Refines};
ghost use Rattle.session_port.specs.TurnState.{TurnState};
ghost use Rattle.session_port.specs.Written.{Written};
ghost use Rattle.session_port.specs.declared.fault.Counter.{Counter};
ghost use Rattle.session_model.specs.State.{State};

use session_model::TurnError;

/// The same answer, and where it is no error whether a document came or went.
pub(crate) fn answering(done: Result<(), TurnError>, came_or_went: bool) -> Result<bool, TurnError>
    ensures same { (machine : Result (TurnState State) Counter) (new : State) (written : Written) → Refines done machine new written → Refines result machine new written }
    ensures value { IfOk result (λ b. b ≡ came_or_went) }
{
    match done {
        Ok(()) => Ok(came_or_went),
        Err(TurnError::Exhausted { counter }) => Err(TurnError::Exhausted { counter }),
        Err(TurnError::NoMemory) => Err(TurnError::NoMemory),
    }
}
