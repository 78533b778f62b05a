// What is told of work beside the jobs.
ghost use Rattle.std.specs.Prelude.{◌≡◌};
ghost use Rattle.session_port.specs.Refines.{Refines};
ghost use Rattle.session_model.specs.Machine.{telling_told, tellings_told};

use activities::Telling;
use notify::{MessageKind, Outgo, Progress};
use plain::Items;
use session_model::{TurnError, WorkProgress};
use session_port::{Command, TurnOut};
use session_store::{Store, log, order};

/// A telling goes to the client, or is an order to the host. After an `Err` the state is poisoned.
#[tactic(auto, unfolding(session_model::specs::Machine::telling_told, session_port::specs::TurnState::written))]
pub fn tell(store: &mut Store, telling: Telling, out: &mut TurnOut) -> Result<(), TurnError>
    ensures meets { Refines result (telling_told telling (record { state = store.old; out = out.old })) store.new out.new }
    ensures desk { store.new.desk ≡ store.old.desk }
{
    match telling {
        Telling::Begin {
            title,
            token,
            message,
            percentage,
        } => {
            let work = WorkProgress {
                title,
                state: Progress::Begin,
                message,
                percentage,
                cancel_token: token,
            };
            store.report_progress(work, out)
        }
        Telling::Report {
            title,
            token,
            message,
            percentage,
        } => {
            let work = WorkProgress {
                title,
                state: Progress::Report,
                message,
                percentage,
                cancel_token: token,
            };
            store.report_progress(work, out)
        }
        Telling::End {
            title,
            token,
            message,
        } => {
            let work = WorkProgress {
                title,
                state: Progress::End,
                message,
                percentage: None,
                cancel_token: token,
            };
            store.report_progress(work, out)
        }
        Telling::ShowError { message, button } => {
            store.show_text(button, Some((message, MessageKind::Error)), out)
        }
        Telling::TestState { state, test_id } => {
            store.client.tell(Outgo::TestState { state, test_id }, out)?;
            Ok(())
        }
        Telling::EndRunTest => {
            store.client.tell(Outgo::EndRunTest, out)?;
            Ok(())
        }
        Telling::AppendOutput(text) => {
            store.client.tell(Outgo::AppendOutput { text }, out)?;
            Ok(())
        }
        Telling::Log(code, text) => log(code, text, out),
        Telling::SetChecks(checks) => order(Command::SetChecks(checks), out),
        Telling::RestartCheck { id, scope } => order(Command::RestartCheck { id, scope }, out),
        Telling::CancelCheck(id) => order(Command::CancelCheck(id), out),
        Telling::RunTest { include, exclude } => order(Command::RunTest { include, exclude }, out),
        Telling::StopTest => order(Command::StopTest, out),
        Telling::Discover(arg) => order(Command::Discover(arg), out),
    }
}

/// The same of tellings, one after another.
#[tactic(auto, unfolding(session_model::specs::Machine::tellings_told))]
pub fn tell_all(
    store: &mut Store,
    tellings: Items<Telling>,
    out: &mut TurnOut,
) -> Result<(), TurnError>
    ensures meets { Refines result (tellings_told tellings (record { state = store.old; out = out.old })) store.new out.new }
    ensures desk { store.new.desk ≡ store.old.desk }
{
    for telling in tellings.into_vec() {
        tell(store, telling, out)?;
    }
    Ok(())
}
