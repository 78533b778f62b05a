// How far some work is, told to the client.
ghost use Rattle.std.specs.Prelude.{◌≡◌, IfOk};
ghost use Rattle.session_port.specs.Refines.{Refines};
ghost use Rattle.client.specs.Progress.{progress_reported, progress_shown, token_by, token_shown, value_at};

use crate::handler::ReqHandler;
use crate::state::Client;
use crate::work::WorkProgress;
use notify::{Outgo, Progress, ProgressValue};
use plain::{NoMemory, Text};
use session_port::{TurnError, TurnOut};
use std::alloc::Global;

// The token of work with this title, and with this token of its own where it can be cancelled.
fn token_by(alloc: Global, title: &Text, token: &Option<Text>) -> Result<Text, NoMemory>
    ensures { IfOk result (λ text. text ≡ token_by title.now token.now) }
{
    match token {
        Some(token) => token.clone(),
        None => {
            let mut text = Text::from_str(alloc, "rustAnalyzer/")?;
            text.push_str(title.as_str())?;
            Ok(text)
        }
    }
}

// What is told of some work.
fn value_of(work: WorkProgress) -> ProgressValue
    ensures { result ≡ value_at work.state work }
{
    let WorkProgress {
        title,
        state,
        message,
        percentage,
        cancel_token,
    } = work;
    let cancellable = cancel_token.is_some();
    match state {
        Progress::Begin => ProgressValue::Begin {
            cancellable,
            message,
            percentage,
            title,
        },
        Progress::Report => ProgressValue::Report {
            cancellable,
            message,
            percentage,
        },
        Progress::End => ProgressValue::End { message },
    }
}

impl Client {
    // Asks the client to show a token, where the work of it begins.
    #[tactic(auto, unfolding(crate::specs::Progress::token_shown))]
    fn show_token(
        &mut self,
        state: Progress,
        token: &Text,
        out: &mut TurnOut,
    ) -> Result<(), TurnError>
        ensures { Refines result (token_shown state token.now (record { state = self.old; out = out.old })) self.new out.new }
    {
        match state {
            Progress::Begin => {
                let token = token.clone()?;
                self.ask(Outgo::CreateProgress { token }, ReqHandler::Ignore, out)
            }
            Progress::Report | Progress::End => Ok(()),
        }
    }

    #[tactic(auto, unfolding(crate::specs::Progress::progress_shown, session_port::specs::TurnState::written))]
    fn show_progress(&mut self, work: WorkProgress, out: &mut TurnOut) -> Result<(), TurnError>
        ensures { Refines result (progress_shown work (record { state = self.old; out = out.old })) self.new out.new }
    {
        let token = token_by(self.alloc, &work.title, &work.cancel_token)?;
        self.show_token(work.state, &token, out)?;
        let value = value_of(work);
        self.tell(Outgo::Progress { token, value }, out)?;
        Ok(())
    }

    /// Tells a client that shows progress how far some work is. After an `Err` the client is poisoned.
    #[tactic(auto, unfolding(crate::specs::Progress::progress_reported))]
    pub fn report_progress(
        &mut self,
        work: WorkProgress,
        out: &mut TurnOut,
    ) -> Result<(), TurnError>
        ensures { Refines result (progress_reported work (record { state = self.old; out = out.old })) self.new out.new }
    {
        if !self.settings.work_done_progress() {
            return Ok(());
        }
        self.show_progress(work, out)
    }
}
