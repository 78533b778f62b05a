ghost use Rattle.std.specs.Prelude.{◌≡◌, is_some, true};
ghost use Rattle.std.specs.Option.{option_copied, option_map};
ghost use Rattle.op_board.specs.Queue.{new_queue, starts};
ghost use Rattle.op_board.specs.QueueRuns.{queue_step};
ghost use Rattle.op_board.specs.QueueRuns.QueueAct.{Requests, Starts, Ends};

use plain::Text;
use std::marker::Model;

/// Requests of an operation that runs one at a time. A newer request takes the place of one that waits.
pub struct OpQueue<Args, Output> {
    waiting: Option<(Text, Args)>,
    in_progress: bool,
    last: Option<Output>,
}

impl<Args: Drop, Output: Drop> Drop for OpQueue<Args, Output> {
    fn drop(self) {
        let OpQueue {
            waiting: _,
            in_progress: _,
            last: _,
        } = self;
    }
}

impl<Args, Output> Model for OpQueue<Args, Output> {
    ghost use Rattle.op_board.specs.Queue.{Queue};
    ghost use Rattle.std.specs.Coded.{codes};

    ghost Value = { Queue Args Output };

    ghost coded = { Prim.hlevel codes };

    ghost view = { λ q. record { waiting = q.waiting; in_progress = q.in_progress; last = q.last } };
}

impl<Args: Drop, Output: Drop> OpQueue<Args, Output> {
    /// A queue in which nothing waits and nothing ran.
    pub fn new() -> OpQueue<Args, Output>
        ensures { result ≡ new_queue }
    {
        OpQueue {
            waiting: None,
            in_progress: false,
            last: None,
        }
    }

    /// Asks for an operation, for this cause.
    pub fn request_op(&mut self, cause: Text, args: Args)
        ensures { self.new ≡ queue_step (Requests (cause, args)) self.old }
    {
        self.waiting = Some((cause, args));
    }

    /// Starts the operation that waits, unless one is in progress.
    pub fn should_start_op(&mut self) -> Option<(Text, Args)>
        ensures value { result ≡ starts self.old }
        ensures after { self.new ≡ queue_step Starts self.old }
    {
        if self.in_progress {
            return None;
        }
        let request = self.waiting.take();
        self.in_progress = request.is_some();
        request
    }

    /// Keeps what the operation in progress came to, which it ends.
    pub fn op_completed(&mut self, output: Output)
        requires { self.old.in_progress ≡ true }
        ensures { self.new ≡ queue_step (Ends output) self.old }
    {
        self.in_progress = false;
        self.last = Some(output);
    }

    /// What the last operation that ended came to.
    pub fn last_op_result(&self) -> Option<&Output>
        ensures { option_copied result ≡ self.now.last }
    {
        self.last.as_ref()
    }

    pub fn op_in_progress(&self) -> bool
        ensures { result ≡ self.now.in_progress }
    {
        self.in_progress
    }

    /// Whether a request waits.
    pub fn op_requested(&self) -> bool
        ensures { result ≡ is_some self.now.waiting }
    {
        self.waiting.is_some()
    }

    /// What the request that waits asks for.
    pub fn requested(&self) -> Option<&Args>
        ensures { option_copied result ≡ option_map (λ request. request.1) self.now.waiting }
    {
        match &self.waiting {
            Some((_cause, args)) => Some(args),
            None => None,
        }
    }
}
