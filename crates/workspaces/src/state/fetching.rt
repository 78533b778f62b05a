// Fetches of workspaces.
ghost use Rattle.std.specs.Prelude.{◌≡◌, true, is_some, IfOk, OnOk, OnErr};
ghost use Rattle.std.specs.Option.{option_copied};
ghost use Rattle.reload.specs.Errors.{fetch_error};
ghost use Rattle.workspaces.specs.Fetches.{fetch_requested, is_forced, waits_forced, ask_fetch, start_up, fetch_to_start, start_fetch, fetched_of, end_fetch};
ghost use Rattle.workspaces.specs.Fetches.{is_served, plan_fetch, planned_timer, renew_timer, renewed_timer, fires, fire};
ghost use Rattle.workspaces.specs.Switching.{list_fetched};

use crate::outputs::{FetchOutput, list_fetched};
use crate::requests::{FetchRequest, WaitingFetch};
use crate::state::Workspaces;
use plain::{Items, NoMemory, Text};
use project_model::ProjectWorkspace;
use reload::fetch_workspace_error;
use std::alloc::Global;

/// A workspace that was fetched, or why it wasn't.
type Fetched = Result<ProjectWorkspace, Text>;

fn is_forced(request: Option<&FetchRequest>) -> bool
    ensures { result ≡ is_forced (option_copied request.entry) }
{
    match request {
        None => false,
        Some(request) => request.force,
    }
}

fn waits_forced(planned: &Option<WaitingFetch>) -> bool
    ensures { result ≡ waits_forced planned.now }
{
    match planned {
        None => false,
        Some(fetch) => fetch.request.force,
    }
}

fn fires(ticket: u64, planned: &Option<WaitingFetch>) -> bool
    ensures { result ≡ fires ticket planned.now }
{
    match planned {
        None => false,
        Some(fetch) => fetch.ticket == ticket,
    }
}

fn fetched_of(
    alloc: Global,
    found: Result<Items<Fetched>, Text>,
) -> Result<Items<Fetched>, NoMemory>
    ensures { IfOk result (λ list. list ≡ fetched_of found) }
{
    match found {
        Ok(list) => Ok(list),
        Err(error) => {
            let mut list = Items::new(alloc);
            list.push(Err(error))?;
            Ok(list)
        }
    }
}

impl Workspaces {
    /// Asks for a fetch, for this cause. It takes the place of one that waits in the queue, and is forced where that is.
    pub fn ask_fetch(&mut self, cause: Text, request: FetchRequest)
        ensures { self.new ≡ record self.old { fetches = ask_fetch cause request self.old.fetches } }
    {
        let force = is_forced(self.fetches.requested());
        self.fetches.request_op(cause, request.keeping(force));
    }

    /// Asks for the fetch with which a session begins, unless its projects are discovered.
    pub fn start_up(&mut self, discover: bool) -> Result<(), NoMemory>
        ensures ok { OnOk result (self.new ≡ record self.old { fetches = start_up discover self.old.fetches }) }
        ensures err { OnErr result (self.new ≡ self.old) }
    {
        if !discover {
            let cause = Text::from_str(self.alloc, "startup")?;
            self.ask_fetch(cause, FetchRequest::unforced());
        }
        Ok(())
    }

    // Whether a request that is about to start serves as well as a new one.
    fn is_served(&self) -> bool
        ensures { result ≡ is_served self.now.fetches }
    {
        self.planned.is_none() && self.fetches.op_requested() && !self.fetches.op_in_progress()
    }

    /// Lets a fetch wait for a timer with the ticket of this turn, unless a request serves that is about to start. It takes
    /// the place of one that waits for a timer, and is forced where that is. Answers the ticket of the timer that is to
    /// be ordered.
    pub fn plan_fetch(&mut self, turn: u64, request: FetchRequest) -> Option<u64>
        ensures value { result ≡ planned_timer turn self.old.fetches }
        ensures after { self.new ≡ record self.old { fetches = plan_fetch turn request self.old.fetches } }
    {
        if self.is_served() {
            return None;
        }
        let force = waits_forced(&self.planned);
        self.planned = Some(WaitingFetch {
            ticket: turn,
            request: request.keeping(force),
        });
        Some(turn)
    }

    /// Gives a fetch that waits for a timer the ticket of this turn. Answers the ticket of the timer that is to be ordered.
    pub fn renew_timer(&mut self, turn: u64) -> Option<u64>
        ensures value { result ≡ renewed_timer turn self.old.fetches }
        ensures after { self.new ≡ record self.old { fetches = renew_timer turn self.old.fetches } }
    {
        match self.planned.take() {
            None => None,
            Some(fetch) => {
                self.planned = Some(WaitingFetch {
                    ticket: turn,
                    request: fetch.request,
                });
                Some(turn)
            }
        }
    }

    /// Whether a fetch waits for the timer with this ticket.
    pub fn waits_for(&self, ticket: u64) -> bool
        ensures { result ≡ fires ticket self.now.fetches.waiting }
    {
        fires(ticket, &self.planned)
    }

    /// A timer has come: a fetch that waits for its ticket is asked for.
    pub fn fire(&mut self, ticket: u64) -> Result<(), NoMemory>
        ensures ok { OnOk result (self.new ≡ record self.old { fetches = fire ticket self.old.fetches }) }
        ensures err { OnErr result (self.new ≡ self.old) }
    {
        if !self.waits_for(ticket) {
            return Ok(());
        }
        let cause = Text::from_str(self.alloc, "project structure change")?;
        if let Some(fetch) = self.planned.take() {
            self.ask_fetch(cause, fetch.request);
        }
        Ok(())
    }

    /// Whether a fetch is in progress.
    pub fn is_fetching(&self) -> bool
        ensures { result ≡ self.now.fetches.queue.in_progress }
    {
        self.fetches.op_in_progress()
    }

    /// Whether a fetch waits in the queue.
    pub fn is_fetch_requested(&self) -> bool
        ensures { result ≡ is_some self.now.fetches.queue.waiting }
    {
        self.fetches.op_requested()
    }

    /// Starts the fetch that waits in the queue, where fetches may start and none is in progress.
    pub fn start_fetch(&mut self, may_fetch: bool) -> Option<(Text, FetchRequest)>
        ensures value { result ≡ fetch_to_start may_fetch self.old.fetches }
        ensures after { self.new ≡ record self.old { fetches = start_fetch may_fetch self.old.fetches } }
    {
        if !may_fetch {
            return None;
        }
        let started = self.fetches.should_start_op();
        if let Some((_cause, request)) = &started {
            self.forced = request.force;
        }
        started
    }

    /// Keeps what the fetch in progress found, or why it failed as a whole. A switch is wanted.
    pub fn end_fetch(&mut self, found: Result<Items<Fetched>, Text>) -> Result<(), NoMemory>
        requires { self.old.fetches.queue.in_progress ≡ true }
        ensures ok { OnOk result (self.new ≡ record self.old { fetches = end_fetch found self.old.fetches; switch_wanted = true }) }
        ensures err { OnErr result (self.new ≡ self.old) }
    {
        let workspaces = fetched_of(self.alloc, found)?;
        self.fetches.op_completed(FetchOutput {
            workspaces,
            forced: self.forced,
        });
        self.switch_wanted = true;
        Ok(())
    }

    /// What is told of the last fetch, where it failed.
    pub fn fetch_error(&self, discover: bool) -> Result<Option<Text>, NoMemory>
        ensures { IfOk result (λ error. error ≡ fetch_error (list_fetched self.now.fetches.queue.last) discover) }
    {
        fetch_workspace_error(
            self.alloc,
            list_fetched(self.fetches.last_op_result()),
            discover,
        )
    }

    /// What the last fetch found.
    pub fn last_fetch(&self) -> Option<&FetchOutput>
        ensures { option_copied result ≡ self.now.fetches.queue.last }
    {
        self.fetches.last_op_result()
    }
}
