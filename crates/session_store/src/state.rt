// The state of a session, and what its subjects share.
ghost use Rattle.std.specs.Prelude.{◌≡◌, ◌≤◌, [], IfOk, IfSome, Ok};
ghost use Rattle.lsp_frame.specs.Pending.{IsAbove};
ghost use Rattle.lsp_frame.specs.Outgoing.{number_limit};
ghost use Rattle.session_port.specs.Refines.{Refines};
ghost use Rattle.session_model.specs.DeskSteps.{handed_over, requested, result_taken};
ghost use Rattle.session_model.specs.Machine.{at_desk};
ghost use Rattle.session_model.specs.Meaning.{meaning_of};
ghost use Rattle.session_model.specs.State.{scene_of, snapshot_of, first_status, fresh, fresh_at};
ghost use Rattle.session_model.specs.WorkEnds.{IsPlainEnd, work_ended};
ghost use Rattle.method_table.specs.declared.class.PoolClass.TheVariants.{Latency, Worker};

use crate::now::Now;
use activities::Activities;
use analysis_host::{Analysis, GlobalStateSnapshot};
use docs_vfs::SourceRoots;
use lsp_frame::Request;
use method_table::PoolClass;
use op_board::DiagnosticCollection;
use plain::{Items, NoMemory};
use ra_config::Config;
use session_model::{Client, Counters, Desk, Present, SessionFiles, TurnError, WorkEnd};
use session_port::{JobKind, TaskMsg, TurnOut};
use status::{Health, Status};
use std::alloc::{AllocError, Global};
use std::marker::Model;
use workspaces::Workspaces;

/// The state of a session, as the crates of its subjects change it.
pub struct Store {
    pub alloc: Global,
    pub client: Client,
    pub files: SessionFiles,
    pub desk: Desk,
    pub workspaces: Workspaces,
    /// The source roots of the workspaces, as a switch made them.
    pub roots: SourceRoots,
    /// Their parents, where the settings have others.
    pub parents: Option<Items<(u32, u32)>>,
    /// What is wrong in files, and of which files the client is to be told.
    pub board: DiagnosticCollection,
    /// The work that the host does beside its jobs.
    pub activities: Activities,
    /// The status that was told last.
    pub status: Status,
}

impl Drop for Store {
    fn drop(self) {
        let Store {
            alloc: _,
            client: _,
            files: _,
            desk: _,
            workspaces: _,
            roots: _,
            parents: _,
            board: _,
            activities: _,
            status: _,
        } = self;
    }
}

// No source roots.
fn no_roots(alloc: Global) -> Result<SourceRoots, NoMemory>
    ensures { IfOk result (λ roots. roots ≡ []) }
{
    SourceRoots::new(Items::new(alloc))
}

// Values that were made, or want of memory where one wasn't. Generic, since what a `?` lets go of is spelled out to its last field where
// its type is known.
fn all_made<A: Drop, B: Drop, C: Drop, D: Drop>(
    first: Result<A, AllocError>,
    second: Result<B, AllocError>,
    third: Result<C, AllocError>,
    fourth: Result<D, AllocError>,
) -> Result<(A, B, C, D), AllocError>
    ensures { IfOk result (λ made. (first ≡ Ok made.0) × (second ≡ Ok made.1) × (third ≡ Ok made.2) × (fourth ≡ Ok made.3)) }
{
    Ok((first?, second?, third?, fourth?))
}

// The status that the first one is compared with: all is well, and nothing is worked on.
fn first_status() -> Status
    ensures { result ≡ first_status }
{
    Status {
        health: Health::Ok,
        quiescent: true,
        message: None,
    }
}

impl Model for Store {
    ghost use Rattle.activities.specs.contracts.activities.Activities as activities_of;
    ghost use Rattle.docs_vfs.specs.contracts.file_table.FileTable as files_of;
    ghost use Rattle.session_model.specs.HandlerCode as handler;
    ghost use Rattle.op_board.specs.contracts.board.DiagnosticCollection as board_of;
    ghost use Rattle.session_port.specs.contracts.job.Job as job;
    ghost use Rattle.status.specs.contracts.status.Status as status_of;
    ghost use Rattle.workspaces.specs.contracts.state.Workspaces as workspaces_of;
    ghost use Rattle.session_model.specs.Codes.{state_code};
    ghost use Rattle.session_model.specs.State.{State};

    ghost Value = { State };

    ghost coded = { state_code handler.the_row.coded files_of.the_row.coded job.the_row.coded workspaces_of.the_row.coded board_of.the_row.coded activities_of.the_row.coded status_of.the_row.coded };

    ghost view = { λ g. record { client = g.client; files = g.files; desk = g.desk; workspaces = g.workspaces; sources = record { roots = g.roots; parents = g.parents }; board = g.board; activities = g.activities; status = g.status } };
}

impl Store {
    /// The state before any turn.
    pub fn new(alloc: Global, settings: Config) -> Result<Self, AllocError>
        ensures { IfOk result (λ state. state ≡ fresh settings) }
    {
        let used = Counters {
            turns: 0,
            jobs: 0,
            revisions: 0,
            discoveries: 0,
            outgoing: 0,
            files: 0,
            loader_settings: 0,
        };
        Store::new_at(alloc, settings, used)
    }

    /// The same, where so many of each counter were used.
    pub fn new_at(alloc: Global, settings: Config, used: Counters) -> Result<Self, AllocError>
        requires { used.outgoing ≤ number_limit }
        ensures { IfOk result (λ state. state ≡ fresh_at used settings) }
    {
        let (client, files, workspaces, roots) = all_made(
            Client::new_at(alloc, used.outgoing, settings),
            SessionFiles::new_at(alloc, used.files, used.revisions),
            Workspaces::new_at(alloc, used.loader_settings),
            no_roots(alloc),
        )?;
        Ok(Store {
            alloc,
            client,
            files,
            desk: Desk::new_at(alloc, used.turns, used.jobs),
            workspaces,
            roots,
            parents: None,
            board: DiagnosticCollection::new(alloc),
            activities: Activities::new_at(alloc, used.discoveries),
            status: first_status(),
        })
    }

    /// Gathers what checks offer to mend, so that the snapshots to come share it.
    pub fn gather_fixes(&mut self) -> Result<(), NoMemory>
        ensures { self.new ≡ self.old }
    {
        self.board.gather_fixes()
    }

    /// The snapshot of the present.
    pub fn snapshot(&self) -> Result<GlobalStateSnapshot, AllocError>
        ensures { IfOk result (λ snapshot. snapshot ≡ snapshot_of self.now) }
    {
        let now = Now {
            client: &self.client,
            files: &self.files,
            workspaces: &self.workspaces,
            board: &self.board,
        };
        now.snapshot()
    }
}

// Messages, at the desk.
impl Store {
    /// A request that this turn reads. After an `Err` the state is poisoned.
    pub fn ask<A: Analysis>(
        &mut self,
        request: Request,
        analysis: &A,
        out: &mut TurnOut,
    ) -> Result<(), TurnError>
        requires { IsAbove self.old.desk.turns self.old.desk.pending }
        ensures { Refines result (at_desk (requested (meaning_of A.decodes A.answer) (scene_of self.old) request) (record { state = self.old; out = out.old })) self.new out.new }
    {
        let now = Now {
            client: &self.client,
            files: &self.files,
            workspaces: &self.workspaces,
            board: &self.board,
        };
        self.desk.on_request(&now, request, analysis, out)
    }

    /// A message of a job, and what it ends of the session's own work. After an `Err` the state is poisoned.
    pub fn bring<A: Analysis>(
        &mut self,
        message: TaskMsg,
        analysis: &A,
        out: &mut TurnOut,
    ) -> Result<Option<WorkEnd>, TurnError>
        ensures meets { Refines result (at_desk (result_taken (meaning_of A.decodes A.answer) (scene_of self.old) message) (record { state = self.old; out = out.old })) self.new out.new }
        ensures ends { IfOk result (λ end. end ≡ work_ended message self.old.desk.jobs) }
        ensures plain { IfOk result (λ end. IfSome end IsPlainEnd) }
    {
        let now = Now {
            client: &self.client,
            files: &self.files,
            workspaces: &self.workspaces,
            board: &self.board,
        };
        self.desk.on_task(&now, message, analysis, out)
    }
}

// Jobs of the session's own.
impl Store {
    /// Hands over a job of this class on a snapshot.
    fn hand_over_as(
        &mut self,
        class: PoolClass,
        kind: JobKind,
        snapshot: GlobalStateSnapshot,
        out: &mut TurnOut,
    ) -> Result<(), TurnError>
        ensures { Refines result (at_desk (handed_over snapshot class kind) (record { state = self.old; out = out.old })) self.new out.new }
    {
        self.desk.hand_over(kind, class, snapshot, out)
    }

    /// Hands over a job on a snapshot.
    pub fn hand_over_on(
        &mut self,
        kind: JobKind,
        snapshot: GlobalStateSnapshot,
        out: &mut TurnOut,
    ) -> Result<(), TurnError>
        ensures { Refines result (at_desk (handed_over snapshot Worker kind) (record { state = self.old; out = out.old })) self.new out.new }
    {
        self.hand_over_as(PoolClass::Worker, kind, snapshot, out)
    }

    /// The same on the present snapshot.
    pub fn hand_over(&mut self, kind: JobKind, out: &mut TurnOut) -> Result<(), TurnError>
        ensures { Refines result (at_desk (handed_over (snapshot_of self.old) Worker kind) (record { state = self.old; out = out.old })) self.new out.new }
    {
        let snapshot = match self.snapshot() {
            Ok(snapshot) => snapshot,
            Err(_) => {
                drop(kind);
                return Err(TurnError::NoMemory);
            }
        };
        self.hand_over_on(kind, snapshot, out)
    }

    /// The same for a client that waits for it.
    pub fn hand_over_awaited(&mut self, kind: JobKind, out: &mut TurnOut) -> Result<(), TurnError>
        ensures { Refines result (at_desk (handed_over (snapshot_of self.old) Latency kind) (record { state = self.old; out = out.old })) self.new out.new }
    {
        let snapshot = match self.snapshot() {
            Ok(snapshot) => snapshot,
            Err(_) => {
                drop(kind);
                return Err(TurnError::NoMemory);
            }
        };
        self.hand_over_as(PoolClass::Latency, kind, snapshot, out)
    }
}
