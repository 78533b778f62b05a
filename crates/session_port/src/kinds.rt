// What is known of a job by its kind: one row for each kind.
ghost use Rattle.std.specs.Prelude.{◌≡◌};
ghost use Rattle.session_port.specs.Kinds.{asked as row_asked, asks_analysis, facts_of, for_slot as row_for_slot, found as row_found, is_same_kind};

use crate::job::JobKind;

/// What a job for a request works on: a part of the request. The parts of a request are numbered from 0.
#[derive(Clone, Copy, PartialEq, Eq)]
pub struct Slot {
    /// The request's ticket.
    pub ticket: u64,
    pub part: u64,
}

/// What a job is for.
#[derive(Clone, Copy, PartialEq, Eq)]
pub enum JobGroup {
    /// A request, or a part of one.
    Requests,
    /// Lists of diagnostics.
    Diagnosing,
    /// Lists of tests.
    Testing,
    /// Whether a file is part of some crate.
    Indexing,
    /// Whether files are the sources of proc macros.
    SourceChecks,
    /// What checks restart on for a file.
    Scoping,
    /// What later questions need.
    Priming,
    /// Workspaces.
    Fetches,
    /// What build scripts make.
    Builds,
    /// Proc macros.
    Loads,
}

/// What a value is of.
#[derive(Clone, Copy, PartialEq, Eq)]
pub enum ValueKind {
    Json,
    Diagnostics,
    Tests,
    Roots,
    Primed,
    Workspaces,
    BuildData,
    ProcMacros,
}

/// What is known of a job by its kind.
#[derive(Clone, Copy, PartialEq, Eq)]
pub struct JobFacts {
    pub group: JobGroup,
    /// The part of a request that it is to answer.
    pub slot: Option<Slot>,
    /// Whether the analysis is asked: else the job is the host's own.
    pub asks_analysis: bool,
    /// What its value is of.
    pub value: ValueKind,
}

impl ValueKind {
    pub fn is_same(self, other: ValueKind) -> bool
        ensures { result ≡ is_same_kind self other }
    {
        match (self, other) {
            (ValueKind::Json, ValueKind::Json)
            | (ValueKind::Diagnostics, ValueKind::Diagnostics)
            | (ValueKind::Tests, ValueKind::Tests)
            | (ValueKind::Roots, ValueKind::Roots)
            | (ValueKind::Primed, ValueKind::Primed)
            | (ValueKind::Workspaces, ValueKind::Workspaces)
            | (ValueKind::BuildData, ValueKind::BuildData)
            | (ValueKind::ProcMacros, ValueKind::ProcMacros) => true,
            _ => false,
        }
    }
}

// A job for a part of a request.
fn for_slot(ticket: u64, part: u64) -> JobFacts
    ensures { result ≡ row_for_slot ticket part }
{
    JobFacts {
        group: JobGroup::Requests,
        slot: Some(Slot { ticket, part }),
        asks_analysis: true,
        value: ValueKind::Json,
    }
}

// A job of the session's own for which the analysis is asked.
fn asked(group: JobGroup, value: ValueKind) -> JobFacts
    ensures { result ≡ row_asked group value }
{
    JobFacts {
        group,
        slot: None,
        asks_analysis: true,
        value,
    }
}

// A job of the host's own.
fn found(group: JobGroup, value: ValueKind) -> JobFacts
    ensures { result ≡ row_found group value }
{
    JobFacts {
        group,
        slot: None,
        asks_analysis: false,
        value,
    }
}

impl JobKind {
    /// What is known of a job of this kind.
    pub fn facts(&self) -> JobFacts
        ensures { result ≡ facts_of self.now }
    {
        match self {
            JobKind::Request { ticket, .. } => for_slot(*ticket, 0),
            JobKind::Part { ticket, part, .. } => for_slot(*ticket, *part),
            JobKind::Diagnostics { .. } => asked(JobGroup::Diagnosing, ValueKind::Diagnostics),
            JobKind::Tests { .. } => asked(JobGroup::Testing, ValueKind::Tests),
            JobKind::Indexed { .. } => asked(JobGroup::Indexing, ValueKind::Roots),
            JobKind::ProcMacroSources { .. } => asked(JobGroup::SourceChecks, ValueKind::Roots),
            JobKind::CheckScope { .. } => asked(JobGroup::Scoping, ValueKind::Roots),
            JobKind::Prime => asked(JobGroup::Priming, ValueKind::Primed),
            JobKind::FetchWorkspaces { .. } => found(JobGroup::Fetches, ValueKind::Workspaces),
            JobKind::FetchBuildData { .. } => found(JobGroup::Builds, ValueKind::BuildData),
            JobKind::LoadProcMacros { .. } => found(JobGroup::Loads, ValueKind::ProcMacros),
        }
    }

    /// Whether the analysis is asked: else the job is the host's own.
    pub fn asks_analysis(&self) -> bool
        ensures { result ≡ asks_analysis self.now }
    {
        self.facts().asks_analysis
    }
}
