ghost use Rattle.std.specs.Prelude.{◌≡◌, IfOk};
ghost use Rattle.status.specs.Drafts.{message_of};
ghost use Rattle.status.specs.Facts.{status_of};
ghost use Rattle.status.specs.Same.{is_same_status};

use crate::draft::nothing_told;
use crate::health::Health;
use crate::session_facts::add_session_facts;
use crate::workspace_facts::{add_warnings, add_workspaces};
use plain::{Items, NoMemory, Text};
use project_model::{ProjectWorkspace, check_workspaces_msrv};
use ra_settings::LinkedProject;
use std::alloc::Global;

/// What a status is made of.
pub struct StatusInput {
    /// Workspaces changed, and are fetched only by hand.
    pub reload_needed: bool,
    /// What proc macros and build scripts are made of has changed.
    pub build_deps_changed: bool,
    /// Build scripts failed.
    pub build_error: bool,
    /// What was wrong with the settings.
    pub config_errors: Option<Text>,
    /// Why the last check couldn't be run.
    pub check_error: Option<Text>,
    /// There are neither projects nor detached files.
    pub no_projects: bool,
    /// Workspaces couldn't be loaded.
    pub workspace_error: bool,
    /// The projects that the settings link.
    pub linked: Items<LinkedProject>,
    pub workspaces: Items<ProjectWorkspace>,
    /// All is loaded, and nothing is being worked on.
    pub fully_ready: bool,
}

impl Drop for StatusInput {
    fn drop(self) {
        let StatusInput {
            reload_needed: _,
            build_deps_changed: _,
            build_error: _,
            config_errors: _,
            check_error: _,
            no_projects: _,
            workspace_error: _,
            linked: _,
            workspaces: _,
            fully_ready: _,
        } = self;
    }
}

/// The status of a session.
pub struct Status {
    pub health: Health,
    pub quiescent: bool,
    pub message: Option<Text>,
}

impl Drop for Status {
    fn drop(self) {
        let Status {
            health: _,
            quiescent: _,
            message: _,
        } = self;
    }
}

fn message_of(alloc: Global, text: &str) -> Result<Option<Text>, NoMemory>
    ensures { IfOk result (λ message. message ≡ message_of text.now) }
{
    if text.len() == 0 {
        return Ok(None);
    }
    Ok(Some(Text::from_str(alloc, text.trim_end())?))
}

impl Status {
    /// Whether two statuses are the same.
    pub fn is_same(&self, other: &Status) -> bool
        ensures { result ≡ is_same_status self.now other.now }
    {
        self.health.is_same(other.health)
            && self.quiescent == other.quiescent
            && self.message == other.message
    }
}

/// The status by these facts: the worst of them, and their texts without the white space at their end.
pub fn current_status(alloc: Global, input: &StatusInput) -> Result<Status, NoMemory>
    ensures { IfOk result (λ status. status ≡ status_of input.now) }
{
    status_with(
        alloc,
        input,
        input.linked.as_slice(),
        input.workspaces.as_slice(),
    )
}

/// The same where the projects and the workspaces are lent; those of `input` are not looked at.
pub fn status_with(
    alloc: Global,
    input: &StatusInput,
    linked: &[LinkedProject],
    workspaces: &[ProjectWorkspace],
) -> Result<Status, NoMemory>
    ensures { IfOk result (λ status. status ≡ status_of (record input.now { linked = linked.now; workspaces = workspaces.now })) }
{
    let mut draft = nothing_told(alloc);
    add_session_facts(alloc, &mut draft, input, linked)?;
    let outdated = check_workspaces_msrv(alloc, workspaces)?;
    add_warnings(&mut draft, outdated.as_slice())?;
    add_workspaces(alloc, &mut draft, workspaces)?;
    Ok(Status {
        health: draft.health,
        quiescent: input.fully_ready,
        message: message_of(alloc, draft.text.as_str())?,
    })
}
