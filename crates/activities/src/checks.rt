// The checks of a session.
ghost use Rattle.std.specs.Prelude.{◌≡◌, map, length, unwrap_or, IfOk};
ghost use Rattle.std.specs.FinMap as by_key;
ghost use Rattle.std.specs.Option.{option_copied};
ghost use Rattle.activities.specs.Checks.{no_checks, is_checked, checks_from, checks_for, checks_set, command_of, title_of, failed, error_of, with_error, ended, with_command, begun, reported, progressed, is_end, ends_check, end_checks, ids_of, all_restarted, is_set, file_restarted, all_cancelled, cancelled_by, cancelled_at};
ghost use Rattle.activities.specs.Announced.{Announces};

use crate::check_names::{command_set, id_in, title_by, token_of};
use crate::settings::{runs_once, words_set};
use crate::telling::{Telling, one};
use docs_vfs::VfsPath;
use plain::{ByNumber, Items, NoMemory, Text, copy};
use project_model::{CheckScope, ProjectWorkspace, WorkspaceKind};
use ra_config::Config;
use session_port::{CheckProgress, FlycheckMsg};
use std::alloc::Global;
use std::marker::Model;

/// The checks that may run: those that are set, what each was started with, and why the last that failed did.
pub struct Checks {
    alloc: Global,
    set: Items<(u64, VfsPath)>,
    commands: ByNumber<Text>,
    error: Option<Text>,
}

impl Drop for Checks {
    fn drop(self) {
        let Checks {
            alloc: _,
            set: _,
            commands: _,
            error: _,
        } = self;
    }
}

impl Model for Checks {
    ghost use Rattle.std.specs.Coded.{codes};
    ghost use Rattle.std.specs.FinMap as by_key;
    ghost use Rattle.activities.specs.Checks.{Checks};

    ghost Value = { Checks };

    ghost coded = { Prim.hlevel (codes, by_key.code) };

    ghost view = { λ c. record { set = c.set; commands = c.commands; error = c.error } };
}

fn is_checked(overridden: bool, kind: WorkspaceKind) -> bool
    ensures { result ≡ is_checked overridden kind }
{
    match kind {
        WorkspaceKind::Cargo => true,
        WorkspaceKind::Json => overridden,
        WorkspaceKind::DetachedFile => false,
    }
}

// A check for each workspace that has one, with the place of the workspace as its id.
fn checks_of(
    alloc: Global,
    overridden: bool,
    present: &[ProjectWorkspace],
) -> Result<Items<(u64, VfsPath)>, NoMemory>
    ensures { IfOk result (λ checks. checks ≡ checks_from overridden 0 present.now) }
{
    let mut checks = Items::new(alloc);
    for (place, workspace) in present.iter().enumerate() {
        if is_checked(overridden, workspace.kind) {
            checks.push((place as u64, copy(&workspace.root)?))?;
        }
    }
    Ok(checks)
}

// The checks of these workspaces.
fn checks_for(
    alloc: Global,
    settings: &Config,
    present: &[ProjectWorkspace],
) -> Result<Items<(u64, VfsPath)>, NoMemory>
    ensures { IfOk result (λ checks. checks ≡ checks_for settings.now present.now) }
{
    if !runs_once(settings) {
        return checks_of(alloc, words_set(settings).is_some(), present);
    }
    let mut checks = Items::new(alloc);
    checks.push((0, copy(settings.root_path())?))?;
    Ok(checks)
}

fn failed(alloc: Global, reason: &str) -> Result<Option<Text>, NoMemory>
    ensures { IfOk result (λ error. error ≡ failed reason.now) }
{
    let mut text = Text::from_str(alloc, "cargo check failed to start: ")?;
    text.push_str(reason)?;
    Ok(Some(text))
}

fn error_of(alloc: Global, end: &Result<(), Text>) -> Result<Option<Text>, NoMemory>
    ensures { IfOk result (λ error. error ≡ error_of end.now) }
{
    match end {
        Ok(()) => Ok(None),
        Err(reason) => failed(alloc, reason.as_str()),
    }
}

fn is_end(progress: &CheckProgress) -> bool
    ensures { result ≡ is_end progress.now }
{
    match progress {
        CheckProgress::DidCancel | CheckProgress::DidFinish(_) => true,
        _ => false,
    }
}

fn ends_check(message: &FlycheckMsg) -> bool
    ensures { result ≡ ends_check message.now }
{
    match message {
        FlycheckMsg::Progress { id: _, progress } => is_end(progress),
        _ => false,
    }
}

/// Whether one of these messages ends a check: behind them the client is to ask anew for what is wrong in files.
pub fn end_checks(messages: &[FlycheckMsg]) -> bool
    ensures { result ≡ end_checks messages.now }
{
    messages.iter().any(ends_check)
}

impl Checks {
    /// No checks.
    pub fn new(alloc: Global) -> Checks
        ensures { result ≡ no_checks }
    {
        Checks {
            alloc,
            set: Items::new(alloc),
            commands: ByNumber::new(alloc),
            error: None,
        }
    }

    /// Those that are set, each with the folder that it is for.
    pub fn all(&self) -> &[(u64, VfsPath)]
        ensures { result.now ≡ self.now.set }
    {
        self.set.as_slice()
    }

    /// Their ids, among which a job finds those that restart for a saved file.
    pub fn ids(&self) -> Result<Items<u64>, NoMemory>
        ensures { IfOk result (λ ids. ids ≡ ids_of self.now) }
    {
        let mut ids = Items::new(self.alloc);
        for check in self.set.as_slice() {
            ids.push(check.0)?;
        }
        Ok(ids)
    }

    /// Why the last that failed did, unless one went well since.
    pub fn error(&self) -> Option<&Text>
        ensures { option_copied result ≡ self.now.error }
    {
        self.error.as_ref()
    }

    /// Sets the checks of these workspaces. After an `Err` of this and the other calls the checks are only to be dropped.
    pub fn set_for(
        &mut self,
        settings: &Config,
        present: &[ProjectWorkspace],
    ) -> Result<Items<Telling>, NoMemory>
        ensures { Announces result (checks_set settings.now present.now self.old) self.new }
    {
        let set = checks_for(self.alloc, settings, present)?;
        let told = one(self.alloc, Telling::SetChecks(set.clone()?))?;
        self.set = set;
        self.commands = ByNumber::new(self.alloc);
        Ok(told)
    }

    // The command of a check.
    fn command_of(&self, settings: &Config, id: u64) -> Result<Text, NoMemory>
        ensures { IfOk result (λ command. command ≡ command_of settings.now id self.now) }
    {
        match self.commands.get(id) {
            Some(command) => command.clone(),
            None => command_set(self.alloc, settings),
        }
    }

    fn title_of(&self, settings: &Config, id: u64) -> Result<Text, NoMemory>
        ensures { IfOk result (λ title. title ≡ title_of settings.now id self.now) }
    {
        let command = self.command_of(settings, id)?;
        title_by(self.alloc, self.set.len(), id, command.as_str())
    }

    // A check has begun with this command.
    fn begin(&mut self, id: u64, command: Text) -> Result<Items<Telling>, NoMemory>
        ensures { Announces result (begun id command self.old) self.new }
    {
        let title = title_by(self.alloc, self.set.len(), id, command.as_str())?;
        let token = Some(token_of(self.alloc, id)?);
        drop(self.commands.insert(id, command)?);
        one(
            self.alloc,
            Telling::Begin {
                title,
                token,
                message: None,
                percentage: None,
            },
        )
    }

    fn report(&self, settings: &Config, id: u64, name: Text) -> Result<Items<Telling>, NoMemory>
        ensures { IfOk result (λ tellings. tellings ≡ reported settings.now id name self.now) }
    {
        one(
            self.alloc,
            Telling::Report {
                title: self.title_of(settings, id)?,
                token: Some(token_of(self.alloc, id)?),
                message: Some(name),
                percentage: None,
            },
        )
    }

    // A check has ended, well or with this error.
    fn end(
        &mut self,
        settings: &Config,
        id: u64,
        error: Option<Text>,
    ) -> Result<Items<Telling>, NoMemory>
        ensures { Announces result (ended settings.now id error self.old) self.new }
    {
        self.error = error;
        one(
            self.alloc,
            Telling::End {
                title: self.title_of(settings, id)?,
                token: Some(token_of(self.alloc, id)?),
                message: None,
            },
        )
    }

    /// A check says how far it is.
    pub fn take(
        &mut self,
        settings: &Config,
        id: u64,
        progress: CheckProgress,
    ) -> Result<Items<Telling>, NoMemory>
        ensures { Announces result (progressed settings.now id progress self.old) self.new }
    {
        match progress {
            CheckProgress::DidStart { command } => self.begin(id, command),
            CheckProgress::DidCheckCrate(name) => self.report(settings, id, name),
            CheckProgress::DidCancel => self.end(settings, id, None),
            CheckProgress::DidFailToRestart(reason) => {
                self.error = failed(self.alloc, reason.as_str())?;
                Ok(Items::new(self.alloc))
            }
            CheckProgress::DidFinish(end) => {
                let error = error_of(self.alloc, &end)?;
                self.end(settings, id, error)
            }
        }
    }

    /// All restart, in order.
    pub fn restart_all(&self) -> Result<Items<Telling>, NoMemory>
        ensures { IfOk result (λ tellings. tellings ≡ all_restarted self.now) }
    {
        let mut tellings = Items::new(self.alloc);
        for check in self.set.as_slice() {
            tellings.push(Telling::RestartCheck {
                id: check.0,
                scope: CheckScope::Workspace { saved: None },
            })?;
        }
        Ok(tellings)
    }

    /// Whether a check has this id.
    pub fn is_set(&self, id: u64) -> bool
        ensures { result ≡ is_set id self.now }
    {
        self.set.iter().any(|check| check.0 == id)
    }

    /// What restarts for a saved file, where one check runs for all workspaces; none where a job is to find out which do.
    pub fn restart_for(
        &self,
        settings: &Config,
        path: VfsPath,
    ) -> Result<Option<Items<Telling>>, NoMemory>
        ensures { IfOk result (λ told. told ≡ file_restarted settings.now path self.now) }
    {
        if !runs_once(settings) {
            return Ok(None);
        }
        let mut tellings = Items::new(self.alloc);
        if self.is_set(0) {
            tellings.push(Telling::RestartCheck {
                id: 0,
                scope: CheckScope::Workspace { saved: Some(path) },
            })?;
        }
        Ok(Some(tellings))
    }

    /// All are cancelled, in order.
    pub fn cancel_all(&self) -> Result<Items<Telling>, NoMemory>
        ensures { IfOk result (λ tellings. tellings ≡ all_cancelled self.now) }
    {
        let mut tellings = Items::new(self.alloc);
        for check in self.set.as_slice() {
            tellings.push(Telling::CancelCheck(check.0))?;
        }
        Ok(tellings)
    }

    /// The check is cancelled that is told under this token, if it is set.
    pub fn cancel(&self, token: &str) -> Result<Items<Telling>, NoMemory>
        ensures { IfOk result (λ tellings. tellings ≡ cancelled_at token.now self.now) }
    {
        let mut tellings = Items::new(self.alloc);
        if let Some(id) = id_in(token) {
            let id = id as u64;
            if self.is_set(id) {
                tellings.push(Telling::CancelCheck(id))?;
            }
        }
        Ok(tellings)
    }
}
