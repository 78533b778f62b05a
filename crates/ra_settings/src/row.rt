ghost use Rattle.std.specs.Prelude.{◌≡◌, map, IfOk};
ghost use Rattle.ra_settings.specs.Values.{kind_of, default_of};
ghost use Rattle.ra_settings.specs.Facts.{facts_of, name_of, dotted};

use crate::default_value::DefaultValue;
use crate::value::{FilesWatcher, InvocationStrategy};
use plain::Text;
use std::alloc::{AllocError, Global};

/// A setting.
#[derive(Clone, Copy, Debug, PartialEq, Eq, PartialOrd, Ord, Hash)]
pub enum Row {
    LinkedProjects,
    DetachedFiles,
    FilesExclude,
    FilesWatcher,
    CargoAutoreload,
    CargoBuildScriptsEnable,
    CargoBuildScriptsRebuildOnSave,
    CargoExtraEnv,
    CargoFeatures,
    CargoAllTargets,
    CargoTarget,
    CfgSetTest,
    CheckOnSave,
    CheckCommand,
    CheckWorkspace,
    CheckInvocationStrategy,
    CheckOverrideCommand,
    CachePrimingEnable,
    CachePrimingNumThreads,
    DiagnosticsEnable,
    ProcMacroEnable,
    ProcMacroAttributesEnable,
    ProcMacroIgnored,
    NumThreads,
    WorkspaceDiscoverConfig,
}

/// Which files may hold a row.
#[derive(Clone, Copy, Debug, PartialEq, Eq, PartialOrd, Ord, Hash)]
pub enum Scope {
    /// No settings file of a root.
    Global,
    /// The workspace files.
    Workspace,
    /// The workspace files and the crate files.
    Local,
}

/// Which values a row has.
#[derive(Clone, Copy, Debug, PartialEq, Eq, PartialOrd, Ord, Hash)]
pub enum Kind {
    Truth,
    Text,
    TextOrNull,
    TextsOrNull,
    Watcher,
    Strategy,
    Paths,
    Projects,
    Features,
    Env,
    Lists,
    Small,
    Threads,
    Discover,
}

/// What the table says of a row.
#[derive(Clone, Copy)]
pub struct Facts {
    /// What its name's parts are.
    pub path: &'static [&'static str],
    pub scope: Scope,
    pub kind: Kind,
    pub default: DefaultValue,
}

/// The rows, in the order of the table.
pub const ROWS: [Row; 25] = [
    Row::LinkedProjects,
    Row::DetachedFiles,
    Row::FilesExclude,
    Row::FilesWatcher,
    Row::CargoAutoreload,
    Row::CargoBuildScriptsEnable,
    Row::CargoBuildScriptsRebuildOnSave,
    Row::CargoExtraEnv,
    Row::CargoFeatures,
    Row::CargoAllTargets,
    Row::CargoTarget,
    Row::CfgSetTest,
    Row::CheckOnSave,
    Row::CheckCommand,
    Row::CheckWorkspace,
    Row::CheckInvocationStrategy,
    Row::CheckOverrideCommand,
    Row::CachePrimingEnable,
    Row::CachePrimingNumThreads,
    Row::DiagnosticsEnable,
    Row::ProcMacroEnable,
    Row::ProcMacroAttributesEnable,
    Row::ProcMacroIgnored,
    Row::NumThreads,
    Row::WorkspaceDiscoverConfig,
];

fn at(path: &'static [&'static str], scope: Scope, default: DefaultValue) -> Facts
    ensures path { result.path.now ≡ path.now }
    ensures scope { result.scope ≡ scope }
    ensures kind { result.kind ≡ kind_of (default_of default) }
    ensures default { default_of result.default ≡ default_of default }
{
    Facts {
        path,
        scope,
        kind: default.kind(),
        default,
    }
}

impl Row {
    #[tactic(auto, unfolding(crate::specs::Facts::facts_of))]
    pub fn facts(self) -> Facts
        ensures path { map (λ p. p.now) result.path.now ≡ (facts_of self).path }
        ensures scope { result.scope ≡ (facts_of self).scope }
        ensures kind { result.kind ≡ kind_of (facts_of self).default }
        ensures default { default_of result.default ≡ (facts_of self).default }
    {
        match self {
            Row::LinkedProjects => at(&["linkedProjects"], Scope::Global, DefaultValue::NoProjects),
            Row::DetachedFiles => at(&["detachedFiles"], Scope::Global, DefaultValue::NoPaths),
            Row::FilesExclude => at(&["files", "exclude"], Scope::Global, DefaultValue::NoPaths),
            Row::FilesWatcher => at(
                &["files", "watcher"],
                Scope::Global,
                DefaultValue::Watcher(FilesWatcher::Client),
            ),
            Row::CargoAutoreload => at(
                &["cargo", "autoreload"],
                Scope::Global,
                DefaultValue::Truth(true),
            ),
            Row::CargoBuildScriptsEnable => at(
                &["cargo", "buildScripts", "enable"],
                Scope::Workspace,
                DefaultValue::Truth(true),
            ),
            Row::CargoBuildScriptsRebuildOnSave => at(
                &["cargo", "buildScripts", "rebuildOnSave"],
                Scope::Workspace,
                DefaultValue::Truth(true),
            ),
            Row::CargoExtraEnv => at(
                &["cargo", "extraEnv"],
                Scope::Workspace,
                DefaultValue::NoVariables,
            ),
            Row::CargoFeatures => at(
                &["cargo", "features"],
                Scope::Workspace,
                DefaultValue::NoFeatures,
            ),
            Row::CargoAllTargets => at(
                &["cargo", "allTargets"],
                Scope::Workspace,
                DefaultValue::Truth(true),
            ),
            Row::CargoTarget => at(&["cargo", "target"], Scope::Workspace, DefaultValue::NoText),
            Row::CfgSetTest => at(
                &["cfg", "setTest"],
                Scope::Workspace,
                DefaultValue::Truth(true),
            ),
            Row::CheckOnSave => at(
                &["checkOnSave"],
                Scope::Workspace,
                DefaultValue::Truth(true),
            ),
            Row::CheckCommand => at(
                &["check", "command"],
                Scope::Workspace,
                DefaultValue::Text("check"),
            ),
            Row::CheckWorkspace => at(
                &["check", "workspace"],
                Scope::Workspace,
                DefaultValue::Truth(true),
            ),
            Row::CheckInvocationStrategy => at(
                &["check", "invocationStrategy"],
                Scope::Workspace,
                DefaultValue::Strategy(InvocationStrategy::PerWorkspace),
            ),
            Row::CheckOverrideCommand => at(
                &["check", "overrideCommand"],
                Scope::Workspace,
                DefaultValue::NoTexts,
            ),
            Row::CachePrimingEnable => at(
                &["cachePriming", "enable"],
                Scope::Global,
                DefaultValue::Truth(true),
            ),
            Row::CachePrimingNumThreads => at(
                &["cachePriming", "numThreads"],
                Scope::Global,
                DefaultValue::Small(0),
            ),
            Row::DiagnosticsEnable => at(
                &["diagnostics", "enable"],
                Scope::Local,
                DefaultValue::Truth(true),
            ),
            Row::ProcMacroEnable => at(
                &["procMacro", "enable"],
                Scope::Global,
                DefaultValue::Truth(true),
            ),
            Row::ProcMacroAttributesEnable => at(
                &["procMacro", "attributes", "enable"],
                Scope::Global,
                DefaultValue::Truth(true),
            ),
            Row::ProcMacroIgnored => at(
                &["procMacro", "ignored"],
                Scope::Local,
                DefaultValue::NoLists,
            ),
            Row::NumThreads => at(&["numThreads"], Scope::Global, DefaultValue::NoThreads),
            Row::WorkspaceDiscoverConfig => at(
                &["workspace", "discoverConfig"],
                Scope::Global,
                DefaultValue::NoDiscover,
            ),
        }
    }

    /// The row's place in the table.
    #[tactic(auto, unfolding(crate::specs::Facts::facts_of))]
    pub fn number(self) -> usize
        ensures { result ≡ (facts_of self).place }
    {
        self as usize
    }

    /// The row's name.
    pub fn name(self, alloc: Global) -> Result<Text, AllocError>
        ensures { IfOk result (λ name. name ≡ name_of self) }
    {
        join(alloc, self.facts().path)
    }
}

/// The parts, joined by dots.
fn join(alloc: Global, path: &[&str]) -> Result<Text, AllocError>
    ensures { IfOk result (λ name. name ≡ dotted (map (λ p. p.now) path.now)) }
{
    match path {
        [] => Ok(Text::new(alloc)),
        [only] => Text::from_str(alloc, only),
        [first, rest @ ..] => {
            let mut name = Text::from_str(alloc, first)?;
            name.push_str(".")?;
            name.push_str(join(alloc, rest)?.as_str())?;
            Ok(name)
        }
    }
}
