// One accessor for each row.
ghost use Rattle.std.specs.Prelude.{◌≡◌, None};
ghost use Rattle.std.specs.Option.{option_copied};
ghost use Rattle.ra_settings.specs.declared.row.Row.{Row};
ghost use Rattle.ra_settings.specs.declared.value.SettingValue.{SettingValue};
ghost use Rattle.layered_settings.specs.Search.{setting};
ghost use Rattle.ra_config.specs.Config.{thread_count_of};

use crate::config::Config;
use docs_vfs::VfsPath;
use plain::{Items, Text};
use ra_settings::{
    CargoFeatures, DiscoverConfig, FilesWatcher, InvocationStrategy, LinkedProject, Row,
};

#[tactic(auto, unfolding(ra_settings::specs::Facts::facts_of))]
impl Config {
    /// The projects that the settings name. An object of them has no buildfiles.
    pub fn linked_projects(&self) -> &[LinkedProject]
        ensures { setting Row.LinkedProjects None self.now.settings ≡ SettingValue.Projects result.now }
    {
        self.settings().get(Row::LinkedProjects, None).as_projects()
    }

    pub fn detached_files(&self) -> &[VfsPath]
        ensures { setting Row.DetachedFiles None self.now.settings ≡ SettingValue.Paths result.now }
    {
        self.settings().get(Row::DetachedFiles, None).as_paths()
    }

    pub fn files_exclude(&self) -> &[VfsPath]
        ensures { setting Row.FilesExclude None self.now.settings ≡ SettingValue.Paths result.now }
    {
        self.settings().get(Row::FilesExclude, None).as_paths()
    }

    pub fn files_watcher(&self) -> FilesWatcher
        ensures { setting Row.FilesWatcher None self.now.settings ≡ SettingValue.Watcher result }
    {
        self.settings().get(Row::FilesWatcher, None).as_watcher()
    }

    pub fn cargo_autoreload(&self) -> bool
        ensures { setting Row.CargoAutoreload None self.now.settings ≡ SettingValue.Truth result }
    {
        self.settings().get(Row::CargoAutoreload, None).as_truth()
    }

    pub fn cargo_build_scripts_enable(&self, root: Option<u32>) -> bool
        ensures { setting Row.CargoBuildScriptsEnable root self.now.settings ≡ SettingValue.Truth result }
    {
        self.settings()
            .get(Row::CargoBuildScriptsEnable, root)
            .as_truth()
    }

    pub fn cargo_build_scripts_rebuild_on_save(&self, root: Option<u32>) -> bool
        ensures { setting Row.CargoBuildScriptsRebuildOnSave root self.now.settings ≡ SettingValue.Truth result }
    {
        self.settings()
            .get(Row::CargoBuildScriptsRebuildOnSave, root)
            .as_truth()
    }

    /// In the order of the keys; None takes a variable away.
    pub fn cargo_extra_env(&self, root: Option<u32>) -> &[(Text, Option<Text>)]
        ensures { setting Row.CargoExtraEnv root self.now.settings ≡ SettingValue.Env result.now }
    {
        self.settings().get(Row::CargoExtraEnv, root).as_env()
    }

    pub fn cargo_features(&self, root: Option<u32>) -> &CargoFeatures
        ensures { setting Row.CargoFeatures root self.now.settings ≡ SettingValue.Features result.now }
    {
        self.settings().get(Row::CargoFeatures, root).as_features()
    }

    pub fn cargo_all_targets(&self, root: Option<u32>) -> bool
        ensures { setting Row.CargoAllTargets root self.now.settings ≡ SettingValue.Truth result }
    {
        self.settings().get(Row::CargoAllTargets, root).as_truth()
    }

    pub fn cargo_target(&self, root: Option<u32>) -> Option<&str>
        ensures { setting Row.CargoTarget root self.now.settings ≡ SettingValue.TextOrNull (option_copied result) }
    {
        self.settings()
            .get(Row::CargoTarget, root)
            .as_text_or_null()
    }

    pub fn cfg_set_test(&self, root: Option<u32>) -> bool
        ensures { setting Row.CfgSetTest root self.now.settings ≡ SettingValue.Truth result }
    {
        self.settings().get(Row::CfgSetTest, root).as_truth()
    }

    pub fn check_on_save(&self, root: Option<u32>) -> bool
        ensures { setting Row.CheckOnSave root self.now.settings ≡ SettingValue.Truth result }
    {
        self.settings().get(Row::CheckOnSave, root).as_truth()
    }

    pub fn check_command(&self, root: Option<u32>) -> &str
        ensures { setting Row.CheckCommand root self.now.settings ≡ SettingValue.Text result.now }
    {
        self.settings().get(Row::CheckCommand, root).as_text()
    }

    pub fn check_workspace(&self, root: Option<u32>) -> bool
        ensures { setting Row.CheckWorkspace root self.now.settings ≡ SettingValue.Truth result }
    {
        self.settings().get(Row::CheckWorkspace, root).as_truth()
    }

    pub fn check_invocation_strategy(&self, root: Option<u32>) -> InvocationStrategy
        ensures { setting Row.CheckInvocationStrategy root self.now.settings ≡ SettingValue.Strategy result }
    {
        self.settings()
            .get(Row::CheckInvocationStrategy, root)
            .as_strategy()
    }

    pub fn check_override_command(&self, root: Option<u32>) -> Option<&[Text]>
        ensures { setting Row.CheckOverrideCommand root self.now.settings ≡ SettingValue.TextsOrNull (option_copied result) }
    {
        self.settings()
            .get(Row::CheckOverrideCommand, root)
            .as_texts_or_null()
    }

    pub fn cache_priming_enable(&self) -> bool
        ensures { setting Row.CachePrimingEnable None self.now.settings ≡ SettingValue.Truth result }
    {
        self.settings()
            .get(Row::CachePrimingEnable, None)
            .as_truth()
    }

    /// How many threads prime caches; 0 leaves it to the session.
    pub fn cache_priming_num_threads(&self) -> u8
        ensures { setting Row.CachePrimingNumThreads None self.now.settings ≡ SettingValue.Small result }
    {
        self.settings()
            .get(Row::CachePrimingNumThreads, None)
            .as_small()
    }

    pub fn diagnostics_enable(&self, root: Option<u32>) -> bool
        ensures { setting Row.DiagnosticsEnable root self.now.settings ≡ SettingValue.Truth result }
    {
        self.settings().get(Row::DiagnosticsEnable, root).as_truth()
    }

    pub fn proc_macro_enable(&self) -> bool
        ensures { setting Row.ProcMacroEnable None self.now.settings ≡ SettingValue.Truth result }
    {
        self.settings().get(Row::ProcMacroEnable, None).as_truth()
    }

    pub fn proc_macro_attributes_enable(&self) -> bool
        ensures { setting Row.ProcMacroAttributesEnable None self.now.settings ≡ SettingValue.Truth result }
    {
        self.settings()
            .get(Row::ProcMacroAttributesEnable, None)
            .as_truth()
    }

    /// The names of the macros that are ignored, by package, in the order of the packages.
    pub fn proc_macro_ignored(&self, root: Option<u32>) -> &[(Text, Items<Text>)]
        ensures { setting Row.ProcMacroIgnored root self.now.settings ≡ SettingValue.Lists result.now }
    {
        self.settings().get(Row::ProcMacroIgnored, root).as_lists()
    }

    pub fn workspace_discover_config(&self) -> Option<&DiscoverConfig>
        ensures { setting Row.WorkspaceDiscoverConfig None self.now.settings ≡ SettingValue.Discover (option_copied result) }
    {
        self.settings()
            .get(Row::WorkspaceDiscoverConfig, None)
            .as_discover()
    }

    /// How many threads may work: what the settings say, else the number that was handed in.
    pub fn num_threads(&self) -> u32
        ensures { result ≡ thread_count_of (setting Row.NumThreads None self.now.settings) self.now.threads }
    {
        self.settings()
            .get(Row::NumThreads, None)
            .as_threads()
            .unwrap_or(self.threads())
    }
}
