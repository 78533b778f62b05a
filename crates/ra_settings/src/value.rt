ghost use Rattle.std.specs.Prelude.{◌≡◌};
ghost use Rattle.std.specs.Option.{option_copied};
ghost use Rattle.ra_settings.specs.declared.row.Kind.{Kind};
ghost use Rattle.ra_settings.specs.Values.{kind_of};

use docs_vfs::VfsPath;
use plain::{ExactClone, Items, Json, Text, copy};
use std::alloc::AllocError;

/// Who watches files.
#[derive(Clone, Copy, Debug, PartialEq, Eq, PartialOrd, Ord, Hash)]
pub enum FilesWatcher {
    Client,
    Server,
}

/// How a check is run: for each workspace, or once for all.
#[derive(Clone, Copy, Debug, PartialEq, Eq, PartialOrd, Ord, Hash)]
pub enum InvocationStrategy {
    PerWorkspace,
    Once,
}

/// Which features of packages are on.
#[derive(Drop)]
pub enum CargoFeatures {
    All,
    Selected(Items<Text>),
}

/// A project that the session works on.
#[derive(Drop)]
pub enum LinkedProject {
    /// The path of a manifest.
    ProjectManifest(VfsPath),
    /// A project that is given as data, and the files that it was found by.
    InlineProjectJson {
        project: Json,
        buildfiles: Items<Text>,
    },
}

/// How projects are discovered.
pub struct DiscoverConfig {
    pub command: Items<Text>,
    pub progress_label: Text,
    pub files_to_watch: Items<Text>,
}

impl Drop for DiscoverConfig {
    fn drop(self) {
        let DiscoverConfig {
            command: _,
            progress_label: _,
            files_to_watch: _,
        } = self;
    }
}

/// The value of a setting.
#[derive(Drop)]
pub enum SettingValue {
    Truth(bool),
    Text(Text),
    TextOrNull(Option<Text>),
    TextsOrNull(Option<Items<Text>>),
    Watcher(FilesWatcher),
    Strategy(InvocationStrategy),
    Paths(Items<VfsPath>),
    Projects(Items<LinkedProject>),
    Features(CargoFeatures),
    Env(Items<(Text, Option<Text>)>),
    Lists(Items<(Text, Items<Text>)>),
    Small(u8),
    Threads(Option<u32>),
    Discover(Option<DiscoverConfig>),
}

/// Why a value is refused.
#[derive(Clone, Copy, Debug, PartialEq, Eq, PartialOrd, Ord, Hash)]
pub enum Reason {
    WrongType,
    UnknownValue,
    NotToml,
}

/// What a value is read as.
#[derive(Drop)]
pub enum Reading {
    Value(SettingValue),
    Refused(Reason),
}

impl SettingValue {
    pub fn as_truth(&self) -> bool
        requires { kind_of self.now ≡ Kind.Truth }
        ensures { self.now ≡ SettingValue.Truth result }
    {
        match self {
            SettingValue::Truth(truth) => *truth,
            _ => unreachable!(),
        }
    }

    pub fn as_text(&self) -> &str
        requires { kind_of self.now ≡ Kind.Text }
        ensures { self.now ≡ SettingValue.Text result.now }
    {
        match self {
            SettingValue::Text(text) => text.as_str(),
            _ => unreachable!(),
        }
    }

    pub fn as_paths(&self) -> &[VfsPath]
        requires { kind_of self.now ≡ Kind.Paths }
        ensures { self.now ≡ SettingValue.Paths result.now }
    {
        match self {
            SettingValue::Paths(paths) => paths.as_slice(),
            _ => unreachable!(),
        }
    }

    pub fn as_text_or_null(&self) -> Option<&str>
        requires { kind_of self.now ≡ Kind.TextOrNull }
        ensures { self.now ≡ SettingValue.TextOrNull (option_copied result) }
    {
        match self {
            SettingValue::TextOrNull(Some(text)) => Some(text.as_str()),
            SettingValue::TextOrNull(None) => None,
            _ => unreachable!(),
        }
    }

    pub fn as_watcher(&self) -> FilesWatcher
        requires { kind_of self.now ≡ Kind.Watcher }
        ensures { self.now ≡ SettingValue.Watcher result }
    {
        match self {
            SettingValue::Watcher(watcher) => *watcher,
            _ => unreachable!(),
        }
    }

    pub fn as_env(&self) -> &[(Text, Option<Text>)]
        requires { kind_of self.now ≡ Kind.Env }
        ensures { self.now ≡ SettingValue.Env result.now }
    {
        match self {
            SettingValue::Env(env) => env.as_slice(),
            _ => unreachable!(),
        }
    }

    pub fn as_small(&self) -> u8
        requires { kind_of self.now ≡ Kind.Small }
        ensures { self.now ≡ SettingValue.Small result }
    {
        match self {
            SettingValue::Small(n) => *n,
            _ => unreachable!(),
        }
    }

    pub fn as_strategy(&self) -> InvocationStrategy
        requires { kind_of self.now ≡ Kind.Strategy }
        ensures { self.now ≡ SettingValue.Strategy result }
    {
        match self {
            SettingValue::Strategy(strategy) => *strategy,
            _ => unreachable!(),
        }
    }

    pub fn as_projects(&self) -> &[LinkedProject]
        requires { kind_of self.now ≡ Kind.Projects }
        ensures { self.now ≡ SettingValue.Projects result.now }
    {
        match self {
            SettingValue::Projects(projects) => projects.as_slice(),
            _ => unreachable!(),
        }
    }

    pub fn as_features(&self) -> &CargoFeatures
        requires { kind_of self.now ≡ Kind.Features }
        ensures { self.now ≡ SettingValue.Features result.now }
    {
        match self {
            SettingValue::Features(features) => features,
            _ => unreachable!(),
        }
    }

    pub fn as_lists(&self) -> &[(Text, Items<Text>)]
        requires { kind_of self.now ≡ Kind.Lists }
        ensures { self.now ≡ SettingValue.Lists result.now }
    {
        match self {
            SettingValue::Lists(lists) => lists.as_slice(),
            _ => unreachable!(),
        }
    }

    pub fn as_threads(&self) -> Option<u32>
        requires { kind_of self.now ≡ Kind.Threads }
        ensures { self.now ≡ SettingValue.Threads result }
    {
        match self {
            SettingValue::Threads(threads) => *threads,
            _ => unreachable!(),
        }
    }

    pub fn as_texts_or_null(&self) -> Option<&[Text]>
        requires { kind_of self.now ≡ Kind.TextsOrNull }
        ensures { self.now ≡ SettingValue.TextsOrNull (option_copied result) }
    {
        match self {
            SettingValue::TextsOrNull(Some(texts)) => Some(texts.as_slice()),
            SettingValue::TextsOrNull(None) => None,
            _ => unreachable!(),
        }
    }

    pub fn as_discover(&self) -> Option<&DiscoverConfig>
        requires { kind_of self.now ≡ Kind.Discover }
        ensures { self.now ≡ SettingValue.Discover (option_copied result) }
    {
        match self {
            SettingValue::Discover(Some(discover)) => Some(discover),
            SettingValue::Discover(None) => None,
            _ => unreachable!(),
        }
    }
}

impl Clone for CargoFeatures {
    ghost is_clone = { λ features copy. copy ≡ features };

    fn clone(&self) -> Result<CargoFeatures, AllocError> {
        match self {
            CargoFeatures::All => Ok(CargoFeatures::All),
            CargoFeatures::Selected(texts) => Ok(CargoFeatures::Selected(texts.clone()?)),
        }
    }
}

impl Clone for LinkedProject {
    ghost is_clone = { λ project copy. copy ≡ project };

    fn clone(&self) -> Result<LinkedProject, AllocError> {
        match self {
            LinkedProject::ProjectManifest(path) => {
                Ok(LinkedProject::ProjectManifest(path.clone()?))
            }
            LinkedProject::InlineProjectJson {
                project,
                buildfiles,
            } => Ok(LinkedProject::InlineProjectJson {
                project: project.clone()?,
                buildfiles: buildfiles.clone()?,
            }),
        }
    }
}

impl ExactClone for LinkedProject {
    ghost copies = { λ x y h. h };
}

impl Clone for DiscoverConfig {
    ghost is_clone = { λ config copy. copy ≡ config };

    fn clone(&self) -> Result<DiscoverConfig, AllocError> {
        Ok(DiscoverConfig {
            command: self.command.clone()?,
            progress_label: self.progress_label.clone()?,
            files_to_watch: self.files_to_watch.clone()?,
        })
    }
}

impl ExactClone for DiscoverConfig {
    ghost copies = { λ x y h. h };
}

impl Clone for SettingValue {
    ghost is_clone = { λ value copy. copy ≡ value };

    fn clone(&self) -> Result<SettingValue, AllocError> {
        Ok(match self {
            SettingValue::Truth(truth) => SettingValue::Truth(*truth),
            SettingValue::Text(text) => SettingValue::Text(text.clone()?),
            SettingValue::TextOrNull(text) => SettingValue::TextOrNull(copy(text)?),
            SettingValue::TextsOrNull(texts) => SettingValue::TextsOrNull(copy(texts)?),
            SettingValue::Watcher(watcher) => SettingValue::Watcher(*watcher),
            SettingValue::Strategy(strategy) => SettingValue::Strategy(*strategy),
            SettingValue::Paths(paths) => SettingValue::Paths(paths.clone()?),
            SettingValue::Projects(projects) => SettingValue::Projects(projects.clone()?),
            SettingValue::Features(features) => SettingValue::Features(features.clone()?),
            SettingValue::Env(env) => SettingValue::Env(env.clone()?),
            SettingValue::Lists(lists) => SettingValue::Lists(lists.clone()?),
            SettingValue::Small(n) => SettingValue::Small(*n),
            SettingValue::Threads(threads) => SettingValue::Threads(*threads),
            SettingValue::Discover(config) => SettingValue::Discover(copy(config)?),
        })
    }
}

impl ExactClone for SettingValue {
    ghost copies = { λ x y h. h };
}
