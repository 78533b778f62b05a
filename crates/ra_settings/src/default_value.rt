ghost use Rattle.std.specs.Prelude.{◌≡◌, IfOk};
ghost use Rattle.ra_settings.specs.Values.{kind_of, default_of};

use crate::row::Kind;
use crate::value::{CargoFeatures, FilesWatcher, InvocationStrategy, SettingValue};
use plain::{Items, Text};
use std::alloc::{AllocError, Global};

/// What a row's value is where nothing sets it, as the table has it.
#[derive(Clone, Copy)]
pub enum DefaultValue {
    Truth(bool),
    Text(&'static str),
    NoText,
    NoTexts,
    Watcher(FilesWatcher),
    Strategy(InvocationStrategy),
    NoPaths,
    NoProjects,
    NoFeatures,
    NoVariables,
    NoLists,
    Small(u8),
    NoThreads,
    NoDiscover,
}

impl DefaultValue {
    /// The kind of the row that has it.
    pub fn kind(self) -> Kind
        ensures { result ≡ kind_of (default_of self) }
    {
        match self {
            DefaultValue::Truth(_) => Kind::Truth,
            DefaultValue::Text(_) => Kind::Text,
            DefaultValue::NoText => Kind::TextOrNull,
            DefaultValue::NoTexts => Kind::TextsOrNull,
            DefaultValue::Watcher(_) => Kind::Watcher,
            DefaultValue::Strategy(_) => Kind::Strategy,
            DefaultValue::NoPaths => Kind::Paths,
            DefaultValue::NoProjects => Kind::Projects,
            DefaultValue::NoFeatures => Kind::Features,
            DefaultValue::NoVariables => Kind::Env,
            DefaultValue::NoLists => Kind::Lists,
            DefaultValue::Small(_) => Kind::Small,
            DefaultValue::NoThreads => Kind::Threads,
            DefaultValue::NoDiscover => Kind::Discover,
        }
    }

    /// The value of a setting.
    pub fn value(self, alloc: Global) -> Result<SettingValue, AllocError>
        ensures { IfOk result (λ value. value ≡ default_of self) }
    {
        Ok(match self {
            DefaultValue::Truth(truth) => SettingValue::Truth(truth),
            DefaultValue::Text(text) => SettingValue::Text(Text::from_str(alloc, text)?),
            DefaultValue::NoText => SettingValue::TextOrNull(None),
            DefaultValue::NoTexts => SettingValue::TextsOrNull(None),
            DefaultValue::Watcher(watcher) => SettingValue::Watcher(watcher),
            DefaultValue::Strategy(strategy) => SettingValue::Strategy(strategy),
            DefaultValue::NoPaths => SettingValue::Paths(Items::new(alloc)),
            DefaultValue::NoProjects => SettingValue::Projects(Items::new(alloc)),
            DefaultValue::NoFeatures => {
                SettingValue::Features(CargoFeatures::Selected(Items::new(alloc)))
            }
            DefaultValue::NoVariables => SettingValue::Env(Items::new(alloc)),
            DefaultValue::NoLists => SettingValue::Lists(Items::new(alloc)),
            DefaultValue::Small(n) => SettingValue::Small(n),
            DefaultValue::NoThreads => SettingValue::Threads(None),
            DefaultValue::NoDiscover => SettingValue::Discover(None),
        })
    }
}
