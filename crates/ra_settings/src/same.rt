//! Whether two layers set the same values.
ghost use Rattle.std.specs.Prelude.{◌≡◌, ◌↔◌, IsTrue};

use crate::layer::Layer;
use crate::value::{CargoFeatures, DiscoverConfig, LinkedProject, SettingValue};
use plain::{Items, Text, is_same};

impl SettingValue {
    /// Whether the values are equal.
    pub fn is_same(&self, other: &SettingValue) -> bool
        ensures { IsTrue result ↔ (self.now ≡ other.now) }
    {
        match self {
            SettingValue::Truth(a) => match other {
                SettingValue::Truth(b) => *a == *b,
                _ => false,
            },
            SettingValue::Text(a) => match other {
                SettingValue::Text(b) => is_same(a, b),
                _ => false,
            },
            SettingValue::TextOrNull(a) => match other {
                SettingValue::TextOrNull(b) => same_text(a, b),
                _ => false,
            },
            SettingValue::TextsOrNull(a) => match other {
                SettingValue::TextsOrNull(b) => same_texts(a, b),
                _ => false,
            },
            SettingValue::Watcher(a) => match other {
                SettingValue::Watcher(b) => *a == *b,
                _ => false,
            },
            SettingValue::Strategy(a) => match other {
                SettingValue::Strategy(b) => *a == *b,
                _ => false,
            },
            SettingValue::Paths(a) => match other {
                SettingValue::Paths(b) => a.is_same(b),
                _ => false,
            },
            SettingValue::Projects(a) => match other {
                SettingValue::Projects(b) => same_projects(a.as_slice(), b.as_slice()),
                _ => false,
            },
            SettingValue::Features(a) => match other {
                SettingValue::Features(b) => same_features(a, b),
                _ => false,
            },
            SettingValue::Env(a) => match other {
                SettingValue::Env(b) => a.is_same(b),
                _ => false,
            },
            SettingValue::Lists(a) => match other {
                SettingValue::Lists(b) => a.is_same(b),
                _ => false,
            },
            SettingValue::Small(a) => match other {
                SettingValue::Small(b) => *a == *b,
                _ => false,
            },
            SettingValue::Threads(a) => match other {
                SettingValue::Threads(b) => same_threads(a, b),
                _ => false,
            },
            SettingValue::Discover(a) => match other {
                SettingValue::Discover(b) => same_discover(a, b),
                _ => false,
            },
        }
    }
}

fn same_text(a: &Option<Text>, b: &Option<Text>) -> bool
    ensures { IsTrue result ↔ (a.now ≡ b.now) }
{
    is_same(a, b)
}

fn same_texts(a: &Option<Items<Text>>, b: &Option<Items<Text>>) -> bool
    ensures { IsTrue result ↔ (a.now ≡ b.now) }
{
    is_same(a, b)
}

fn same_threads(a: &Option<u32>, b: &Option<u32>) -> bool
    ensures { IsTrue result ↔ (a.now ≡ b.now) }
{
    is_same(a, b)
}

fn same_features(a: &CargoFeatures, b: &CargoFeatures) -> bool
    ensures { IsTrue result ↔ (a.now ≡ b.now) }
{
    match a {
        CargoFeatures::All => match b {
            CargoFeatures::All => true,
            _ => false,
        },
        CargoFeatures::Selected(x) => match b {
            CargoFeatures::Selected(y) => x.is_same(y),
            _ => false,
        },
    }
}

fn same_discover(a: &Option<DiscoverConfig>, b: &Option<DiscoverConfig>) -> bool
    ensures { IsTrue result ↔ (a.now ≡ b.now) }
{
    match a {
        Some(x) => match b {
            Some(y) => same_discover_config(x, y),
            None => false,
        },
        None => b.is_none(),
    }
}

fn same_discover_config(a: &DiscoverConfig, b: &DiscoverConfig) -> bool
    ensures { IsTrue result ↔ (a.now ≡ b.now) }
{
    a.command.is_same(&b.command)
        && is_same(&a.progress_label, &b.progress_label)
        && a.files_to_watch.is_same(&b.files_to_watch)
}

fn same_project(a: &LinkedProject, b: &LinkedProject) -> bool
    ensures { IsTrue result ↔ (a.now ≡ b.now) }
{
    match a {
        LinkedProject::ProjectManifest(x) => match b {
            LinkedProject::ProjectManifest(y) => is_same(x, y),
            _ => false,
        },
        LinkedProject::InlineProjectJson {
            project,
            buildfiles,
        } => match b {
            LinkedProject::InlineProjectJson {
                project: other,
                buildfiles: others,
            } => project.is_same(other) && buildfiles.is_same(others),
            _ => false,
        },
    }
}

fn same_projects(a: &[LinkedProject], b: &[LinkedProject]) -> bool
    ensures { IsTrue result ↔ (a.now ≡ b.now) }
{
    if a.len() != b.len() {
        return false;
    }
    for (x, y) in a.iter().zip(b) {
        if !same_project(x, y) {
            return false;
        }
    }
    true
}

fn same_value(a: &Option<SettingValue>, b: &Option<SettingValue>) -> bool
    ensures { IsTrue result ↔ (a.now ≡ b.now) }
{
    match a {
        Some(x) => match b {
            Some(y) => x.is_same(y),
            None => false,
        },
        None => b.is_none(),
    }
}

fn same_values(a: &[Option<SettingValue>], b: &[Option<SettingValue>]) -> bool
    ensures { IsTrue result ↔ (a.now ≡ b.now) }
{
    match a {
        [] => b.is_empty(),
        [x, xs @ ..] => match b {
            [] => false,
            [y, ys @ ..] => {
                if same_value(x, y) {
                    same_values(xs, ys)
                } else {
                    false
                }
            }
        },
    }
}

impl Layer {
    /// Whether the layers set the same values.
    pub fn is_same(&self, other: &Layer) -> bool
        ensures { IsTrue result ↔ (self.now ≡ other.now) }
    {
        same_values(self.as_slice(), other.as_slice())
    }
}
