//! The settings of a session: where each stands and is searched, and how they change.
#![tactic(auto)]

mod accessors;
mod capabilities;
mod config;
mod initialize;
mod projects;

pub use capabilities::{Capabilities, capabilities_of};
pub use config::{Applied, Config};
pub use initialize::{ConfigFault, initial_roots};
pub use layered_settings::{ConfigChange, SettingsFile, the_search_path_ends};
pub use plain::NoMemory;
pub use ra_settings::{
    CargoFeatures, ConfigError, ConfigErrors, DiscoverConfig, FilesWatcher, InvocationStrategy,
    LinkedProject, Row, SettingValue,
};
