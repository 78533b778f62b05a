//! What is set by each source of settings, where the value of a row is searched, and what a change of settings leaves.
#![tactic(auto)]

mod change;
mod path_laws;
mod settings;
mod shared_layer;

pub use change::{ChangedSettings, ConfigChange, SettingsFile};
pub use path_laws::the_search_path_ends;
pub use plain::NoMemory;
pub use settings::Settings;
