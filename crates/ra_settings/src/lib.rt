//! The table of settings: its rows, what a value of a row may be, and how one source's values and errors
//! are read from JSON or TOML.
#![tactic(auto)]

mod default_value;
mod defaults;
mod error;
mod find;
mod floats;
mod from_toml;
mod laws;
mod layer;
mod path_text;
mod read;
mod row;
mod same;
mod value;

pub use default_value::DefaultValue;
pub use defaults::Defaults;
pub use error::{ConfigError, ConfigErrors};
pub use find::find_at;
pub use from_toml::toml_tree;
pub use laws::{a_layer_is_read_by_row, empty_segments_are_refused};
pub use layer::{Layer, ReadLayer, Source};
pub use plain::NoMemory;
pub use read::read_value;
pub use row::{Facts, Kind, ROWS, Row, Scope};
pub use value::{
    CargoFeatures, DiscoverConfig, FilesWatcher, InvocationStrategy, LinkedProject, Reading,
    Reason, SettingValue,
};
