//! What a session has to do because files or settings changed: what follows from changes of files, the change of settings
//! that changed settings files come to, and what a change of settings asks for: fetches of workspaces, and checks that are
//! set anew.
#![tactic(auto)]

mod cause;
mod changes;
mod compare;
mod effects;
mod filing;
mod laws;
mod projects;
mod settings_laws;
mod update;
mod update_laws;

pub use cause::FetchCause;
pub use compare::update_of;
pub use effects::{ChangeEffects, SettingsFile, effects_of};
pub use filing::settings_change;
pub use laws::{
    forced_fetches_check_no_sources, forced_fetches_have_a_cause, modified_files_renew_no_roots,
    nothing_follows_where_nothing_changed, renewed_roots_ask_for_a_fetch,
    settings_are_those_of_the_table,
};
pub use plain::NoMemory;
pub use settings_laws::values_at_no_root_stay;
pub use update::ConfigUpdate;
pub use update_laws::changes_ask_for_what_they_change;
