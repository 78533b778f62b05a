use plain::{Items, Text};
use project_model::ProjectWorkspace;

/// What a switch does.
#[derive(Drop)]
pub enum Switch {
    /// Nothing.
    End,
    /// Crate data is built anew.
    CrateData,
    /// The workspaces get what their builds made, and a new version; all that follows is done.
    Join {
        workspaces: Items<ProjectWorkspace>,
    },
    /// The workspaces are replaced, and get a new version.
    Replace {
        workspaces: Items<ProjectWorkspace>,
        /// The warnings of outdated toolchains that are shown.
        msrv: Items<Text>,
        /// Whether build data is asked for.
        ask_build: bool,
        /// Whether all that follows is done now.
        go_on: bool,
    },
}
