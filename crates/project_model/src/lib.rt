//! What a session knows of its project: workspaces with their packages, targets and crates, what their builds
//! made, what a check of them is run on, the crate graph that an analysis works on, and warnings of workspaces whose
//! compiler is outdated.
#![tactic(auto)]

mod build;
mod check_scope;
mod crates;
mod dependencies;
mod kinds;
mod msrv;
mod package;
mod same;
mod target_spec;
mod workspace;

pub use build::{BuildScripts, MacroPath};
pub use check_scope::{CheckScope, Restart};
pub use crates::{CrateData, CrateEntry, CrateInfo, MacroState};
pub use dependencies::all_workspace_dependencies_for_package;
pub use kinds::{TargetKind, WorkspaceKind};
pub use msrv::check_workspaces_msrv;
pub use package::{Package, PackageSpecifier, Target};
pub use plain::NoMemory;
pub use target_spec::{TargetSpec, target_spec_for_file};
pub use workspace::ProjectWorkspace;
