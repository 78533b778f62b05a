// What is answered for projects.
ghost use Rattle.std.specs.Prelude.{◌≡◌, [], IfOk};
ghost use Rattle.small_project.specs.Workspaces.{workspaces_of};
ghost use Rattle.small_project.specs.Builds.{scripts_of};

use crate::linked::{manifest_of, workspace_of};
use plain::{ByText, Items, NoMemory};
use project_model::{BuildScripts, MacroState, ProjectWorkspace};
use ra_settings::LinkedProject;
use std::alloc::Global;

/// The workspaces of the projects, in order: one for each manifest or inline project, with its folder as its one local
/// root. Of workspaces that are equal but for what their builds made the first stays: they have one manifest, or none.
pub fn workspaces_of(
    alloc: Global,
    projects: &[LinkedProject],
) -> Result<Items<ProjectWorkspace>, NoMemory>
    ensures { IfOk result (λ workspaces. workspaces ≡ workspaces_of projects.now) }
{
    let mut workspaces = Items::new(alloc);
    let mut manifests = ByText::new(alloc);
    for project in projects {
        let earlier = manifests.insert(manifest_of(project)?, ())?;
        if earlier.is_none() {
            workspaces.push(workspace_of(alloc, project)?)?;
        }
    }
    Ok(workspaces)
}

/// What the build scripts of so many workspaces made: nothing, without an error.
pub fn scripts_of(alloc: Global, workspaces: usize) -> Result<Items<BuildScripts>, NoMemory>
    ensures { IfOk result (λ scripts. scripts ≡ scripts_of workspaces) }
{
    let mut scripts = Items::new(alloc);
    for _ in 0..workspaces {
        scripts.push(BuildScripts {
            error: None,
            macro_paths: Items::new(alloc),
        })?;
    }
    Ok(scripts)
}

/// What became of macros: nothing is told of any crate.
pub fn macros_of(alloc: Global) -> Items<(u32, MacroState)>
    ensures { result ≡ [] }
{
    Items::new(alloc)
}
