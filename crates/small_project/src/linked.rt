// The workspace that a project gives.
ghost use Rattle.std.specs.Prelude.{◌≡◌, IfOk, codes};
ghost use Rattle.small_project.specs.Workspaces.{folder_of_manifest, manifest_of, root_of, workspace_at, workspace_of};

use docs_vfs::{Root, VfsPath};
use plain::{Items, NoMemory};
use project_model::{ProjectWorkspace, WorkspaceKind};
use ra_settings::LinkedProject;
use std::alloc::Global;

fn folder_of_manifest(alloc: Global, manifest: &VfsPath) -> Result<VfsPath, NoMemory>
    ensures { IfOk result (λ folder. folder ≡ folder_of_manifest manifest.now) }
{
    match manifest.parent(alloc)? {
        Some(folder) => Ok(folder),
        None => manifest.clone(),
    }
}

fn inline_folder(alloc: Global) -> Result<VfsPath, NoMemory>
    ensures { IfOk result (λ folder. folder ≡ codes "/w") }
{
    VfsPath::root(alloc)?.join("w")
}

fn root_of(alloc: Global, folder: &VfsPath) -> Result<Root, NoMemory>
    ensures { IfOk result (λ root. root ≡ root_of folder.now) }
{
    let mut include = Items::new(alloc);
    include.push(folder.clone()?)?;
    Ok(Root {
        include,
        exclude: Items::new(alloc),
        is_local: true,
    })
}

fn workspace_at(
    alloc: Global,
    manifest: Option<VfsPath>,
    folder: VfsPath,
) -> Result<ProjectWorkspace, NoMemory>
    ensures { IfOk result (λ workspace. workspace ≡ workspace_at manifest folder) }
{
    let mut roots = Items::new(alloc);
    roots.push(root_of(alloc, &folder)?)?;
    Ok(ProjectWorkspace {
        kind: WorkspaceKind::Json,
        manifest,
        root: folder,
        roots,
        packages: Items::new(alloc),
        crates: Items::new(alloc),
        build_files: Items::new(alloc),
        toolchain: None,
        error: None,
        sysroot_root: None,
        sysroot_error: None,
        sysroot_metadata_error: None,
        rustc_error: None,
        build: None,
    })
}

/// The manifest of a project. An inline one has none.
pub(crate) fn manifest_of(project: &LinkedProject) -> Result<Option<VfsPath>, NoMemory>
    ensures { IfOk result (λ manifest. manifest ≡ manifest_of project.now) }
{
    match project {
        LinkedProject::ProjectManifest(manifest) => Ok(Some(manifest.clone()?)),
        LinkedProject::InlineProjectJson { .. } => Ok(None),
    }
}

/// The workspace that a project gives.
pub(crate) fn workspace_of(
    alloc: Global,
    project: &LinkedProject,
) -> Result<ProjectWorkspace, NoMemory>
    ensures { IfOk result (λ workspace. workspace ≡ workspace_of project.now) }
{
    match project {
        LinkedProject::ProjectManifest(manifest) => workspace_at(
            alloc,
            Some(manifest.clone()?),
            folder_of_manifest(alloc, manifest)?,
        ),
        LinkedProject::InlineProjectJson { .. } => {
            workspace_at(alloc, None, inline_folder(alloc)?)
        }
    }
}
