ghost use Rattle.std.specs.Prelude.{◌≡◌, find, IfOk};
ghost use Rattle.std.specs.Option.{option_copied};
ghost use Rattle.project_model.specs.Targets.{has_root, cargo_spec, spec_of, spec_in_package, spec_in_workspace, target_spec_for_file};

use crate::kinds::{TargetKind, WorkspaceKind};
use crate::package::{Package, Target};
use crate::workspace::ProjectWorkspace;
use docs_vfs::VfsPath;
use plain::{ExactClone, Items, NoMemory, Text, copy};

/// What is told of a target to the tool that builds it.
#[derive(Drop)]
pub enum TargetSpec {
    Cargo {
        workspace_root: VfsPath,
        cargo_toml: VfsPath,
        package_id: Text,
        target: Text,
        target_kind: TargetKind,
        required_features: Items<Text>,
        features: Items<Text>,
        sysroot_root: Option<VfsPath>,
    },
    ProjectJson {
        label: Text,
        target_kind: TargetKind,
        project_root: VfsPath,
    },
}

fn target_in<'a>(package: &'a Package, root: &VfsPath) -> Option<&'a Target>
    ensures { option_copied result ≡ find (has_root root.now) «package».now.targets }
{
    package.targets.iter().find(|target| target.root == *root)
}

fn cargo_spec(
    workspace: &ProjectWorkspace,
    package: &Package,
    target: &Target,
) -> Result<TargetSpec, NoMemory>
    ensures { IfOk result (λ spec. spec ≡ cargo_spec workspace.now «package».now target.now) }
{
    Ok(TargetSpec::Cargo {
        workspace_root: copy(&workspace.root)?,
        cargo_toml: copy(&package.manifest)?,
        package_id: copy(&package.id)?,
        target: copy(&target.name)?,
        target_kind: target.kind,
        required_features: copy(&target.required_features)?,
        features: copy(&package.features)?,
        sysroot_root: copy(&workspace.sysroot_root)?,
    })
}

fn spec_of(
    workspace: &ProjectWorkspace,
    package: &Package,
    target: &Target,
) -> Result<TargetSpec, NoMemory>
    ensures { IfOk result (λ spec. spec ≡ spec_of workspace.now «package».now target.now) }
{
    match workspace.kind {
        WorkspaceKind::Json => Ok(TargetSpec::ProjectJson {
            label: copy(&package.id)?,
            target_kind: target.kind,
            project_root: copy(&workspace.root)?,
        }),
        WorkspaceKind::Cargo => cargo_spec(workspace, package, target),
        WorkspaceKind::DetachedFile => cargo_spec(workspace, package, target),
    }
}

fn spec_in_package(
    workspace: &ProjectWorkspace,
    root: &VfsPath,
    package: &Package,
) -> Result<Option<TargetSpec>, NoMemory>
    ensures { IfOk result (λ spec. spec ≡ spec_in_package workspace.now root.now «package».now) }
{
    match target_in(package, root) {
        None => Ok(None),
        Some(target) => Ok(Some(spec_of(workspace, package, target)?)),
    }
}

fn spec_in_workspace(
    root: &VfsPath,
    workspace: &ProjectWorkspace,
) -> Result<Option<TargetSpec>, NoMemory>
    ensures { IfOk result (λ spec. spec ≡ spec_in_workspace root.now workspace.now) }
{
    for package in workspace.packages.as_slice() {
        if let Some(spec) = spec_in_package(workspace, root, package)? {
            return Ok(Some(spec));
        }
    }
    Ok(None)
}

/// What is told of the first target with this root, over the workspaces and their packages in order.
pub fn target_spec_for_file(
    workspaces: &[ProjectWorkspace],
    root: &VfsPath,
) -> Result<Option<TargetSpec>, NoMemory>
    ensures { IfOk result (λ spec. spec ≡ target_spec_for_file workspaces.now root.now) }
{
    for workspace in workspaces {
        if let Some(spec) = spec_in_workspace(root, workspace)? {
            return Ok(Some(spec));
        }
    }
    Ok(None)
}

impl Clone for TargetSpec {
    ghost is_clone = { λ spec copy. copy ≡ spec };

    fn clone(&self) -> Result<TargetSpec, NoMemory> {
        match self {
            TargetSpec::Cargo {
                workspace_root,
                cargo_toml,
                package_id,
                target,
                target_kind,
                required_features,
                features,
                sysroot_root,
            } => Ok(TargetSpec::Cargo {
                workspace_root: copy(workspace_root)?,
                cargo_toml: copy(cargo_toml)?,
                package_id: copy(package_id)?,
                target: copy(target)?,
                target_kind: *target_kind,
                required_features: copy(required_features)?,
                features: copy(features)?,
                sysroot_root: copy(sysroot_root)?,
            }),
            TargetSpec::ProjectJson {
                label,
                target_kind,
                project_root,
            } => Ok(TargetSpec::ProjectJson {
                label: copy(label)?,
                target_kind: *target_kind,
                project_root: copy(project_root)?,
            }),
        }
    }
}

impl ExactClone for TargetSpec {
    ghost copies = { λ x y h. h };
}
