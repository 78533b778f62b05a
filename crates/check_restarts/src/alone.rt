//! The package of a saved file that is checked alone.
ghost use Rattle.std.specs.Prelude.{◌≡◌, position, bytes_eq, Some, None, is_some, if◌then◌else◌, IfOk};
ghost use Rattle.check_restarts.specs.Restarts.{first_target, is_named, named_target, root_of, specifier_of, is_project_json, is_alone, place_alone, package_scope};

use docs_vfs::VfsPath;
use plain::{NoMemory, Text, copy};
use project_model::{
    CheckScope, PackageSpecifier, ProjectWorkspace, TargetKind, TargetSpec,
    all_workspace_dependencies_for_package, target_spec_for_file,
};
use std::alloc::Global;

/// The target that the first root is the root of.
pub(crate) fn first_target(
    workspaces: &[ProjectWorkspace],
    roots: &[VfsPath],
) -> Result<Option<TargetSpec>, NoMemory>
    ensures { IfOk result (λ target. target ≡ first_target workspaces.now roots.now) }
{
    match roots.split_first() {
        None => Ok(None),
        Some((root, _rest)) => target_spec_for_file(workspaces, root),
    }
}

fn is_named(kind: TargetKind) -> bool
    ensures { result ≡ is_named kind }
{
    match kind {
        TargetKind::Bin => true,
        TargetKind::Example => true,
        TargetKind::Test => true,
        TargetKind::Bench => true,
        TargetKind::Lib => false,
        TargetKind::BuildScript => false,
        TargetKind::Other => false,
    }
}

fn has_named_target(target: &TargetSpec) -> bool
    ensures { result ≡ is_some (named_target target.now) }
{
    match target {
        TargetSpec::Cargo { target_kind, .. } => is_named(*target_kind),
        TargetSpec::ProjectJson { .. } => false,
    }
}

fn named_if(kind: TargetKind, name: &Text) -> Result<Option<(TargetKind, Text)>, NoMemory>
    ensures { IfOk result (λ named. named ≡ (if is_named kind then Some (kind, name.now) else None)) }
{
    if is_named(kind) {
        Ok(Some((kind, copy(name)?)))
    } else {
        Ok(None)
    }
}

fn named_target(spec: &TargetSpec) -> Result<Option<(TargetKind, Text)>, NoMemory>
    ensures { IfOk result (λ named. named ≡ named_target spec.now) }
{
    match spec {
        TargetSpec::Cargo {
            target,
            target_kind,
            ..
        } => named_if(*target_kind, target),
        TargetSpec::ProjectJson { .. } => Ok(None),
    }
}

fn root_of(target: &TargetSpec) -> &VfsPath
    ensures { result.now ≡ root_of target.now }
{
    match target {
        TargetSpec::Cargo { workspace_root, .. } => workspace_root,
        TargetSpec::ProjectJson { project_root, .. } => project_root,
    }
}

fn specifier_of(target: &TargetSpec) -> Result<PackageSpecifier, NoMemory>
    ensures { IfOk result (λ specifier. specifier ≡ specifier_of target.now) }
{
    match target {
        TargetSpec::Cargo { package_id, .. } => Ok(PackageSpecifier::Cargo {
            package_id: copy(package_id)?,
        }),
        TargetSpec::ProjectJson { label, .. } => Ok(PackageSpecifier::BuildInfo {
            label: copy(label)?,
        }),
    }
}

fn is_project_json(target: &TargetSpec) -> bool
    ensures { result ≡ is_project_json target.now }
{
    match target {
        TargetSpec::Cargo { .. } => false,
        TargetSpec::ProjectJson { .. } => true,
    }
}

fn is_alone(check_workspace: bool, target: &TargetSpec) -> bool
    ensures { result ≡ is_alone check_workspace target.now }
{
    has_named_target(target) || !check_workspace || is_project_json(target)
}

fn place_with_root(workspaces: &[ProjectWorkspace], root: &VfsPath) -> Option<usize>
    ensures { result ≡ position (λ workspace. bytes_eq workspace.root root.now) workspaces.now }
{
    workspaces
        .iter()
        .position(|workspace| workspace.root == *root)
}

/// The place of the first workspace with the target's root, where its package is checked alone.
pub(crate) fn place_alone(
    check_workspace: bool,
    workspaces: &[ProjectWorkspace],
    target: &TargetSpec,
) -> Option<usize>
    ensures { result ≡ place_alone check_workspace workspaces.now target.now }
{
    if is_alone(check_workspace, target) {
        place_with_root(workspaces, root_of(target))
    } else {
        None
    }
}

/// What the check of a package is run on.
pub(crate) fn package_scope(
    alloc: Global,
    workspaces: &[ProjectWorkspace],
    saved: &VfsPath,
    target: &TargetSpec,
) -> Result<CheckScope, NoMemory>
    ensures { IfOk result (λ scope. scope ≡ package_scope workspaces.now saved.now target.now) }
{
    let specifier = specifier_of(target)?;
    let deps = all_workspace_dependencies_for_package(alloc, workspaces, &specifier)?;
    Ok(CheckScope::Package {
        package: specifier,
        target: named_target(target)?,
        deps,
        saved: Some(copy(saved)?),
    })
}
