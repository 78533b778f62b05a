ghost use Rattle.std.specs.Prelude.{◌≡◌, find, map, option_map, IfOk};
ghost use Rattle.std.specs.Option.{option_copied};
ghost use Rattle.project_model.specs.Dependencies.{id_of, specifier_like, may_name, has_id, deps_in, all_deps};
ghost use Rattle.project_model.specs.Targets.{first_given};

use crate::kinds::WorkspaceKind;
use crate::package::{Package, PackageSpecifier};
use crate::workspace::ProjectWorkspace;
use plain::{Items, NoMemory, Text};
use std::alloc::Global;

impl PackageSpecifier {
    /// The id or the label.
    pub fn id(&self) -> &Text
        ensures { result.now ≡ id_of self.now }
    {
        match self {
            PackageSpecifier::Cargo { package_id } => package_id,
            PackageSpecifier::BuildInfo { label } => label,
        }
    }

    /// A specifier of the same variant.
    fn with_id(&self, id: &Text) -> Result<PackageSpecifier, NoMemory>
        ensures { IfOk result (λ specifier. specifier ≡ specifier_like self.now id.now) }
    {
        match self {
            PackageSpecifier::Cargo { .. } => Ok(PackageSpecifier::Cargo {
                package_id: id.clone()?,
            }),
            PackageSpecifier::BuildInfo { .. } => Ok(PackageSpecifier::BuildInfo {
                label: id.clone()?,
            }),
        }
    }

    fn may_name(&self, kind: WorkspaceKind) -> bool
        ensures { result ≡ may_name self.now kind }
    {
        match self {
            PackageSpecifier::BuildInfo { .. } => kind == WorkspaceKind::Json,
            PackageSpecifier::Cargo { .. } => kind != WorkspaceKind::Json,
        }
    }
}

fn package_in<'a>(workspace: &'a ProjectWorkspace, id: &Text) -> Option<&'a Package>
    ensures { option_copied result ≡ find (has_id id.now) workspace.now.packages }
{
    workspace.packages.iter().find(|package| package.id == *id)
}

fn deps_in<'a>(
    specifier: &PackageSpecifier,
    workspace: &'a ProjectWorkspace,
) -> Option<&'a Items<Text>>
    ensures { option_copied result ≡ deps_in specifier.now workspace.now }
{
    if !specifier.may_name(workspace.kind) {
        return None;
    }
    package_in(workspace, specifier.id())?.member_deps.as_ref()
}

fn first_deps<'a>(
    workspaces: &'a [ProjectWorkspace],
    specifier: &PackageSpecifier,
) -> Option<&'a Items<Text>>
    ensures { option_copied result ≡ first_given (deps_in specifier.now) workspaces.now }
{
    for workspace in workspaces {
        if let Some(deps) = deps_in(specifier, workspace) {
            return Some(deps);
        }
    }
    None
}

fn specifiers_like(
    alloc: Global,
    specifier: &PackageSpecifier,
    ids: &[Text],
) -> Result<Items<PackageSpecifier>, NoMemory>
    ensures { IfOk result (λ list. list ≡ map (specifier_like specifier.now) ids.now) }
{
    let mut list = Items::new(alloc);
    for id in ids {
        list.push(specifier.with_id(id)?)?;
    }
    Ok(list)
}

/// The members that a package depends on, each as a specifier of the same variant: those that the first workspace
/// names whose first package with that id names them. None where no workspace does.
pub fn all_workspace_dependencies_for_package(
    alloc: Global,
    workspaces: &[ProjectWorkspace],
    package: &PackageSpecifier,
) -> Result<Option<Items<PackageSpecifier>>, NoMemory>
    ensures { IfOk result (λ deps. deps ≡ all_deps workspaces.now «package».now) }
{
    match first_deps(workspaces, package) {
        None => Ok(None),
        Some(ids) => Ok(Some(specifiers_like(alloc, package, ids.as_slice())?)),
    }
}
