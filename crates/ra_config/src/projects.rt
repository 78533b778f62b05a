// The projects that a session works on, and the roots of its workspaces.
ghost use Rattle.std.specs.Prelude.{◌≡◌, ◌↔◌, ◌++◌, IsTrue, map, bytes_eq, IfOk, OnOk};
ghost use Rattle.std.specs.List.{list_any, position};
ghost use Rattle.ra_config.specs.Projects.{newer, with_discovered, as_project, manifest, manifests, without};

use docs_vfs::VfsPath;
use plain::{ExactClone, Items, Json, Text, is_same};
use ra_settings::LinkedProject;
use std::alloc::{AllocError, Global};
use std::marker::Model;
use std::sync::Arc;

/// A project that a command found, and the file by which it was found. A clone shares the project.
pub(crate) struct Discovered {
    project: Arc<Json, Global>,
    buildfile: Text,
}

impl Drop for Discovered {
    fn drop(self) {
        let Discovered {
            project: _,
            buildfile: _,
        } = self;
    }
}

impl Model for Discovered {
    ghost use Rattle.std.specs.Coded.{codes};
    ghost use Rattle.plain.specs.Code.{data_code};
    ghost use Rattle.ra_config.specs.Projects.{DiscoveredData};

    ghost Value = { DiscoveredData };

    ghost coded = { Prim.hlevel (codes, data_code) };

    ghost view = { λ d. record { project = d.project.value; buildfile = d.buildfile } };
}

impl Discovered {
    pub fn new(alloc: Global, project: Json, buildfile: Text) -> Result<Discovered, AllocError>
        ensures { IfOk result (λ d. d ≡ record { project = project; buildfile = buildfile }) }
    {
        Ok(Discovered {
            project: Arc::new(alloc, project)?,
            buildfile,
        })
    }

    pub fn project(&self) -> &Json
        ensures { result.now ≡ self.now.project }
    {
        &self.project
    }

    pub fn buildfile(&self) -> &Text
        ensures { result.now ≡ self.now.buildfile }
    {
        &self.buildfile
    }
}

impl Clone for Discovered {
    ghost is_clone = { λ discovered copy. copy ≡ discovered };

    fn clone(&self) -> Result<Discovered, AllocError> {
        Ok(Discovered {
            project: self.project.clone()?,
            buildfile: self.buildfile.clone()?,
        })
    }
}

impl ExactClone for Discovered {
    ghost copies = { λ x y h. h };
}

fn is_same_discovered(a: &Discovered, b: &Discovered) -> bool
    ensures { IsTrue result ↔ (a.now ≡ b.now) }
{
    a.project().is_same(b.project()) && is_same(a.buildfile(), b.buildfile())
}

/// Whether the same projects were discovered.
pub(crate) fn are_same_discovered(a: &[Discovered], b: &[Discovered]) -> bool
    ensures { IsTrue result ↔ (a.now ≡ b.now) }
{
    if a.len() != b.len() {
        return false;
    }
    for (x, y) in a.iter().zip(b) {
        if !is_same_discovered(x, y) {
            return false;
        }
    }
    true
}

/// Whether the paths are the same.
pub(crate) fn are_same_paths(a: &[VfsPath], b: &[VfsPath]) -> bool
    ensures { IsTrue result ↔ (a.now ≡ b.now) }
{
    if a.len() != b.len() {
        return false;
    }
    for (x, y) in a.iter().zip(b) {
        if !is_same(x, y) {
            return false;
        }
    }
    true
}

fn is_of(discovered: &Discovered, buildfile: &str) -> bool
    ensures { result ≡ bytes_eq discovered.now.buildfile buildfile.now }
{
    discovered.buildfile().as_str() == buildfile
}

fn newer(new: &Discovered, old: &Discovered) -> Result<Discovered, AllocError>
    ensures { IfOk result (λ d. d ≡ newer new.now old.now) }
{
    if is_of(old, new.buildfile().as_str()) {
        new.clone()
    } else {
        old.clone()
    }
}

fn replaced(
    alloc: Global,
    new: &Discovered,
    list: &[Discovered],
) -> Result<Items<Discovered>, AllocError>
    ensures { IfOk result (λ made. made ≡ map (newer new.now) list.now) }
{
    let mut made = Items::new(alloc);
    for old in list {
        made.push(newer(new, old)?)?;
    }
    Ok(made)
}

fn is_any_of(list: &[Discovered], buildfile: &str) -> bool
    ensures { result ≡ list_any (λ d. bytes_eq d.buildfile buildfile.now) list.now }
{
    list.iter().any(|d| is_of(d, buildfile))
}

/// The discovered projects with a newer one.
#[tactic(auto, unfolding(crate::specs::Projects::with_discovered))]
pub(crate) fn with_discovered(
    alloc: Global,
    new: Discovered,
    list: &Items<Discovered>,
) -> Result<Items<Discovered>, AllocError>
    ensures { IfOk result (λ made. made ≡ with_discovered new list.now) }
{
    if is_any_of(list.as_slice(), new.buildfile().as_str()) {
        return replaced(alloc, &new, list.as_slice());
    }
    let mut made = list.clone()?;
    made.push(new)?;
    Ok(made)
}

pub(crate) fn push_linked(
    projects: &mut Items<LinkedProject>,
    linked: &[LinkedProject],
) -> Result<(), AllocError>
    ensures { OnOk result (projects.new ≡ projects.old ++ linked.now) }
{
    for project in linked {
        projects.push(project.clone()?)?;
    }
    Ok(())
}

fn as_project(alloc: Global, discovered: &Discovered) -> Result<LinkedProject, AllocError>
    ensures { IfOk result (λ p. p ≡ as_project discovered.now) }
{
    let mut buildfiles = Items::new(alloc);
    buildfiles.push(discovered.buildfile().clone()?)?;
    Ok(LinkedProject::InlineProjectJson {
        project: discovered.project().clone()?,
        buildfiles,
    })
}

pub(crate) fn push_discovered(
    alloc: Global,
    projects: &mut Items<LinkedProject>,
    list: &[Discovered],
) -> Result<(), AllocError>
    ensures { OnOk result (projects.new ≡ projects.old ++ map as_project list.now) }
{
    for discovered in list {
        projects.push(as_project(alloc, discovered)?)?;
    }
    Ok(())
}

fn manifest(root: &VfsPath) -> Result<LinkedProject, AllocError>
    ensures { IfOk result (λ p. p ≡ manifest root.now) }
{
    Ok(LinkedProject::ProjectManifest(root.join("Cargo.toml")?))
}

pub(crate) fn push_manifests(
    projects: &mut Items<LinkedProject>,
    roots: &[VfsPath],
) -> Result<(), AllocError>
    ensures { OnOk result (projects.new ≡ projects.old ++ manifests roots.now) }
{
    for root in roots {
        projects.push(manifest(root)?)?;
    }
    Ok(())
}

fn place_of(roots: &[VfsPath], path: &VfsPath) -> Option<usize>
    ensures { result ≡ position (λ root. bytes_eq root path.now) roots.now }
{
    roots.iter().position(|root| root == path)
}

/// Takes the first root that is equal out.
#[tactic(auto, unfolding(crate::specs::Projects::without))]
pub(crate) fn remove_root(roots: &mut Vec<VfsPath>, path: &VfsPath)
    ensures { roots.new.items ≡ without path.now roots.old.items }
{
    if let Some(at) = place_of(roots.as_slice(), path) {
        roots.remove(at);
    }
}
