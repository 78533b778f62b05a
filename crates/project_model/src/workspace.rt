ghost use Rattle.std.specs.Prelude.{◌≡◌, ◌↔◌, IsTrue};

use crate::build::BuildScripts;
use crate::crates::CrateEntry;
use crate::kinds::WorkspaceKind;
use crate::package::Package;
use crate::same::are_same;
use docs_vfs::{Root, VfsPath};
use plain::{ExactClone, Items, NoMemory, Text, copy, is_same};

/// One workspace of a project, as it was loaded.
pub struct ProjectWorkspace {
    pub kind: WorkspaceKind,
    pub manifest: Option<VfsPath>,
    pub root: VfsPath,
    /// Where its files lie.
    pub roots: Items<Root>,
    pub packages: Items<Package>,
    pub crates: Items<CrateEntry>,
    /// The files from which a workspace that is described as JSON was made.
    pub build_files: Items<Text>,
    /// The version of its compiler.
    pub toolchain: Option<Text>,
    /// Why its metadata was read without dependencies.
    pub error: Option<Text>,
    pub sysroot_root: Option<VfsPath>,
    pub sysroot_error: Option<Text>,
    pub sysroot_metadata_error: Option<Text>,
    pub rustc_error: Option<Text>,
    /// What its build scripts made, once they were run.
    pub build: Option<BuildScripts>,
}

impl Drop for ProjectWorkspace {
    fn drop(self) {
        let ProjectWorkspace {
            kind: _,
            manifest: _,
            root: _,
            roots: _,
            packages: _,
            crates: _,
            build_files: _,
            toolchain: _,
            error: _,
            sysroot_root: _,
            sysroot_error: _,
            sysroot_metadata_error: _,
            rustc_error: _,
            build: _,
        } = self;
    }
}

impl ProjectWorkspace {
    ghost use Rattle.project_model.specs.Same.{is_same_but_build};
    ghost use Rattle.project_model.specs.Workspaces.{without_build, manifest_or_root};

    /// The path that names the workspace in texts.
    pub fn manifest_or_root(&self) -> &VfsPath
        ensures { result.now ≡ manifest_or_root self.now }
    {
        match &self.manifest {
            Some(manifest) => manifest,
            None => &self.root,
        }
    }

    /// Whether the workspaces are the same but for what their builds made.
    pub fn eq_ignore_build_data(&self, other: &ProjectWorkspace) -> bool
        ensures equal { IsTrue result ↔ (without_build self.now ≡ without_build other.now) }
        ensures value { result ≡ is_same_but_build self.now other.now }
    {
        self.has_same_parts(other)
    }

    fn has_same_parts(&self, other: &ProjectWorkspace) -> bool
        ensures { IsTrue result ↔ (without_build self.now ≡ without_build other.now) }
    {
        self.kind == other.kind
            && is_same(&self.manifest, &other.manifest)
            && is_same(&self.root, &other.root)
            && are_same(self.roots.as_slice(), other.roots.as_slice())
            && are_same(self.packages.as_slice(), other.packages.as_slice())
            && are_same(self.crates.as_slice(), other.crates.as_slice())
            && is_same(&self.build_files, &other.build_files)
            && is_same(&self.toolchain, &other.toolchain)
            && is_same(&self.error, &other.error)
            && is_same(&self.sysroot_root, &other.sysroot_root)
            && is_same(&self.sysroot_error, &other.sysroot_error)
            && is_same(&self.sysroot_metadata_error, &other.sysroot_metadata_error)
            && is_same(&self.rustc_error, &other.rustc_error)
    }
}

impl Clone for ProjectWorkspace {
    ghost is_clone = { λ workspace copy. copy ≡ workspace };

    fn clone(&self) -> Result<ProjectWorkspace, NoMemory> {
        Ok(ProjectWorkspace {
            kind: self.kind,
            manifest: copy(&self.manifest)?,
            root: copy(&self.root)?,
            roots: copy(&self.roots)?,
            packages: copy(&self.packages)?,
            crates: copy(&self.crates)?,
            build_files: copy(&self.build_files)?,
            toolchain: copy(&self.toolchain)?,
            error: copy(&self.error)?,
            sysroot_root: copy(&self.sysroot_root)?,
            sysroot_error: copy(&self.sysroot_error)?,
            sysroot_metadata_error: copy(&self.sysroot_metadata_error)?,
            rustc_error: copy(&self.rustc_error)?,
            build: copy(&self.build)?,
        })
    }
}

impl ExactClone for ProjectWorkspace {
    ghost copies = { λ x y h. h };
}
