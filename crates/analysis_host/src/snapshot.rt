// What a job works on: everything that a query may ask, at one moment, shared and never changed.
ghost use Rattle.std.specs.Prelude.{◌≡◌, IfOk};
ghost use Rattle.std.specs.Arc.{arc_value};
ghost use Rattle.project_model.specs.Dependencies.{all_deps};
ghost use Rattle.project_model.specs.Targets.{target_spec_for_file};
ghost use Rattle.analysis_host.specs.SnapshotData.{encoding_of};

use crate::versions::Versions;
use crate::world::World;
use docs_vfs::{SourceRoots, VfsPath};
use file_ids::FileIds;
use op_board::CheckFix;
use plain::{ExactClone, Items, NoMemory};
use project_model::{
    CrateData, PackageSpecifier, ProjectWorkspace, TargetSpec,
    all_workspace_dependencies_for_package, target_spec_for_file,
};
use ra_config::Config;
use std::alloc::{AllocError, Global};
use std::marker::Model;
use std::sync::Arc;
use text_core::PositionEncoding;

mod files;

/// The parts of a snapshot.
pub struct SnapshotParts {
    pub world: World,
    pub file_ids: FileIds,
    pub versions: Versions,
    pub config: Arc<Config, Global>,
    /// What checks offer to mend.
    pub check_fixes: Arc<Items<CheckFix>, Global>,
    pub proc_macros_loaded: bool,
    pub workspaces: Arc<Items<ProjectWorkspace>, Global>,
    pub workspaces_version: u64,
    pub revision: u64,
}

impl Drop for SnapshotParts {
    fn drop(self) {
        let SnapshotParts {
            world: _,
            file_ids: _,
            versions: _,
            config: _,
            check_fixes: _,
            proc_macros_loaded: _,
            workspaces: _,
            workspaces_version: _,
            revision: _,
        } = self;
    }
}

/// A frozen snapshot. Its clones are the same one: a clone is one count.
pub struct GlobalStateSnapshot {
    parts: Arc<SnapshotParts, Global>,
}

impl Drop for GlobalStateSnapshot {
    fn drop(self) {
        let GlobalStateSnapshot { parts: _ } = self;
    }
}

impl Model for GlobalStateSnapshot {
    ghost use Rattle.std.specs.Arc.{arc_value};
    ghost use Rattle.analysis_host.specs.SnapshotData.{SnapshotData};

    ghost Value = { SnapshotData };

    ghost use Rattle.analysis_host.specs.Codes.{snapshot_code};

    ghost coded = { snapshot_code };

    ghost view = { λ s. record {
      world = (arc_value s.parts).world;
      file_ids = (arc_value s.parts).file_ids;
      versions = (arc_value s.parts).versions;
      config = arc_value (arc_value s.parts).config;
      check_fixes = arc_value (arc_value s.parts).check_fixes;
      proc_macros_loaded = (arc_value s.parts).proc_macros_loaded;
      workspaces = arc_value (arc_value s.parts).workspaces;
      workspaces_version = (arc_value s.parts).workspaces_version;
      revision = (arc_value s.parts).revision;
    } };
}

impl GlobalStateSnapshot {
    pub fn new(parts: SnapshotParts) -> Result<Self, AllocError>
        ensures { IfOk result (λ snapshot. snapshot ≡ record {
          world = parts.world;
          file_ids = parts.file_ids;
          versions = parts.versions;
          config = arc_value parts.config;
          check_fixes = arc_value parts.check_fixes;
          proc_macros_loaded = parts.proc_macros_loaded;
          workspaces = arc_value parts.workspaces;
          workspaces_version = parts.workspaces_version;
          revision = parts.revision;
        }) }
    {
        let alloc = parts.world.alloc();
        let parts = Arc::new(alloc, parts)?;
        Ok(GlobalStateSnapshot { parts })
    }

    pub fn revision(&self) -> u64
        ensures { result ≡ self.now.revision }
    {
        self.parts.revision
    }

    pub fn config(&self) -> &Config
        ensures { result.now ≡ self.now.config }
    {
        &self.parts.config
    }

    /// What a column counts.
    pub fn encoding(&self) -> PositionEncoding
        ensures { result ≡ encoding_of self.now }
    {
        self.config().encodings()
    }

    pub fn roots(&self) -> &SourceRoots
        ensures { result.now ≡ self.now.world.roots }
    {
        self.parts.world.roots()
    }

    /// The crate graph.
    pub fn crate_data(&self) -> &CrateData
        ensures { result.now ≡ self.now.world.crates }
    {
        self.parts.world.crate_data()
    }

    /// What checks offer to mend.
    pub fn check_fixes(&self) -> &[CheckFix]
        ensures { result.now ≡ self.now.check_fixes }
    {
        self.parts.check_fixes.as_slice()
    }

    /// Whether proc macros are loaded.
    pub fn proc_macros_loaded(&self) -> bool
        ensures { result ≡ self.now.proc_macros_loaded }
    {
        self.parts.proc_macros_loaded
    }

    pub fn workspaces(&self) -> &[ProjectWorkspace]
        ensures { result.now ≡ self.now.workspaces }
    {
        self.parts.workspaces.as_slice()
    }

    /// The version of the workspaces.
    pub fn workspaces_version(&self) -> u64
        ensures { result ≡ self.now.workspaces_version }
    {
        self.parts.workspaces_version
    }

    /// What is told of the first target with this root, over the workspaces and their packages in order.
    pub fn target_spec_for_file(
        &self,
        _alloc: Global,
        root: &VfsPath,
    ) -> Result<Option<TargetSpec>, NoMemory>
        ensures { IfOk result (λ spec. spec ≡ target_spec_for_file self.now.workspaces root.now) }
    {
        target_spec_for_file(self.workspaces(), root)
    }

    /// The members that a package depends on, each as a specifier of the same variant. None where no workspace names them.
    pub fn all_workspace_dependencies_for_package(
        &self,
        alloc: Global,
        package: &PackageSpecifier,
    ) -> Result<Option<Items<PackageSpecifier>>, NoMemory>
        ensures { IfOk result (λ deps. deps ≡ all_deps self.now.workspaces «package».now) }
    {
        all_workspace_dependencies_for_package(alloc, self.workspaces(), package)
    }
}

impl Clone for GlobalStateSnapshot {
    ghost is_clone = { λ snapshot copy. copy ≡ snapshot };

    fn clone(&self) -> Result<GlobalStateSnapshot, AllocError> {
        Ok(GlobalStateSnapshot {
            parts: Arc::try_clone(&self.parts)?,
        })
    }
}

impl ExactClone for GlobalStateSnapshot {
    ghost copies = { λ x y h. h };
}
