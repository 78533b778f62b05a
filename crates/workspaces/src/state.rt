// What a session knows of its workspaces.
ghost use Rattle.std.specs.Arc.{arc_value};
ghost use Rattle.std.specs.Prelude.{◌≡◌, is_some, IfOk};
ghost use Rattle.std.specs.FinMap as map;
ghost use Rattle.workspaces.specs.Roots.{loader_roots};
ghost use Rattle.workspaces.specs.Workspaces.{no_workspaces, no_workspaces_at, is_idle};

mod building;
mod fetching;
mod loading;
mod switching;

use crate::outputs::{BuildOutput, FetchOutput};
use crate::requests::{FetchRequest, LoadRequest, WaitingCrates, WaitingFetch};
use crate::roots::loader_roots;
use docs_vfs::{ByPath, Root, VfsPath};
use op_board::OpQueue;
use plain::{Items, NoMemory};
use project_model::ProjectWorkspace;
use std::alloc::{AllocError, Global};
use std::marker::Model;
use std::sync::Arc;

/// The workspaces of a session, with what is fetched, built and loaded to renew them.
pub struct Workspaces {
    alloc: Global,
    fetches: OpQueue<FetchRequest, FetchOutput>,
    /// Whether the fetch that was started last is forced.
    forced: bool,
    /// The fetch that waits for a timer.
    planned: Option<WaitingFetch>,
    builds: OpQueue<(), BuildOutput>,
    /// The version of the workspaces on which build data was started last, and how many there were.
    build_version: u64,
    build_count: usize,
    loads: OpQueue<LoadRequest, bool>,
    /// The crate data of the load in progress.
    loading: Option<WaitingCrates>,
    /// The workspaces that are present, which snapshots share.
    present: Arc<Items<ProjectWorkspace>, Global>,
    version: u64,
    loader_version: u32,
    /// The paths that the last build of crate data asked for.
    asked: ByPath<()>,
    incomplete: bool,
    switch_wanted: bool,
    build_deps_changed: bool,
}

impl Drop for Workspaces {
    fn drop(self) {
        let Workspaces {
            alloc: _,
            fetches: _,
            forced: _,
            planned: _,
            builds: _,
            build_version: _,
            build_count: _,
            loads: _,
            loading: _,
            present: _,
            version: _,
            loader_version: _,
            asked: _,
            incomplete: _,
            switch_wanted: _,
            build_deps_changed: _,
        } = self;
    }
}

impl Model for Workspaces {
    ghost use Rattle.std.specs.Arc.{arc_value};
    ghost use Rattle.std.specs.Coded.{codes};
    ghost use Rattle.std.specs.FinMap as map;
    ghost use Rattle.project_model.specs.contracts.build.BuildScripts as scripts;
    ghost use Rattle.project_model.specs.contracts.workspace.ProjectWorkspace as project;
    ghost use Rattle.workspaces.specs.contracts.outputs.BuildOutput as built;
    ghost use Rattle.workspaces.specs.contracts.outputs.FetchOutput as fetched;
    ghost use Rattle.workspaces.specs.contracts.requests.FetchRequest as request;
    ghost use Rattle.workspaces.specs.contracts.requests.LoadRequest as load;
    ghost use Rattle.workspaces.specs.contracts.requests.WaitingCrates as crates;
    ghost use Rattle.workspaces.specs.contracts.requests.WaitingFetch as waiting;
    ghost use Rattle.workspaces.specs.Workspaces.{Workspaces, HasBuilt};

    ghost Value = { Workspaces };

    ghost coded = { Prim.hlevel (
      codes,
      map.code,
      project.the_row.coded,
      built.the_row.coded,
      fetched.the_row.coded,
      request.the_row.coded,
      load.the_row.coded,
      crates.the_row.coded,
      waiting.the_row.coded,
    ) };

    ghost view = { λ w. record {
      fetches = record { queue = w.fetches; forced = w.forced; waiting = w.planned };
      builds = record { queue = w.builds; version = w.build_version; count = w.build_count };
      loads = record { queue = w.loads; waiting = w.loading };
      present = arc_value w.present;
      version = w.version;
      loader_version = w.loader_version;
      asked = w.asked;
      incomplete = w.incomplete;
      switch_wanted = w.switch_wanted;
      build_deps_changed = w.build_deps_changed;
    } };

    ghost invariant = { λ w. HasBuilt (record { queue = w.builds; version = w.build_version; count = w.build_count }) (arc_value w.present) w.version };
}

impl Workspaces {
    /// No workspaces.
    pub fn new(alloc: Global) -> Result<Workspaces, AllocError>
        ensures { IfOk result (λ made. made ≡ no_workspaces) }
    {
        Workspaces::new_at(alloc, 0)
    }

    /// No workspaces, where the loader got settings of this version.
    pub fn new_at(alloc: Global, loader_version: u32) -> Result<Workspaces, AllocError>
        ensures { IfOk result (λ made. made ≡ no_workspaces_at loader_version) }
    {
        Ok(Workspaces {
            alloc,
            fetches: OpQueue::new(),
            forced: false,
            planned: None,
            builds: OpQueue::new(),
            build_version: 0,
            build_count: 0,
            loads: OpQueue::new(),
            loading: None,
            present: Arc::new(alloc, Items::new(alloc))?,
            version: 0,
            loader_version,
            asked: ByPath::new(alloc),
            incomplete: false,
            switch_wanted: false,
            build_deps_changed: false,
        })
    }

    /// The workspaces that are present.
    pub fn present(&self) -> &[ProjectWorkspace]
        ensures { result.now ≡ self.now.present }
    {
        self.present.as_slice()
    }

    /// The same list, shared.
    pub fn share_present(&self) -> Result<Arc<Items<ProjectWorkspace>, Global>, AllocError>
        ensures { IfOk result (λ list. arc_value list ≡ self.now.present) }
    {
        Arc::try_clone(&self.present)
    }

    /// Their roots, each of which excludes these paths too.
    pub fn loader_roots(&self, exclude: &[VfsPath]) -> Result<Items<Root>, NoMemory>
        ensures { IfOk result (λ roots. roots ≡ loader_roots exclude.now self.now.present) }
    {
        loader_roots(self.alloc, exclude, self.present.as_slice())
    }

    /// Their version.
    pub fn version(&self) -> u64
        ensures { result ≡ self.now.version }
    {
        self.version
    }

    /// The version of the settings that the loader got last.
    pub fn loader_version(&self) -> u32
        ensures { result ≡ self.now.loader_version }
    {
        self.loader_version
    }

    /// Whether a switch is wanted.
    pub fn is_switch_wanted(&self) -> bool
        ensures { result ≡ self.now.switch_wanted }
    {
        self.switch_wanted
    }

    /// Whether what build data depends on changed since it was asked for.
    pub fn have_build_deps_changed(&self) -> bool
        ensures { result ≡ self.now.build_deps_changed }
    {
        self.build_deps_changed
    }

    /// Whether the last build of crate data asked for a path that wasn't known.
    pub fn is_incomplete(&self) -> bool
        ensures { result ≡ self.now.incomplete }
    {
        self.incomplete
    }

    /// The paths that the last build of crate data asked for.
    pub fn asked(&self) -> &ByPath<()>
        ensures { result.now ≡ self.now.asked }
    {
        &self.asked
    }

    /// Whether the last build of crate data asked for this path.
    pub fn is_asked(&self, path: &VfsPath) -> bool
        ensures { result ≡ is_some (map.get self.now.asked path.now) }
    {
        self.asked.contains(path)
    }

    /// Whether no fetch waits for a timer, and no fetch, run of build data or load of macros is in progress.
    pub fn is_idle(&self) -> bool
        ensures { result ≡ is_idle self.now }
    {
        self.planned.is_none()
            && !self.fetches.op_in_progress()
            && !self.builds.op_in_progress()
            && !self.loads.op_in_progress()
    }

    /// What the last build of crate data asked for, and whether one of the paths wasn't known.
    pub fn keep_asked(&mut self, asked: ByPath<()>, incomplete: bool)
        ensures { self.new ≡ record self.old { asked = asked; incomplete = incomplete } }
    {
        self.asked = asked;
        self.incomplete = incomplete;
    }
}
