// The world that changes: each change makes a new one, and those that were given out stay as they are.
ghost use Rattle.std.specs.Prelude.{◌≡◌, ◌<◌, ◌+◌, length, IfOk, option_copied};
ghost use Rattle.std.specs.FinMap as map;
ghost use Rattle.analysis_host.specs.SnapshotData.{text_at};
ghost use Rattle.analysis_host.specs.HostData.{new_host, new_host_at, changed, files_only, Changes};
ghost use Rattle.analysis_host.specs.Costs.{AreQuick};
ghost use Rattle.analysis_host.specs.declared.host.WorldFault.TheVariants.{NoMemory as OutOfMemory};

use crate::text_entry::TextEntry;
use crate::world::World;
use docs_vfs::{SourceRoots, VfsPath};
use plain::Items;
use project_model::CrateData;
use shared_map::Steps;
use std::alloc::{AllocError, Global};
use std::marker::{Brand, Model};
use std::sync::ledger::{Blank, Ledger};
use text_core::TextIndex;

/// A file's new text with its line endings, or that it has none.
#[derive(Drop)]
pub struct FileChange {
    pub path: VfsPath,
    pub entry: Option<TextEntry>,
}

/// What changes in one step: the files in order, and the roots and the crates where they are given.
#[derive(Drop)]
pub struct Change {
    pub files: Items<FileChange>,
    pub roots: Option<SourceRoots>,
    pub crates: Option<CrateData>,
}

impl Change {
    /// A change of files alone.
    pub fn files_only(files: Items<FileChange>) -> Change
        ensures { result ≡ files_only files }
    {
        Change {
            files,
            roots: None,
            crates: None,
        }
    }
}

/// Why a change was not made.
#[derive(Clone, Copy, Debug, PartialEq, Eq, PartialOrd, Ord, Hash)]
pub enum WorldFault {
    /// The last revision was reached. Nothing changed.
    Exhausted,
    /// The world has no texts. Its roots, its crates and its revision are as they were.
    NoMemory,
}

impl From<AllocError> for WorldFault {
    ghost from_gives = { λ _ e. e ≡ OutOfMemory };

    fn from(_: AllocError) -> Self {
        WorldFault::NoMemory
    }
}

/// A world with its revision.
pub struct AnalysisHost {
    world: World,
    revision: u64,
}

impl Drop for AnalysisHost {
    fn drop(self) {
        let AnalysisHost {
            world: _,
            revision: _,
        } = self;
    }
}

impl Model for AnalysisHost {
    ghost use Rattle.analysis_host.specs.SnapshotData.{text_at};
    ghost use Rattle.analysis_host.specs.HostData.{HostData};

    ghost Value = { HostData };

    ghost use Rattle.analysis_host.specs.Codes.{host_code};

    ghost coded = { host_code };

    ghost view = { λ h. record { world = h.world; revision = h.revision } };
}

impl AnalysisHost {
    /// The empty world, at revision 0.
    pub fn new(alloc: Global) -> Result<AnalysisHost, AllocError>
        ensures { IfOk result (λ host. host ≡ new_host) }
    {
        AnalysisHost::new_at(alloc, 0)
    }

    /// The empty world, where this many revisions were used.
    pub fn new_at(alloc: Global, used: u64) -> Result<AnalysisHost, AllocError>
        ensures { IfOk result (λ host. host ≡ new_host_at used) }
    {
        Ok(AnalysisHost {
            world: World::new(alloc)?,
            revision: used,
        })
    }

    pub fn revision(&self) -> u64
        ensures { result ≡ self.now.revision }
    {
        self.revision
    }

    /// The present world, frozen.
    pub fn world(&self) -> Result<World, AllocError>
        ensures { IfOk result (λ world. world ≡ self.now.world) }
    {
        self.world.clone()
    }

    /// What the present world keeps of a path.
    pub fn entry(&self, path: &VfsPath) -> Option<&TextEntry>
        ensures { option_copied result ≡ map.get self.now.world.texts path.now }
    {
        self.world.entry(path)
    }

    /// The present text of a path.
    pub fn text(&self, path: &VfsPath) -> Option<&str>
        ensures { option_copied result ≡ text_at self.now.world path.now }
    {
        self.world.text(path)
    }

    /// The present text of a path, with its lines.
    pub fn index(&self, path: &VfsPath) -> Option<&TextIndex>
        ensures { option_copied result ≡ text_at self.now.world path.now }
    {
        self.world.index(path)
    }

    /// The present roots.
    pub fn roots(&self) -> &SourceRoots
        ensures { result.now ≡ self.now.world.roots }
    {
        self.world.roots()
    }

    /// The present crate graph.
    pub fn crate_data(&self) -> &CrateData
        ensures { result.now ≡ self.now.world.crates }
    {
        self.world.crate_data()
    }

    /// Makes one change, and so a new revision.
    pub fn apply_change(&mut self, change: Change) -> Result<(), WorldFault>
        ensures ok { Changes result (changed change self.old) self.old self.new }
    {
        self.apply_uncounted::<Brand>(change, Blank::new(1))
    }

    /// The same where nobody counts the steps.
    fn apply_uncounted<L: Ledger>(&mut self, change: Change, blank: Blank) -> Result<(), WorldFault>
        requires name { blank.name ≡ L.name }
        requires parts { blank.parts ≡ L.parts }
        requires some { 0 < L.parts }
        ensures ok { Changes result (changed change self.old) self.old self.new }
    {
        let mut steps = Steps::<L>::new(blank);
        self.apply_counted(change, &mut steps)
    }

    /// As `apply_change`. Each step is one node of the table of texts that is read.
    #[tactic(auto, using(crate::proofs::Counting::nothing_done))]
    pub fn apply_counted<L: Ledger>(
        &mut self,
        change: Change,
        steps: &mut Steps<L>,
    ) -> Result<(), WorldFault>
        ensures ok { Changes result (changed change self.old) self.old self.new }
        ensures cost { let count = length change.files in
            AreQuick count (map.len self.old.world.texts + count) steps.old steps.new }
    {
        if self.revision == u64::MAX {
            return Err(WorldFault::Exhausted);
        }
        self.world.put(change, steps)?;
        self.revision += 1;
        Ok(())
    }
}
