// The texts of a workspace at one moment, with its roots and its crate graph.
ghost use Rattle.std.specs.Prelude.{◌≡◌, ◌+◌, length, IfOk, OnOk, OnErr, option_copied};
ghost use Rattle.std.specs.Arc.{arc_value};
ghost use Rattle.std.specs.FinMap as map;
ghost use Rattle.std.specs.Option.{option_map, unwrap_or};
ghost use Rattle.shared_map.specs.Costs.{IsQuick};
ghost use Rattle.analysis_host.specs.SnapshotData.{empty_world, no_crates, text_at, without_texts};
ghost use Rattle.analysis_host.specs.HostData.{with_change, with_files, with_entry};
ghost use Rattle.analysis_host.specs.Costs.{AreQuick};

use crate::host::{Change, FileChange};
use crate::path_map::TextTree;
use crate::text_entry::TextEntry;
use docs_vfs::{SourceRoots, VfsPath};
use plain::{ExactClone, Items};
use project_model::CrateData;
use shared_map::Steps;
use std::alloc::{AllocError, Global};
use std::marker::Model;
use std::sync::Arc;
use std::sync::ledger::Ledger;
use text_core::TextIndex;

/// A world. Its clones share all that it holds, and stay as they are when it changes.
pub struct World {
    alloc: Global,
    texts: TextTree,
    roots: Arc<SourceRoots, Global>,
    crates: Arc<CrateData, Global>,
}

impl Drop for World {
    fn drop(self) {
        let World {
            alloc: _,
            texts: _,
            roots: _,
            crates: _,
        } = self;
    }
}

impl Model for World {
    ghost use Rattle.std.specs.Arc.{arc_value};
    ghost use Rattle.analysis_host.specs.SnapshotData.{WorldData};

    ghost Value = { WorldData };

    ghost use Rattle.analysis_host.specs.Codes.{world_code};

    ghost coded = { world_code };

    ghost view = { λ w. record { texts = w.texts; roots = arc_value w.roots; crates = arc_value w.crates } };
}

/// In the texts one file's text and line endings are set, or taken away.
#[tactic(auto, using(crate::proofs::Counting::at_rest))]
fn put_entry<L: Ledger>(
    texts: &mut TextTree,
    file: FileChange,
    steps: &mut Steps<L>,
) -> Result<(), AllocError>
    ensures ok { OnOk result (texts.new ≡ with_entry file.path file.entry texts.old) }
    ensures cost { IsQuick (map.len texts.old) steps.old steps.new }
{
    let FileChange { path, entry } = file;
    texts.put(path, entry, steps)
}

fn no_crates(alloc: Global) -> CrateData
    ensures { result ≡ no_crates }
{
    CrateData {
        crates: Items::new(alloc),
        env: Items::new(alloc),
        macros: Items::new(alloc),
    }
}

/// What is given, to be shared.
fn shared<T: Drop>(alloc: Global, given: Option<T>) -> Result<Option<Arc<T, Global>>, AllocError>
    ensures { IfOk result (λ shared. option_map arc_value shared ≡ given) }
{
    match given {
        Some(value) => Ok(Some(Arc::new(alloc, value)?)),
        None => Ok(None),
    }
}

impl World {
    // Where its copies are made.
    pub(crate) fn alloc(&self) -> Global {
        self.alloc
    }

    /// The world without texts, roots and crates.
    pub fn new(alloc: Global) -> Result<World, AllocError>
        ensures { IfOk result (λ world. world ≡ empty_world) }
    {
        let roots = SourceRoots::new(Items::new(alloc))?;
        Ok(World {
            alloc,
            texts: TextTree::new(alloc),
            roots: Arc::new(alloc, roots)?,
            crates: Arc::new(alloc, no_crates(alloc))?,
        })
    }

    pub fn roots(&self) -> &SourceRoots
        ensures { result.now ≡ self.now.roots }
    {
        &self.roots
    }

    /// The crate graph.
    pub fn crate_data(&self) -> &CrateData
        ensures { result.now ≡ self.now.crates }
    {
        &self.crates
    }

    /// What the world keeps of a path.
    pub fn entry(&self, path: &VfsPath) -> Option<&TextEntry>
        ensures { option_copied result ≡ map.get self.now.texts path.now }
    {
        self.texts.get(path)
    }

    /// The text of a path.
    pub fn text(&self, path: &VfsPath) -> Option<&str>
        ensures { option_copied result ≡ text_at self.now path.now }
    {
        match self.entry(path) {
            Some(entry) => Some(entry.text.as_str()),
            None => None,
        }
    }

    /// The text of a path, with its lines.
    pub fn index(&self, path: &VfsPath) -> Option<&TextIndex>
        ensures { option_copied result ≡ text_at self.now path.now }
    {
        match self.entry(path) {
            Some(entry) => Some(entry.text.index()),
            None => None,
        }
    }

    /// These files are set or taken away, one after another. What other worlds share of the table of paths is copied
    /// on the way to these files, all else stays this world's own. Each step is one node of that table that is read.
    /// Without memory the world has no texts.
    pub fn put_files<L: Ledger>(
        &mut self,
        files: Items<FileChange>,
        steps: &mut Steps<L>,
    ) -> Result<(), AllocError>
        ensures ok { OnOk result (self.new ≡ record self.old { texts = with_files files self.old.texts }) }
        ensures err { OnErr result (self.new ≡ without_texts self.old) }
        ensures cost { AreQuick (length files) (map.len self.old.texts + length files) steps.old steps.new }
    {
        let mut texts = self.texts.take();
        for file in files.into_vec() {
            put_entry(&mut texts, file, steps)?;
        }
        self.texts = texts;
        Ok(())
    }

    /// The roots and the crates are those that are given, and the others stay.
    fn replace(
        &mut self,
        roots: Option<Arc<SourceRoots, Global>>,
        crates: Option<Arc<CrateData, Global>>,
    )
        ensures { self.new ≡ record self.old {
          roots = unwrap_or (option_map arc_value roots) self.old.roots;
          crates = unwrap_or (option_map arc_value crates) self.old.crates;
        } }
    {
        if let Some(roots) = roots {
            self.roots = roots;
        }
        if let Some(crates) = crates {
            self.crates = crates;
        }
    }

    /// Makes one change. Each step is one node of the table of paths that is read. Without memory the world has no texts,
    /// and its roots and its crates are as they were.
    #[tactic(auto, using(crate::proofs::Counting::nothing_done))]
    pub fn put<L: Ledger>(&mut self, change: Change, steps: &mut Steps<L>) -> Result<(), AllocError>
        ensures ok { OnOk result (self.new ≡ with_change change self.old) }
        ensures err { OnErr result (self.new ≡ without_texts self.old) }
        ensures cost { let count = length change.files in
            AreQuick count (map.len self.old.texts + count) steps.old steps.new }
    {
        let Change {
            files,
            roots,
            crates,
        } = change;
        let texts = self.texts.take();
        let roots = shared(self.alloc, roots)?;
        let crates = shared(self.alloc, crates)?;
        self.texts = texts;
        self.put_files(files, steps)?;
        self.replace(roots, crates);
        Ok(())
    }
}

impl Clone for World {
    ghost is_clone = { λ world copy. copy ≡ world };

    fn clone(&self) -> Result<World, AllocError> {
        Ok(World {
            alloc: self.alloc,
            texts: self.texts.clone()?,
            roots: Arc::try_clone(&self.roots)?,
            crates: Arc::try_clone(&self.crates)?,
        })
    }
}

impl ExactClone for World {
    ghost copies = { λ x y h. h };
}
