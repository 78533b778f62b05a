// Maps by path that share what they have in common.
ghost use Rattle.std.specs.Prelude.{◌≡◌, IfOk, OnOk, OnErr, option_copied, map as each};
ghost use Rattle.std.specs.FinMap as map;
ghost use Rattle.shared_map.specs.AsMap.{set_in_map};
ghost use Rattle.shared_map.specs.Costs.{IsQuick};

use crate::text_entry::TextEntry;
use docs_vfs::VfsPath;
use plain::{ExactClone, Items};
use shared_map::{SharedMap, Steps};
use std::alloc::{AllocError, Global};
use std::marker::Model;
use std::sync::ledger::Ledger;

/// Values by path, which contracts see as a finite map. A clone is the same tree, and what is set later in one of them
/// makes anew the nodes on the way to the path alone.
pub struct PathMap<V> {
    rows: SharedMap<VfsPath, V>,
}

impl<V: Drop> Drop for PathMap<V> {
    fn drop(self) {
        let PathMap { rows: _ } = self;
    }
}

/// What a world keeps of each file by path: its text and its line endings.
pub type TextTree = PathMap<TextEntry>;

/// The paths of entries.
fn paths_of<V>(alloc: Global, entries: &[&(VfsPath, V)]) -> Result<Items<VfsPath>, AllocError>
    ensures { IfOk result (λ paths. paths ≡ each (λ entry. entry.now.0) entries.now) }
{
    let mut paths = Items::new(alloc);
    for entry in entries {
        paths.push(entry.0.clone()?)?;
    }
    Ok(paths)
}

impl<V> Model for PathMap<V> {
    ghost use Rattle.std.specs.FinMap as map;
    ghost use Rattle.std.specs.Coded.{coded_ℕ, coded_list};
    ghost use Rattle.docs_vfs.specs.Paths.{path_cmp};

    ghost Value = { map.FinMap path_cmp V };

    ghost coded = { map.code (coded_list coded_ℕ) V.code };

    ghost view = { λ a. map.from_entries a.rows };
}

impl<V> PathMap<V> {
    /// A map with nothing in it.
    pub fn new(alloc: Global) -> PathMap<V>
        ensures { result ≡ map.empty }
    {
        PathMap {
            rows: SharedMap::new(alloc),
        }
    }

    pub fn len(&self) -> u64
        ensures { result ≡ map.len self.now }
    {
        self.rows.len()
    }

    pub fn get(&self, path: &VfsPath) -> Option<&V>
        ensures { option_copied result ≡ map.get self.now path.now }
    {
        self.rows.get(path)
    }

    /// The paths in order.
    pub fn paths(&self, alloc: Global) -> Result<Items<VfsPath>, AllocError>
        ensures { IfOk result (λ paths. paths ≡ map.keys self.now) }
    {
        let _in_order = self.rows.len();
        let entries = self.rows.entries()?;
        paths_of(alloc, entries.as_slice())
    }

    /// The map with the value at the path, or with none at it. This one stays as it is. Each step is one node that is read.
    pub fn set<L: Ledger>(
        &self,
        path: VfsPath,
        value: Option<V>,
        steps: &mut Steps<L>,
    ) -> Result<PathMap<V>, AllocError>
    where
        V: ExactClone + Drop,
        ensures ok { IfOk result (λ new. new ≡ set_in_map self.now path value) }
        ensures cost { IsQuick (map.len self.now) steps.old steps.new }
    {
        let mut map = self.clone()?;
        map.put(path, value, steps)?;
        Ok(map)
    }

    /// The map itself, which leaves an empty one.
    pub fn take(&mut self) -> PathMap<V>
        ensures value { result ≡ self.old }
        ensures after { self.new ≡ map.empty }
    {
        PathMap {
            rows: self.rows.take(),
        }
    }

    /// Sets the value at the path, or none at it. Nodes that other maps share are copied, all others stay this map's
    /// own. Each step is one node that is read. Without memory the map is empty.
    pub fn put<L: Ledger>(
        &mut self,
        path: VfsPath,
        value: Option<V>,
        steps: &mut Steps<L>,
    ) -> Result<(), AllocError>
    where
        V: ExactClone + Drop,
        ensures ok { OnOk result (self.new ≡ set_in_map self.old path value) }
        ensures err { OnErr result (self.new ≡ map.empty) }
        ensures cost { IsQuick (map.len self.old) steps.old steps.new }
    {
        let _in_order = self.rows.len();
        self.rows.put(path, value, steps)?;
        Ok(())
    }
}

impl<V: Drop> Clone for PathMap<V> {
    ghost is_clone = { λ m copy. copy ≡ m };

    fn clone(&self) -> Result<PathMap<V>, AllocError> {
        Ok(PathMap {
            rows: self.rows.clone()?,
        })
    }
}

impl<V: Drop> ExactClone for PathMap<V> {
    ghost copies = { λ x y h. h };
}
