ghost use Rattle.std.specs.Prelude.{◌≡◌, ◌↔◌, IfOk, OnOk, OnErr, IsTrue};
ghost use Rattle.std.specs.Borrow.{sem};
ghost use Rattle.std.specs.Option.{option_copied, option_copied_mut};
ghost use Rattle.std.specs.FinMap as map;
ghost use Rattle.docs_vfs.specs.LentByPath.{lends_at};

use crate::path::VfsPath;
use std::alloc::{AllocError, Global};
use std::collections::HashMap;
use std::marker::Model;

/// Values by path in no order, which contracts see as a finite map. A path is found by its hash.
pub struct PathTable<V> {
    rows: HashMap<VfsPath, V>,
}

impl<V: Drop> Drop for PathTable<V> {
    fn drop(self) {
        let PathTable { rows: _ } = self;
    }
}

impl<V> Model for PathTable<V> {
    ghost use Rattle.std.specs.FinMap as map;
    ghost use Rattle.std.specs.Coded.{coded_ℕ, coded_list};
    ghost use Rattle.docs_vfs.specs.Paths.{path_cmp};

    ghost Value = { map.FinMap path_cmp V };

    ghost coded = { map.code (coded_list coded_ℕ) V.code };

    ghost view = { λ a. map.from_entries a.rows.entries };
}

impl<V> PathTable<V> {
    /// A table with nothing in it.
    pub fn new(alloc: Global) -> PathTable<V>
        ensures { result ≡ map.empty }
    {
        PathTable {
            rows: HashMap::new(alloc),
        }
    }

    pub fn get(&self, path: &VfsPath) -> Option<&V>
        ensures { option_copied result ≡ map.get self.now path.now }
    {
        self.rows.get(path)
    }

    /// The value at a path, to be changed in its place.
    pub fn get_mut(&mut self, path: &VfsPath) -> Option<&mut V>
        ensures* writes_back { sem 𝓛 (lends_at V.row self.entry path.now result) }
        ensures value { option_copied_mut result ≡ map.get self.old path.now }
    {
        self.rows.get_mut(path)
    }

    /// Puts a value at a path, in place of the one that was there.
    pub fn insert(&mut self, path: VfsPath, value: V) -> Result<(), AllocError>
    where
        V: Drop,
        ensures ok { OnOk result (self.new ≡ map.insert self.old path value) }
        ensures err { OnErr result (self.new ≡ self.old) }
    {
        self.rows.insert(path, value)?;
        Ok(())
    }

    /// Takes a path out, with its value.
    pub fn remove(&mut self, path: &VfsPath) -> Option<V>
        ensures value { result ≡ map.get self.old path.now }
        ensures map { self.new ≡ map.remove self.old path.now }
    {
        self.rows.remove(path)
    }
}
