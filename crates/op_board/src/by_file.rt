ghost use Rattle.std.specs.Prelude.{◌≡◌, OnOk, OnErr, ℕ, is_some, nat_eq};
ghost use Rattle.std.specs.Borrow.{sem};
ghost use Rattle.std.specs.Map.Iter.{ShowsInOrder, deref};
ghost use Rattle.std.specs.Option.{option_copied, option_copied_mut};
ghost use Rattle.std.specs.FinMap as map;
ghost use Rattle.op_board.specs.Lent.{lends_of_file};

use docs_vfs::FileId;
use std::alloc::{AllocError, Global};
use std::collections::BTreeMap;
use std::collections::btree_map::Keys;
use std::marker::Model;

/// Values by file, which contracts see as a finite map by the files' numbers.
pub struct ByFile<V> {
    rows: BTreeMap<u32, V>,
}

impl<V: Drop> Drop for ByFile<V> {
    fn drop(self) {
        let ByFile { rows: _ } = self;
    }
}

impl<V> Model for ByFile<V> {
    ghost use Rattle.std.specs.FinMap as map;
    ghost use Rattle.std.specs.Coded.{coded_ℕ};
    ghost use Rattle.std.specs.Ordering.{nat_cmp};

    ghost Value = { map.FinMap nat_cmp V };

    ghost coded = { map.code coded_ℕ V.code };

    ghost view = { λ a. map.from_entries a.rows.entries };
}

impl<V> ByFile<V> {
    pub fn new(alloc: Global) -> ByFile<V>
        ensures { result ≡ map.empty }
    {
        ByFile {
            rows: BTreeMap::new(alloc),
        }
    }

    pub fn is_empty(&self) -> bool
        ensures { result ≡ nat_eq (map.len self.now) 0 }
    {
        self.rows.len() == 0
    }

    pub fn get(&self, file: FileId) -> Option<&V>
        ensures { option_copied result ≡ map.get self.now file.0 }
    {
        self.rows.get(&file.0)
    }

    /// The value of a file, to be changed in its place.
    pub fn get_mut(&mut self, file: FileId) -> Option<&mut V>
        ensures* writes_back { sem 𝓛 (lends_of_file V.row self.entry file.0 result) }
        ensures value { option_copied_mut result ≡ map.get self.old file.0 }
    {
        self.rows.get_mut(&file.0)
    }

    pub fn contains(&self, file: FileId) -> bool
        ensures { result ≡ is_some (map.get self.now file.0) }
    {
        self.get(file).is_some()
    }

    /// The numbers of the files in order.
    pub fn numbers(&self) -> Keys<'_, u32, V>
        ensures rest { result ≡ map.keys self.now }
        ensures runs { ShowsInOrder (deref {X = ℕ}) }
    {
        self.rows.keys()
    }

    pub fn insert(&mut self, file: FileId, value: V) -> Result<(), AllocError>
    where
        V: Drop,
        ensures ok { OnOk result (self.new ≡ map.insert self.old file.0 value) }
        ensures err { OnErr result (self.new ≡ self.old) }
    {
        self.rows.insert(file.0, value)?;
        Ok(())
    }
}
