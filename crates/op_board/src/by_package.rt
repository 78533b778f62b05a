ghost use Rattle.std.specs.Prelude.{◌≡◌, OnOk, nat_eq};
ghost use Rattle.std.specs.Borrow.{sem};
ghost use Rattle.std.specs.Map.Iter.{ShowsInOrder, deref};
ghost use Rattle.std.specs.Option.{option_copied, option_copied_mut};
ghost use Rattle.std.specs.FinMap as map;
ghost use Rattle.op_board.specs.Checks.{older_than, kept};
ghost use Rattle.op_board.specs.Lent.{lends_of_package};

use crate::check_package::CheckPackage;
use crate::clearing::is_older;
use plain::Text;
use std::alloc::{AllocError, Global};
use std::collections::BTreeMap;
use std::collections::btree_map::Values;
use std::marker::Model;

/// Values by the name of a package, or by none, which contracts see as a finite map.
pub struct ByPackage<V> {
    rows: BTreeMap<Option<Text>, V>,
}

impl<V: Drop> Drop for ByPackage<V> {
    fn drop(self) {
        let ByPackage { rows: _ } = self;
    }
}

impl<V> Model for ByPackage<V> {
    ghost use Rattle.std.specs.FinMap as map;
    ghost use Rattle.std.specs.Coded.{coded_ℕ, coded_list, coded_option};
    ghost use Rattle.op_board.specs.Packages.{package_cmp};

    ghost Value = { map.FinMap package_cmp V };

    ghost coded = { map.code (coded_option (coded_list coded_ℕ)) V.code };

    ghost view = { λ a. map.from_entries a.rows.entries };
}

impl<V> ByPackage<V> {
    pub fn new(alloc: Global) -> ByPackage<V>
        ensures { result ≡ map.empty }
    {
        ByPackage {
            rows: BTreeMap::new(alloc),
        }
    }

    pub fn is_empty(&self) -> bool
        ensures { result ≡ nat_eq (map.len self.now) 0 }
    {
        self.rows.len() == 0
    }

    pub fn get(&self, name: &Option<Text>) -> Option<&V>
        ensures { option_copied result ≡ map.get self.now name.now }
    {
        self.rows.get(name)
    }

    /// The value of a package, to be changed in its place.
    pub fn get_mut(&mut self, name: &Option<Text>) -> Option<&mut V>
        ensures* writes_back { sem 𝓛 (lends_of_package V.row self.entry name.now result) }
        ensures value { option_copied_mut result ≡ map.get self.old name.now }
    {
        self.rows.get_mut(name)
    }

    /// The values in the order of their packages.
    pub fn values(&self) -> Values<'_, Option<Text>, V>
        ensures rest { result ≡ map.values self.now }
        ensures runs { ShowsInOrder (deref {X = V}) }
    {
        self.rows.values()
    }

    pub fn insert(&mut self, name: Option<Text>, value: V) -> Result<(), AllocError>
    where
        V: Drop,
        ensures { OnOk result (self.new ≡ map.insert self.old name value) }
    {
        self.rows.insert(name, value)?;
        Ok(())
    }

    pub fn remove(&mut self, name: &Option<Text>)
    where
        V: Drop,
        ensures { self.new ≡ map.remove self.old name.now }
    {
        let _ = self.rows.remove(name);
    }
}

impl ByPackage<CheckPackage> {
    /// Keeps the packages that are of this generation or newer.
    pub fn drop_older(&mut self, generation: u64)
        ensures { self.new ≡ kept (older_than generation) self.old }
    {
        self.rows.retain(|_package, row| !is_older(row, generation));
    }
}
