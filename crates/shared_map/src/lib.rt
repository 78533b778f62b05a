//! A map whose copies share what they have in common.
#![tactic(auto)]

ghost use Rattle.std.specs.Prelude.{◌≡◌, [], length, map, IfOk, OnOk, OnErr, option_copied, ◌↔◌, true};
ghost use Rattle.std.specs.Map.Iter.{deref};
ghost use Rattle.std.specs.FinMap.Entries.{find};
ghost use Rattle.shared_map.specs.Costs.{IsQuick};
ghost use Rattle.shared_map.specs.Entries.{IsInOrder, set_entry};

use crate::tree::Tree;
use std::alloc::{AllocError, Global};
use std::marker::Model;
use std::mem;
use std::sync::ledger::Ledger;

mod change;
mod laws;
mod tree;

pub use laws::{
    a_key_is_found_as_it_was_set, a_removed_key_is_gone, keys_stay_in_order, one_entry_more_or_less,
};
use plain::ExactClone;
pub use plain::Steps;

/// Values by key, seen as the entries in the order of their keys. A clone is the same tree, and no change of a map is
/// seen in its clones: `set` answers another map, `put` and `take` change this one.
pub struct SharedMap<K: Ord, V> {
    tree: Tree<K, V>,
    len: u64,
    alloc: Global,
}

impl<K: Ord + Drop, V: Drop> Drop for SharedMap<K, V> {
    fn drop(self) {
        let SharedMap {
            tree: _,
            len: _,
            alloc: _,
        } = self;
    }
}

impl<K: Ord, V> Model for SharedMap<K, V> {
    ghost use Rattle.std.specs.Prelude.{◌≡◌, List, length};
    ghost use Rattle.shared_map.specs.Entries.{IsInOrder};

    ghost Value = { List (K × V) };

    ghost view = { λ m. m.tree.0 };

    ghost invariant = { λ m. record { order : IsInOrder K.cmp m.tree.0; len : m.len ≡ length m.tree.0 } };
}

impl<K: Ord, V> SharedMap<K, V> {
    /// A map with nothing in it.
    pub fn new(alloc: Global) -> SharedMap<K, V>
        ensures { result ≡ [] }
    {
        SharedMap {
            tree: Tree::empty(),
            len: 0,
            alloc,
        }
    }

    pub fn len(&self) -> u64
        ensures len { result ≡ length self.now }
        ensures order { IsInOrder K.cmp self.now }
    {
        self.len
    }

    pub fn is_empty(&self) -> bool
        ensures { result ≡ true ↔ (self.now ≡ []) }
    {
        self.len == 0
    }

    pub fn get(&self, key: &K) -> Option<&V>
        ensures { option_copied result ≡ find K.cmp key.now self.now }
    {
        self.tree.get(key)
    }

    /// The map with the value at the key, or with none at it. This one stays as it is, and the new one shares all
    /// nodes with it but those on the way to the key. Each step is one node that is read. A map of
    /// 18,446,744,073,709,551,615 entries is as one that memory has no room for.
    pub fn set<L: Ledger>(
        &self,
        key: K,
        value: Option<V>,
        steps: &mut Steps<L>,
    ) -> Result<SharedMap<K, V>, AllocError>
    where
        K: ExactClone + Drop,
        V: ExactClone + Drop,
        ensures ok { IfOk result (λ map. map ≡ set_entry K.cmp key value self.now) }
        ensures cost { IsQuick (length self.now) steps.old steps.new }
    {
        let mut map = self.clone()?;
        map.put(key, value, steps)?;
        Ok(map)
    }

    /// The map itself, which leaves an empty one.
    pub fn take(&mut self) -> SharedMap<K, V>
        ensures value { result ≡ self.old }
        ensures after { self.new ≡ [] }
    {
        mem::replace(self, SharedMap::new(self.alloc))
    }

    /// What it is made of.
    fn into_parts(self) -> (Tree<K, V>, u64, Global)
        ensures tree { result.0.0 ≡ self }
        ensures order { IsInOrder K.cmp result.0.0 }
        ensures len { result.1 ≡ length result.0.0 }
    {
        let SharedMap { tree, len, alloc } = self;
        (tree, len, alloc)
    }

    /// Sets the value at the key, or none at it, in this map. Nodes that other maps share are copied on the way to
    /// the key, all others stay this map's own. Each step is one node that is read. Without memory, which a map of
    /// 18,446,744,073,709,551,615 entries counts as, the map is empty.
    #[tactic(auto, using(crate::proofs::Depth::shallow))]
    pub fn put<L: Ledger>(
        &mut self,
        key: K,
        value: Option<V>,
        steps: &mut Steps<L>,
    ) -> Result<(), AllocError>
    where
        K: ExactClone + Drop,
        V: ExactClone + Drop,
        ensures ok { OnOk result (self.new ≡ set_entry K.cmp key value self.old) }
        ensures err { OnErr result (self.new ≡ []) }
        ensures cost { IsQuick (length self.old) steps.old steps.new }
    {
        let (mut tree, len, alloc) = self.take().into_parts();
        if len == u64::MAX {
            return Err(AllocError);
        }
        let _height = tree.height();
        let given = value.is_some();
        let found = change::put(&mut tree, alloc, key, value, steps)?;
        let len = len + u64::from(given) - u64::from(found);
        let changed = SharedMap { tree, len, alloc };
        *self = changed;
        Ok(())
    }

    /// The entries in the order of their keys.
    pub fn entries(&self) -> Result<Vec<&(K, V)>, AllocError>
        ensures { IfOk result (λ entries. map deref entries.items ≡ self.now) }
    {
        let mut entries = Vec::new(self.alloc);
        self.tree.push_entries(&mut entries)?;
        Ok(entries)
    }
}

impl<K: Ord + Drop, V: Drop> Clone for SharedMap<K, V> {
    ghost is_clone = { λ map copy. copy ≡ map };

    fn clone(&self) -> Result<SharedMap<K, V>, AllocError> {
        Ok(SharedMap {
            tree: self.tree.twin()?,
            len: self.len,
            alloc: self.alloc,
        })
    }
}
