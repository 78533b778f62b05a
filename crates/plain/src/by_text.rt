ghost use Rattle.std.specs.Prelude.{◌≡◌, ◌↔◌, ℕ, List, map as each, [], ◌∷◌, OnOk, OnErr, IfOk, IsTrue, MatchOption, is_some, if◌then◌else◌};
ghost use Rattle.std.specs.Borrow.{sem};
ghost use Rattle.std.specs.Map.Iter.{ShowsInOrder, deref};
ghost use Rattle.std.specs.Option.{option_copied, option_copied_mut};
ghost use Rattle.std.specs.FinMap as map;
ghost use Rattle.plain.specs.LentByText.{lends_at};

use crate::NoMemory;
use crate::exact_clone::ExactClone;
use crate::text_key::TextKey;
use std::alloc::Global;
use std::collections::BTreeMap;
use std::collections::btree_map::{Keys, Values};
use std::marker::Model;

/// Values by keys that stand for texts, which contracts see as a finite map from the texts.
pub struct ByText<K: TextKey, V> {
    rows: BTreeMap<K, V>,
}

impl<K: TextKey + Drop, V: Drop> Drop for ByText<K, V> {
    fn drop(self) {
        let ByText { rows: _ } = self;
    }
}

impl<K: TextKey, V> Model for ByText<K, V> {
    ghost use Rattle.std.specs.FinMap as map;
    ghost use Rattle.std.specs.Coded.{coded_ℕ, coded_list};
    ghost use Rattle.plain.specs.Texts.{text_cmp, by_texts};

    ghost Value = { map.FinMap text_cmp V };

    ghost coded = { map.code (coded_list coded_ℕ) V.code };

    ghost view = { λ a. map.from_entries (by_texts K.text a.rows.entries) };
}

impl<K: TextKey, V> ByText<K, V> {
    /// A map with nothing in it.
    pub fn new(alloc: Global) -> ByText<K, V>
        ensures { result ≡ map.empty }
    {
        ByText {
            rows: BTreeMap::new(alloc),
        }
    }

    pub fn len(&self) -> usize
        ensures { result ≡ map.len self.now }
    {
        self.rows.len()
    }

    pub fn is_empty(&self) -> bool
        ensures { IsTrue result ↔ (self.now ≡ map.empty) }
    {
        self.len() == 0
    }

    pub fn get(&self, key: &K) -> Option<&V>
        ensures { option_copied result ≡ map.get self.now (K.text key.now) }
    {
        self.rows.get(key)
    }

    /// The value at a key, to be changed in its place.
    pub fn get_mut(&mut self, key: &K) -> Option<&mut V>
        ensures* writes_back { sem 𝓛 (lends_at K.row V.row K.TextKey self.entry (K.text key.now) result) }
        ensures value { option_copied_mut result ≡ map.get self.old (K.text key.now) }
    {
        self.rows.get_mut(key)
    }

    /// The keys in order.
    pub fn keys(&self) -> Keys<'_, K, V>
        ensures rest { each K.text result ≡ map.keys self.now }
        ensures runs { ShowsInOrder (deref {X = K}) }
    {
        self.rows.keys()
    }

    /// The values in the order of their keys.
    pub fn values(&self) -> Values<'_, K, V>
        ensures rest { result ≡ map.values self.now }
        ensures runs { ShowsInOrder (deref {X = V}) }
    {
        self.rows.values()
    }

    pub fn contains(&self, key: &K) -> bool
        ensures { result ≡ is_some (map.get self.now (K.text key.now)) }
    {
        self.get(key).is_some()
    }

    /// Puts a value at a key, and answers the one that was there.
    pub fn insert(&mut self, key: K, value: V) -> Result<Option<V>, NoMemory>
    where
        K: Drop,
        V: Drop,
        ensures old { IfOk result (λ old. old ≡ map.get self.old (K.text key)) }
        ensures ok { OnOk result (self.new ≡ map.insert self.old (K.text key) value) }
        ensures err { OnErr result (self.new ≡ self.old) }
    {
        Ok(self.rows.insert(key, value)?)
    }

    /// Puts a value at a key that has none, by one search. A key that has one keeps it.
    pub fn insert_new(&mut self, key: K, value: V) -> Result<(), NoMemory>
    where
        K: Drop,
        V: Drop,
        ensures ok { OnOk result (self.new ≡ (if is_some (map.get self.old (K.text key)) then self.old else map.insert self.old (K.text key) value)) }
        ensures err { OnErr result (self.new ≡ self.old) }
    {
        self.rows.entry(key)?.or_insert(value);
        Ok(())
    }

    pub fn remove(&mut self, key: &K) -> Option<V>
    where
        K: Drop,
        ensures value { result ≡ map.get self.old (K.text key.now) }
        ensures map { self.new ≡ map.remove self.old (K.text key.now) }
    {
        let _in_order = self.rows.len();
        self.rows.remove(key)
    }

    /// Takes the first key out, with its value.
    pub fn pop_first(&mut self) -> Option<(K, V)>
        ensures { MatchOption result ((map.entries self.old ≡ []) × (map.entries self.new ≡ []))
            (λ first. map.entries self.old ≡ (K.text first.0, first.1) ∷ map.entries self.new) }
    {
        let _in_order = self.rows.len();
        self.rows.pop_first()
    }
}

impl<K: TextKey + ExactClone + Drop, V: ExactClone + Drop> Clone for ByText<K, V> {
    ghost is_clone = { λ m copy. copy ≡ m };

    fn clone(&self) -> Result<ByText<K, V>, NoMemory> {
        Ok(ByText {
            rows: self.rows.clone()?,
        })
    }
}

impl<K: TextKey + ExactClone + Drop, V: ExactClone + Drop> ExactClone for ByText<K, V> {
    ghost copies = { λ x y h. h };
}
