// What is true of entries whenever a key is set in them.
ghost use Rattle.std.specs.Prelude.{◌≡◌, ◌+◌, List, Option, None, Some, cond, length, is_some};
ghost use Rattle.std.specs.Int.{from_bool};
ghost use Rattle.std.specs.Ordering.{eq_by_cmp};
ghost use Rattle.std.specs.FinMap.Entries.{find};
ghost use Rattle.shared_map.specs.Entries.{IsInOrder, set_entry};

/// A key is found as it was set, and each other key as before.
pub fn a_key_is_found_as_it_was_set<K: Ord, V>()
    ensures { (q k : K) (value : Option V) (es : List (K × V)) → IsInOrder K.cmp es
        → find K.cmp q (set_entry K.cmp k value es) ≡ cond (eq_by_cmp K.cmp q k) value (find K.cmp q es) }
{}

/// A key that was set to nothing is not found.
pub fn a_removed_key_is_gone<K: Ord, V>()
    ensures { (k : K) (es : List (K × V)) → IsInOrder K.cmp es → find K.cmp k (set_entry K.cmp k None es) ≡ None }
{}

/// The keys still rise once a key is set.
pub fn keys_stay_in_order<K: Ord, V>()
    ensures { (k : K) (value : Option V) (es : List (K × V)) → IsInOrder K.cmp es → IsInOrder K.cmp (set_entry K.cmp k value es) }
{}

/// There is one entry more where the key is new, and one less where it is removed.
pub fn one_entry_more_or_less<K: Ord, V>()
    ensures { (k : K) (value : Option V) (es : List (K × V)) → IsInOrder K.cmp es
        → from_bool (is_some (find K.cmp k es)) + length (set_entry K.cmp k value es) ≡ length es + from_bool (is_some value) }
{}
