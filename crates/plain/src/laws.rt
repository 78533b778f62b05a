// Laws of the definitions that contracts cite.
ghost use Rattle.std.specs.Prelude.{◌≡◌, Bool, List};
ghost use Rattle.std.specs.Cmp.{IsStrictWeakOrder};
ghost use Rattle.std.specs.List.Sorted.{IsSortedBy, IsStableBy, IsPermutation};
ghost use Rattle.plain.specs.Order.{in_order_by};

/// The stable order of a list is in order, has the list's items, and those that tie in their old order; and no other
/// list is in order and has those that tie so.
pub fn lists_have_a_stable_order<T>()
    ensures in_order { (lt : T → T → Bool) → IsStrictWeakOrder lt → (xs : List T)
        → IsSortedBy lt (in_order_by lt xs) }
    ensures items { (lt : T → T → Bool) → (xs : List T) → IsPermutation xs (in_order_by lt xs) }
    ensures stable { (lt : T → T → Bool) → IsStrictWeakOrder lt → (xs : List T)
        → IsStableBy lt xs (in_order_by lt xs) }
    ensures only { (lt : T → T → Bool) → IsStrictWeakOrder lt → (xs ys : List T) → IsSortedBy lt ys
        → IsStableBy lt xs ys → ys ≡ in_order_by lt xs }
{}
