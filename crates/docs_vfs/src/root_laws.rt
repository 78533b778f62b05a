ghost use Rattle.std.specs.Prelude.{ℕ, List};
ghost use Rattle.docs_vfs.specs.declared.source_roots.Root.{Root};
ghost use Rattle.docs_vfs.specs.Roots.{root_of, parent_of};
ghost use Rattle.docs_vfs.specs.RootLaws.{IsChosen, IsParentOf};

/// A path is in the root with the longest include that holds it, of roots none of whose excludes does, and of equal
/// ones in the earlier root. The parent of a local root is the other local root with the longest include that lies
/// properly above one of its own, and of equal ones the earlier root.
pub fn the_longest_root_is_chosen()
    ensures root { (roots : List Root) (path : List ℕ) → IsChosen roots path (root_of roots path) }
    ensures parent { (roots : List Root) (at : ℕ) (child : Root)
        → IsParentOf roots at child (parent_of roots at child) }
{}
