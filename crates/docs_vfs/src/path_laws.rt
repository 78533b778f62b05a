ghost use Rattle.std.specs.Prelude.{◌≡◌, ℕ, List, Some, true};
ghost use Rattle.std.specs.List.{list_all};
ghost use Rattle.docs_vfs.specs.declared.relative.EmptySegments.{EmptySegments};
ghost use Rattle.docs_vfs.specs.Paths.{is_path, is_segment, parts};
ghost use Rattle.docs_vfs.specs.Resolve.{below, resolve};

/// What a text that is taken from a path comes to is a path. Plain segments are appended to the path that they
/// are taken from, and the text of a path is that path wherever it is taken from.
pub fn resolved_texts_are_paths()
    ensures path { (empty : EmptySegments) (base text path : List ℕ)
        → is_path base ≡ true → resolve empty base text ≡ Some path → is_path path ≡ true }
    ensures appended { (empty : EmptySegments) (base text : List ℕ)
        → is_path base ≡ true → list_all is_segment (parts text) ≡ true → resolve empty base text ≡ Some (below base text) }
    ensures absolute { (empty : EmptySegments) (base text : List ℕ)
        → is_path text ≡ true → resolve empty base text ≡ Some text }
{}
