//! Whether two values are equal, for types that have no `==`.
ghost use Rattle.std.specs.Prelude.{◌≡◌, ◌↔◌, IsTrue};

use crate::crates::CrateEntry;
use crate::package::{Package, Target};
use docs_vfs::Root;
use plain::is_same;

/// A type whose values can be told apart.
pub(crate) trait Same {
    /// Whether the values are equal.
    fn same(&self, other: &Self) -> bool
        ensures { IsTrue result ↔ (self.now ≡ other.now) };
}

/// Whether the lists are equal.
pub(crate) fn are_same<T: Same>(a: &[T], b: &[T]) -> bool
    ensures { IsTrue result ↔ (a.now ≡ b.now) }
{
    if a.len() != b.len() {
        return false;
    }
    for (x, y) in a.iter().zip(b) {
        if !x.same(y) {
            return false;
        }
    }
    true
}

impl Same for Root {
    fn same(&self, other: &Root) -> bool {
        is_same(&self.include, &other.include)
            && is_same(&self.exclude, &other.exclude)
            && self.is_local == other.is_local
    }
}

impl Same for Target {
    fn same(&self, other: &Target) -> bool {
        is_same(&self.name, &other.name)
            && self.kind == other.kind
            && is_same(&self.root, &other.root)
            && is_same(&self.required_features, &other.required_features)
    }
}

impl Same for Package {
    fn same(&self, other: &Package) -> bool {
        is_same(&self.id, &other.id)
            && is_same(&self.manifest, &other.manifest)
            && are_same(self.targets.as_slice(), other.targets.as_slice())
            && is_same(&self.features, &other.features)
            && is_same(&self.member_deps, &other.member_deps)
    }
}

impl Same for CrateEntry {
    fn same(&self, other: &CrateEntry) -> bool {
        is_same(&self.root, &other.root)
            && is_same(&self.name, &other.name)
            && is_same(&self.deps, &other.deps)
            && self.is_proc_macro == other.is_proc_macro
    }
}
