ghost use Rattle.std.specs.Prelude.{◌==◌, ◌≡◌, length, true, nat_eq, refl, Some, IfOk, IfSome, IsUtf8, codes, string_bytes};
ghost use Rattle.std.specs.Option.{option_copied, option_and_then};
ghost use Rattle.std.specs.Ordering.{nat_cmp};
ghost use Rattle.std.specs.Hash as fed;
ghost use Rattle.std.specs.Cmp.Lexicographic.{pointwise, slice_cmp, nat_list_eq_equiv, nat_list_cmp_total, texts_ties, texts_po, bytes_decides};
ghost use Rattle.std.specs.Cmp.{partial_equiv_from_equiv};
ghost use Rattle.std.specs.Cmp.Rules.{hashing};
ghost use Rattle.std.proofs.Common.{rules};
ghost use Rattle.docs_vfs.specs.Paths.{is_path, path_from, name_of, extension_of, parent_of, is_within};
ghost use Rattle.docs_vfs.specs.Resolve.{below, is_name, resolve};

use crate::path_text::{begins_with_folder_text, cut_at_last_slash, extension_text, is_path_text};
use crate::relative::{
    EmptySegments, front_text, is_name_text, parent_text, push_segment, walk_from,
};
use plain::{DecidableEq, ExactClone, TextKey};
use std::alloc::{AllocError, Global};
use std::cmp::Ordering;
use std::hash::{Hash, Hasher};
use std::marker::Model;
use std::sync::Arc;

/// The path of a file: `/`, or segments that each follow a `/`. Clones share its text.
pub struct VfsPath {
    text: Arc<String, Global>,
}

impl Drop for VfsPath {
    fn drop(self) {
        let VfsPath { text: _ } = self;
    }
}

impl Model for VfsPath {
    ghost use Rattle.std.specs.Prelude.{◌≡◌, ℕ, List, true, string_bytes};
    ghost use Rattle.std.specs.Arc.{arc_value};
    ghost use Rattle.docs_vfs.specs.Paths.{is_path};

    ghost Value = { List ℕ };

    ghost view = { λ p. string_bytes (arc_value p.text) };

    ghost invariant = { λ p. is_path (string_bytes (arc_value p.text)) ≡ true };
}

impl VfsPath {
    /// A text that is a path.
    pub(crate) fn from_string(text: String) -> Result<VfsPath, AllocError>
        requires { is_path (string_bytes text) ≡ true }
        ensures { IfOk result (λ path. path ≡ string_bytes text) }
    {
        let alloc = *text.allocator();
        Ok(VfsPath {
            text: Arc::new(alloc, text)?,
        })
    }

    /// A copy of a text that is a path.
    pub(crate) fn from_str(alloc: Global, text: &str) -> Result<VfsPath, AllocError>
        requires { is_path text.now ≡ true }
        ensures { IfOk result (λ path. path ≡ text.now) }
    {
        VfsPath::from_string(String::from_str(alloc, text)?)
    }

    /// The path with this text, or none where the text is no path.
    pub fn new(alloc: Global, text: &str) -> Result<Option<VfsPath>, AllocError>
        ensures { IfOk result (λ path. path ≡ path_from text.now) }
    {
        if !is_path_text(text) {
            return Ok(None);
        }
        Ok(Some(VfsPath::from_str(alloc, text)?))
    }

    /// The path `/`.
    #[tactic(auto, unfolding(crate::specs::Paths::is_path))]
    pub fn root(alloc: Global) -> Result<VfsPath, AllocError>
        ensures { IfOk result (λ path. path ≡ codes "/") }
    {
        VfsPath::from_str(alloc, "/")
    }

    /// Whether a text may be one segment of a path.
    pub fn is_name(text: &str) -> bool
        ensures { result ≡ is_name text.now }
    {
        is_name_text(text)
    }

    /// The allocator that the text was made with.
    fn alloc(&self) -> Global {
        let text: &String = &self.text;
        *text.allocator()
    }

    pub fn as_str(&self) -> &str
        ensures value { result.now ≡ self.now }
        ensures path { is_path self.now ≡ true }
        ensures utf8 { IsUtf8 self.now }
    {
        let text: &String = &self.text;
        text.as_str()
    }

    /// A copy of the text.
    pub(crate) fn to_text(&self) -> Result<String, AllocError>
        ensures text { IfOk result (λ text. string_bytes text ≡ self.now) }
        ensures path { is_path self.now ≡ true }
    {
        String::from_str(self.alloc(), self.as_str())
    }

    /// Whether this is `/`.
    pub fn is_root(&self) -> bool
        ensures { result ≡ (length self.now == 1) }
    {
        self.as_str().len() == 1
    }

    /// The last segment.
    pub fn file_name(&self) -> Option<&str>
        ensures { option_copied result ≡ name_of self.now }
    {
        if self.is_root() {
            return None;
        }
        let (_folder, name) = cut_at_last_slash(self.as_str())?;
        Some(name)
    }

    /// What follows the last dot of the last segment that isn't its first byte.
    pub fn extension(&self) -> Option<&str>
        ensures { option_copied result ≡ option_and_then extension_of (name_of self.now) }
    {
        extension_text(self.file_name()?)
    }

    /// The text of the path without its last segment.
    pub fn parent_str(&self) -> Option<&str>
        ensures value { option_copied result ≡ parent_of self.now }
        ensures path { IfSome (option_copied result) (λ parent. is_path parent ≡ true) }
    {
        parent_text(self.as_str())
    }

    /// The path without its last segment.
    pub fn parent(&self, alloc: Global) -> Result<Option<VfsPath>, AllocError>
        ensures { IfOk result (λ parent. parent ≡ parent_of self.now) }
    {
        match self.parent_str() {
            None => Ok(None),
            Some(parent) => Ok(Some(VfsPath::from_str(alloc, parent)?)),
        }
    }

    /// The path with one segment more.
    pub fn join(&self, segment: &str) -> Result<VfsPath, AllocError>
        requires { is_name segment.now ≡ true }
        ensures { IfOk result (λ path. path ≡ below self.now segment.now) }
    {
        let mut text = String::from_str(self.alloc(), front_text(self.as_str()))?;
        push_segment(&mut text, segment)?;
        VfsPath::from_string(text)
    }

    /// The path that a text is: taken from `/` where it begins with a slash, else from this path, with `.` and
    /// `..` resolved. None where it leads above `/`, or has a segment that can't stand in a path.
    #[tactic(auto, unfolding(crate::specs::Resolve::resolve, crate::specs::Paths::is_path))]
    pub fn resolve(&self, text: &str, empty: EmptySegments) -> Result<Option<VfsPath>, AllocError>
        ensures { IfOk result (λ path. path ≡ resolve empty self.now text.now) }
    {
        match text.strip_prefix('/') {
            None => walk_from(self.alloc(), self.as_str(), text, empty),
            Some(rest) => {
                if rest.is_empty() {
                    Ok(Some(VfsPath::root(self.alloc())?))
                } else {
                    walk_from(self.alloc(), "/", rest, empty)
                }
            }
        }
    }

    /// Whether the base is this path or a folder above it.
    pub fn starts_with(&self, base: &VfsPath) -> bool
        ensures { result ≡ is_within base.now self.now }
    {
        begins_with_folder_text(self.as_str(), base.as_str())
    }
}

impl Clone for VfsPath {
    ghost is_clone = { λ path copy. copy ≡ path };

    fn clone(&self) -> Result<VfsPath, AllocError> {
        Ok(VfsPath {
            text: Arc::try_clone(&self.text)?,
        })
    }
}

impl ExactClone for VfsPath {
    ghost copies = { λ x y h. h };
}

impl PartialEq for VfsPath {
    ghost eq = { pointwise nat_eq };

    ghost laws = { partial_equiv_from_equiv nat_list_eq_equiv };

    fn eq(&self, other: &VfsPath) -> bool {
        self.as_str() == other.as_str()
    }
}

impl Eq for VfsPath {
    ghost laws = { nat_list_eq_equiv };
}

impl DecidableEq for VfsPath {
    ghost decides = { bytes_decides };
}

impl PartialOrd for VfsPath {
    ghost partial_cmp = { λ x y. Some (slice_cmp nat_cmp x y) };

    ghost laws = { texts_po };

    fn partial_cmp(&self, other: &VfsPath) -> Option<Ordering> {
        Some(self.cmp(other))
    }
}

impl Ord for VfsPath {
    ghost cmp = { slice_cmp nat_cmp };

    ghost total = { nat_list_cmp_total };

    ghost matches_partial_cmp = { λ x y. refl };

    ghost matches_eq = { texts_ties };

    fn cmp(&self, other: &VfsPath) -> Ordering {
        self.as_str().cmp(other.as_str())
    }
}

impl TextKey for VfsPath {
    ghost text = { λ p. p };

    ghost in_order = { λ x y. refl };
}

impl Hash for VfsPath {
    ghost hash_input = { fed.str };

    ghost respects_eq = { Prim.search (hashing, rules) };

    fn hash<H: Hasher>(&self, state: &mut H) {
        self.as_str().hash(state);
    }
}
