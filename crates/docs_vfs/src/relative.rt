ghost use Rattle.std.specs.Prelude.{◌≡◌, ◌++◌, ◌∷◌, true, length, ◌<◌, MatchOption, IfOk, IfSome, OnOk, IsTrue, string_bytes, if◌then◌else◌};
ghost use Rattle.std.specs.List.{list_any, before_last};
ghost use Rattle.std.specs.Option.{option_copied};
ghost use Rattle.docs_vfs.specs.Paths.{is_slash, is_path, parent_of, parts};
ghost use Rattle.docs_vfs.specs.Resolve.{front, is_name, drops, stays, step, walk};
ghost use Rattle.docs_vfs.specs.Fronts.{whole, IsFront, IsFolderOf, Reaches};

use crate::path::VfsPath;
use crate::path_text::{cut_at_last_slash, has_slash_text, is_segment_text};
use std::alloc::{AllocError, Global};

/// What becomes of the empty segments of a text.
#[derive(Clone, Copy, Debug, PartialEq, Eq, PartialOrd, Ord, Hash)]
pub enum EmptySegments {
    /// A text that has one is no path.
    Refused,
    /// They are left out.
    Dropped,
}

/// Whether a text may be one segment.
pub(crate) fn is_name_text(text: &str) -> bool
    ensures { result ≡ is_name text.now }
{
    is_segment_text(text) && !has_slash_text(text)
}

/// A path as it stands before a slash.
pub(crate) fn front_text(path: &str) -> &str
    ensures { result.now ≡ front path.now }
{
    if path.len() == 1 { "" } else { path }
}

/// The path before whose next slash a text stands.
pub(crate) fn whole_text(text: &str) -> &str
    ensures { result.now ≡ whole text.now }
{
    if text.is_empty() { "/" } else { text }
}

/// The folder that a path lies in, unless it is `/`.
pub(crate) fn folder_above(path: &str) -> Option<&str>
    requires { is_path path.now ≡ true }
    ensures { MatchOption result (length path.now ≡ 1)
        (λ folder. IsFolderOf folder.now path.now × (length folder.now < length path.now)) }
{
    if path.len() == 1 {
        return None;
    }
    let (folder, _name) = cut_at_last_slash(path)?;
    Some(whole_text(folder))
}

/// The text of a path without its last segment; `/` has none.
pub fn parent_text(path: &str) -> Option<&str>
    requires { is_path path.now ≡ true }
    ensures value { option_copied result ≡ parent_of path.now }
    ensures path { IfSome (option_copied result) (λ parent. is_path parent ≡ true) }
{
    folder_above(path)
}

/// Whether empty segments are left out.
fn are_dropped(empty: EmptySegments) -> bool
    ensures { result ≡ drops empty }
{
    match empty {
        EmptySegments::Refused => false,
        EmptySegments::Dropped => true,
    }
}

/// Whether a segment leads nowhere.
fn is_staying(segment: &str, empty: EmptySegments) -> bool
    ensures { result ≡ stays empty segment.now }
{
    segment == "." || (are_dropped(empty) && segment.is_empty())
}

/// Adds a segment.
pub(crate) fn push_segment(text: &mut String, segment: &str) -> Result<(), AllocError>
    ensures { OnOk result (string_bytes text.new ≡ string_bytes text.old ++ 47 ∷ segment.now) }
{
    text.push_str("/")?;
    text.push_str(segment)
}

/// Takes the last segment away, and answers whether there was one.
fn pop_segment(text: &mut String) -> bool
    ensures some { result ≡ list_any is_slash (string_bytes text.old) }
    ensures cut { string_bytes text.new
        ≡ (if result then before_last is_slash (string_bytes text.old) else string_bytes text.old) }
{
    match cut_at_last_slash(text.as_str()) {
        None => false,
        Some((folder, _name)) => {
            let end = folder.len();
            text.truncate(end);
            true
        }
    }
}

/// Takes one segment, and answers whether that leads to a path.
fn take_segment(text: &mut String, segment: &str, empty: EmptySegments) -> Result<bool, AllocError>
    requires { IsFront (string_bytes text.old) }
    ensures { IfOk result (λ taken. Reaches taken (step empty (whole (string_bytes text.old)) segment.now) (string_bytes text.new)) }
{
    if is_staying(segment, empty) {
        return Ok(true);
    }
    if segment == ".." {
        return Ok(pop_segment(text));
    }
    if !is_name_text(segment) {
        return Ok(false);
    }
    push_segment(text, segment)?;
    Ok(true)
}

/// Takes what stands between the slashes of a text, and answers whether that leads to a path.
#[tactic(auto, using(crate::proofs::Walks::walk_more))]
fn take_segments(
    text: &mut String,
    segments: &str,
    empty: EmptySegments,
) -> Result<bool, AllocError>
    requires { IsFront (string_bytes text.old) }
    ensures { IfOk result (λ taken. Reaches taken (walk empty (whole (string_bytes text.old)) (parts segments.now)) (string_bytes text.new)) }
{
    for segment in segments.split('/') {
        if !take_segment(text, segment, empty)? {
            return Ok(false);
        }
    }
    Ok(true)
}

/// The path that these segments lead to from a base.
pub(crate) fn walk_from(
    alloc: Global,
    base: &str,
    segments: &str,
    empty: EmptySegments,
) -> Result<Option<VfsPath>, AllocError>
    requires { is_path base.now ≡ true }
    ensures { IfOk result (λ path. path ≡ walk empty base.now (parts segments.now)) }
{
    let mut text = String::from_str(alloc, front_text(base))?;
    if !take_segments(&mut text, segments, empty)? {
        return Ok(None);
    }
    if text.as_str().is_empty() {
        return Ok(Some(VfsPath::root(alloc)?));
    }
    Ok(Some(VfsPath::from_string(text)?))
}
