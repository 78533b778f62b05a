// What the tests share. Nothing is claimed of it. Each call answers none also where memory runs out, or less than a test wants.
ghost use Rattle.std.specs.Prelude.{◌≡◌, true, Some};
ghost use Rattle.file_ids.specs.Numbers.{IsFree};

use analysis_host::{AnalysisHost, Change, FileChange, TextEntry};
use docs_vfs::{FileId, VfsPath};
use file_ids::FileIds;
use plain::{Items, Json, Text};
use std::alloc::Global;
use text_core::{LineEndings, SharedText};

/// Adds words to a text.
pub fn add(text: &mut String, more: &str) {
    let _ = text.push_str(more);
}

pub fn text_of(alloc: Global, words: &str) -> Option<Text> {
    Text::from_str(alloc, words).ok()
}

/// The value that a text is.
pub fn json(alloc: Global, text: &str) -> Option<Json> {
    Json::read(alloc, text.as_bytes()).ok()?
}

pub fn path_at(alloc: Global, text: &str) -> Option<VfsPath> {
    VfsPath::new(alloc, text).ok()?
}

/// A list of one item.
pub fn one<T: Drop>(alloc: Global, item: T) -> Items<T> {
    let mut list = Items::new(alloc);
    let _ = list.push(item);
    list
}

/// The copy of a value that is let go.
pub fn copied<T: Clone + Drop>(value: T) -> Option<T> {
    let copy = value.clone().ok();
    drop(value);
    copy
}

/// Whether no path but this one has the number.
pub fn is_free(ids: &FileIds, path: &VfsPath, file: FileId) -> bool
    ensures { result ≡ true → IsFree path.now (Some file) ids.now }
{
    match ids.path_of(file) {
        Some(other) => *other == *path,
        None => true,
    }
}

/// A text with its lines, or none where it is too long for one.
pub fn shared_text(alloc: Global, text: &str) -> Option<SharedText> {
    let text = Text::from_str(alloc, text).ok()?;
    if text.len() > u32::MAX as usize {
        return None;
    }
    SharedText::new(alloc, text).ok()
}

/// What worlds keep of a file with this text, or none where that is `-`.
pub fn entry_of(alloc: Global, text: &str) -> Option<TextEntry> {
    if text == "-" {
        return None;
    }
    let text = shared_text(alloc, text)?;
    Some(TextEntry {
        text,
        endings: LineEndings::Unix,
    })
}

/// The change that sets the text of a path.
pub fn change_with(alloc: Global, path: &str, text: &str) -> Change {
    let mut files = Items::new(alloc);
    if let Some(path) = path_at(alloc, path) {
        let entry = entry_of(alloc, text);
        let _ = files.push(FileChange { path, entry });
    }
    Change::files_only(files)
}

/// A host with a text at a path.
pub fn host_with(alloc: Global, path: &str, text: &str) -> Option<AnalysisHost> {
    let mut host = AnalysisHost::new(alloc).ok()?;
    let is_made = host.apply_change(change_with(alloc, path, text)).is_ok();
    if is_made { Some(host) } else { None }
}
