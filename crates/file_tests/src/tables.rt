// Documents, contents and numbers by path, and bytes that are shared.
use crate::calls::{copied, is_free, path_at, shared_text, text_of};
use docs_vfs::{DocumentData, FileExcluded, FileId, FileTable, MemDocs, SharedBytes, VfsPath};
use file_ids::FileIds;
use plain::Bytes;
use std::alloc::Global;

fn document(alloc: Global) -> Option<DocumentData> {
    Some(DocumentData {
        version: 7,
        text: text_of(alloc, "a")?,
    })
}

/// Puts a copy of a document, and answers whether none was there.
fn put(alloc: Global, docs: &mut MemDocs, path: &VfsPath) -> Option<bool> {
    let path = path.clone().ok()?;
    let document = copied(document(alloc)?)?;
    Some(docs.insert(path, document).ok()?.is_ok())
}

/// Whether a document is open, also in a copy of the table.
fn is_open(alloc: Global, docs: &mut MemDocs) -> Option<bool> {
    let path = path_at(alloc, "/a")?;
    let is_new = put(alloc, docs, &path);
    let copy = docs.clone().ok()?;
    let is_copied = copy.contains(&path);
    drop(copy);
    Some(is_new? && is_copied)
}

/// Whether a document is opened in a new table.
pub fn opens(alloc: Global) -> Option<bool> {
    let mut docs = MemDocs::new(alloc);
    let is_open = is_open(alloc, &mut docs);
    drop(docs);
    is_open
}

/// Bytes that are no text.
fn bytes(alloc: Global) -> Option<Bytes> {
    Bytes::from_slice(alloc, &[0xff]).ok()
}

/// Whether contents are set at a path, and then a text that is shared.
fn sets(alloc: Global, table: &mut FileTable) -> Option<bool> {
    let path = path_at(alloc, "/a")?;
    let contents = Some(bytes(alloc)?);
    let is_set = table.set_contents(path.clone().ok()?, contents).ok()?;
    let shared = Some(SharedBytes::of_text(shared_text(alloc, "b")?));
    let is_shared = table.set_shared(path.clone().ok()?, shared).ok()?;
    Some(is_set && is_shared)
}

/// Whether contents are added at `/`, which has none.
fn adds(alloc: Global, table: &mut FileTable) -> Option<bool> {
    let path = VfsPath::root(alloc).ok()?;
    let shared = SharedBytes::new(alloc, bytes(alloc)?).ok()?;
    Some(table.add_shared(&path, Some(shared)).ok()?.changed)
}

/// Whether a table takes contents in each way.
pub fn takes_contents(alloc: Global) -> Option<bool> {
    let mut table = FileTable::new(alloc);
    let set = sets(alloc, &mut table);
    let added = adds(alloc, &mut table);
    drop(table);
    Some(set? && added?)
}

/// Whether the text that shared bytes are is this one, and other bytes are none.
pub fn are_texts(alloc: Global) -> Option<bool> {
    let text = SharedBytes::new(alloc, Bytes::from_slice(alloc, "é".as_bytes()).ok()?).ok()?;
    let other = SharedBytes::new(alloc, bytes(alloc)?).ok()?;
    let is_text = text.to_text(alloc).ok()??.as_str() == "é";
    Some(is_text && other.to_text(alloc).ok()?.is_none())
}

/// The table with a path's number set, or none where another path has the number.
fn with(alloc: Global, ids: &FileIds, path: &str, number: u32) -> Option<FileIds> {
    let path = path_at(alloc, path)?;
    if !is_free(ids, &path, FileId(number)) {
        return None;
    }
    ids.set(path, Some((FileId(number), FileExcluded::No))).ok()
}

/// Whether a number is set.
pub fn sets_number(alloc: Global) -> Option<bool> {
    let ids = with(alloc, &FileIds::new(alloc), "/a", 1)?;
    Some(ids.path_of(FileId(1))?.as_str() == "/a")
}
