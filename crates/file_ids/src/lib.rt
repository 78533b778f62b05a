//! The numbers of files by path, as a snapshot freezes them.
#![tactic(auto)]

ghost use Rattle.std.specs.Prelude.{◌≡◌, ◌↔◌, ◌<◌, ℕ, List, Some, IfOk, OnOk, OnErr, IfSome, option_copied};
ghost use Rattle.std.specs.FinMap as map;
ghost use Rattle.shared_map.specs.AsMap.{set_in_map};
ghost use Rattle.file_ids.specs.Numbers.{IsFree, number_of, file_of, path_of, with_number, without_number};

use docs_vfs::{FileExcluded, FileId, VfsPath};
use plain::{ExactClone, NoMemory};
use shared_map::{SharedMap, Steps};
use std::alloc::Global;
use std::marker::{Brand, Model};
use std::sync::ledger::{Blank, Ledger};

/// The number of each path, and whether its file is excluded. No two paths have one number. A clone
/// is the same table, and what is set later in one of them makes anew the nodes on the way to what differs alone.
pub struct FileIds {
    files: SharedMap<VfsPath, (FileId, FileExcluded)>,
    /// Each path by its number.
    paths: SharedMap<u32, VfsPath>,
}

impl Drop for FileIds {
    fn drop(self) {
        let FileIds { files: _, paths: _ } = self;
    }
}

impl Model for FileIds {
    ghost use Rattle.std.specs.Coded.{codes};
    ghost use Rattle.std.specs.FinMap as map;
    ghost use Rattle.docs_vfs.specs.Paths.{path_cmp};
    ghost use Rattle.docs_vfs.specs.declared.file_kinds.FileId.{FileId};
    ghost use Rattle.docs_vfs.specs.declared.file_kinds.FileExcluded.{FileExcluded};
    ghost use Rattle.file_ids.specs.Numbers.{AreInverse};

    ghost Value = { map.FinMap path_cmp (FileId × FileExcluded) };

    ghost coded = { Prim.hlevel (codes, map.code) };

    ghost view = { λ f. map.from_entries f.files };

    ghost invariant = { λ f. AreInverse f.files f.paths };
}

type Paths = SharedMap<u32, VfsPath>;

/// In the paths by number a path loses its old number and gets a new one.
fn renumber<L: Ledger>(
    paths: &mut Paths,
    path: &VfsPath,
    old: Option<FileId>,
    new: Option<FileId>,
    steps: &mut Steps<L>,
) -> Result<(), NoMemory>
    ensures { OnOk result (paths.new ≡ with_number new path.now (without_number old paths.old)) }
{
    if let Some(file) = old {
        paths.put(file.0, None, steps)?;
    }
    if let Some(file) = new {
        paths.put(file.0, Some(path.clone()?), steps)?;
    }
    Ok(())
}

impl FileIds {
    /// A table with nothing in it.
    pub fn new(alloc: Global) -> FileIds
        ensures { result ≡ map.empty }
    {
        FileIds {
            files: SharedMap::new(alloc),
            paths: SharedMap::new(alloc),
        }
    }

    /// The number of a path, and whether its file is excluded. The number leads back to the path.
    pub fn get(&self, path: &VfsPath) -> Option<(FileId, FileExcluded)>
        ensures entry { result ≡ map.get self.now path.now }
        ensures back { IfSome result (λ entry. path_of self.now entry.0 ≡ Some path.now) }
    {
        self.files.get(path).copied()
    }

    /// The path that has the number.
    pub fn path_of(&self, file: FileId) -> Option<&VfsPath>
        ensures value { option_copied result ≡ path_of self.now file }
        ensures each { (path : List ℕ) → (option_copied result ≡ Some path) ↔ (number_of (map.get self.now path) ≡ Some file.0) }
    {
        self.paths.get(&file.0)
    }

    /// The table with that path set, or without it. This one stays as it is.
    pub fn set(
        &self,
        path: VfsPath,
        entry: Option<(FileId, FileExcluded)>,
    ) -> Result<FileIds, NoMemory>
        requires { IsFree path (file_of entry) self.now }
        ensures { IfOk result (λ new. new ≡ set_in_map self.now path entry) }
    {
        let mut ids = self.clone()?;
        ids.put(path, entry)?;
        Ok(ids)
    }

    /// Sets that path, or takes it away. Nodes that other tables share are copied, all others stay this table's own.
    /// Without memory the table is empty.
    pub fn put(
        &mut self,
        path: VfsPath,
        entry: Option<(FileId, FileExcluded)>,
    ) -> Result<(), NoMemory>
        requires { IsFree path (file_of entry) self.old }
        ensures ok { OnOk result (self.new ≡ set_in_map self.old path entry) }
        ensures err { OnErr result (self.new ≡ map.empty) }
    {
        let old = self.get(&path);
        self.replace(path, old, entry)
    }

    /// The same of a path whose entry is known, which is not searched first.
    pub fn replace(
        &mut self,
        path: VfsPath,
        old: Option<(FileId, FileExcluded)>,
        entry: Option<(FileId, FileExcluded)>,
    ) -> Result<(), NoMemory>
        requires old { map.get self.old path ≡ old }
        requires free { IsFree path (file_of entry) self.old }
        ensures ok { OnOk result (self.new ≡ set_in_map self.old path entry) }
        ensures err { OnErr result (self.new ≡ map.empty) }
    {
        self.replace_uncounted::<Brand>(path, old, entry, Blank::new(1))
    }

    /// The same where nobody counts the steps.
    fn replace_uncounted<L: Ledger>(
        &mut self,
        path: VfsPath,
        old: Option<(FileId, FileExcluded)>,
        entry: Option<(FileId, FileExcluded)>,
        blank: Blank,
    ) -> Result<(), NoMemory>
        requires name { blank.name ≡ L.name }
        requires parts { blank.parts ≡ L.parts }
        requires some { 0 < L.parts }
        requires old { map.get self.old path ≡ old }
        requires free { IsFree path (file_of entry) self.old }
        ensures ok { OnOk result (self.new ≡ set_in_map self.old path entry) }
        ensures err { OnErr result (self.new ≡ map.empty) }
    {
        let mut steps = Steps::<L>::new(blank);
        let _in_order = (self.files.len(), self.paths.len());
        let mut files = self.files.take();
        let mut paths = self.paths.take();
        renumber(&mut paths, &path, number(old), number(entry), &mut steps)?;
        files.put(path, entry, &mut steps)?;
        self.files = files;
        self.paths = paths;
        Ok(())
    }
}

/// The number in an entry.
fn number(entry: Option<(FileId, FileExcluded)>) -> Option<FileId>
    ensures { result ≡ file_of entry }
{
    match entry {
        Some((file, _)) => Some(file),
        None => None,
    }
}

impl Clone for FileIds {
    ghost is_clone = { λ ids copy. copy ≡ ids };

    fn clone(&self) -> Result<FileIds, NoMemory> {
        Ok(FileIds {
            files: self.files.clone()?,
            paths: self.paths.clone()?,
        })
    }
}

impl ExactClone for FileIds {
    ghost copies = { λ x y h. h };
}
