ghost use Rattle.std.specs.Prelude.{◌≡◌, OnOk, OnErr, IfOk, is_some, not, option_copied, true, false, List, ℕ};
ghost use Rattle.std.specs.Option.{option_copied_mut};
ghost use Rattle.std.specs.Borrow.{sem};
ghost use Rattle.std.specs.Map.Iter.{ShowsInOrder, deref};
ghost use Rattle.docs_vfs.specs.Lent.{lends_document};
ghost use Rattle.std.specs.Result.{is_ok};
ghost use Rattle.std.specs.FinMap as map;
ghost use Rattle.docs_vfs.specs.Documents.{Documents};

use crate::by_path::ByPath;
use crate::path::VfsPath;
use plain::{ExactClone, Text};
use std::alloc::{AllocError, Global};
use std::collections::btree_map::Keys;
use std::marker::Model;

/// The version and the text of an open document.
pub struct DocumentData {
    pub version: i32,
    pub text: Text,
}

impl Drop for DocumentData {
    fn drop(self) {
        let DocumentData {
            version: _,
            text: _,
        } = self;
    }
}

impl Clone for DocumentData {
    ghost is_clone = { λ document copy. copy ≡ document };

    fn clone(&self) -> Result<DocumentData, AllocError> {
        Ok(DocumentData {
            version: self.version,
            text: self.text.clone()?,
        })
    }
}

impl ExactClone for DocumentData {
    ghost copies = { λ x y h. h };
}

/// The paths of open documents, in order.
pub type Paths<'a> = Keys<'a, VfsPath, DocumentData>;

/// The open documents.
pub struct MemDocs {
    docs: ByPath<DocumentData>,
    changed: bool,
}

impl Drop for MemDocs {
    fn drop(self) {
        let MemDocs {
            docs: _,
            changed: _,
        } = self;
    }
}

impl Model for MemDocs {
    ghost use Rattle.docs_vfs.specs.Documents.{Documents};
    ghost use Rattle.std.specs.Coded.{codes};
    ghost use Rattle.std.specs.FinMap as map;

    ghost Value = { Documents };

    ghost coded = { Prim.hlevel (codes, map.code) };

    ghost view = { λ a. record { docs = a.docs; changed = a.changed } };
}

impl MemDocs {
    pub fn new(alloc: Global) -> Self
        ensures { result ≡ record { docs = map.empty; changed = false } }
    {
        Self {
            docs: ByPath::new(alloc),
            changed: false,
        }
    }

    pub fn contains(&self, path: &VfsPath) -> bool
        ensures { result ≡ is_some (map.get self.now.docs path.now) }
    {
        self.docs.contains(path)
    }

    pub fn get(&self, path: &VfsPath) -> Option<&DocumentData>
        ensures { option_copied result ≡ map.get self.now.docs path.now }
    {
        self.docs.get(path)
    }

    /// The document at a path, to be changed in its place.
    pub fn get_mut(&mut self, path: &VfsPath) -> Option<&mut DocumentData>
        ensures* writes_back { sem 𝓛 (lends_document self.entry path.now result) }
        ensures value { option_copied_mut result ≡ map.get self.old.docs path.now }
    {
        self.docs.get_mut(path)
    }

    /// The paths in order.
    pub fn iter(&self) -> Paths<'_>
        ensures rest { result ≡ map.keys self.now.docs }
        ensures runs { ShowsInOrder (deref {X = List ℕ}) }
    {
        self.docs.keys()
    }

    /// Puts a document at a path. The inner error says that one was there, which is replaced.
    pub fn insert(&mut self, path: VfsPath, doc: DocumentData) -> Result<Result<(), ()>, AllocError>
        ensures new { IfOk result (λ new. is_ok new ≡ not (is_some (map.get self.old.docs path))) }
        ensures ok { OnOk result (self.new
            ≡ record { docs = map.insert self.old.docs path doc; changed = true }) }
        ensures err { OnErr result (self.new ≡ self.old) }
    {
        let old = self.docs.insert(path, doc)?;
        self.changed = true;
        match old {
            Some(_) => Ok(Err(())),
            None => Ok(Ok(())),
        }
    }

    /// Takes a document away. The error says that none was there.
    pub fn remove(&mut self, path: &VfsPath) -> Result<(), ()>
        ensures gone { is_ok result ≡ is_some (map.get self.old.docs path.now) }
        ensures map { self.new ≡ record { docs = map.remove self.old.docs path.now; changed = true } }
    {
        let old = self.docs.remove(path);
        self.changed = true;
        match old {
            Some(_) => Ok(()),
            None => Err(()),
        }
    }

    /// Whether `insert` or `remove` was called since the last take.
    pub fn take_changes(&mut self) -> bool
        ensures value { result ≡ self.old.changed }
        ensures map { self.new ≡ record self.old { changed = false } }
    {
        let changed = self.changed;
        self.changed = false;
        changed
    }
}

impl Clone for MemDocs {
    ghost is_clone = { λ docs copy. copy ≡ docs };

    fn clone(&self) -> Result<MemDocs, AllocError> {
        Ok(MemDocs {
            docs: self.docs.clone()?,
            changed: self.changed,
        })
    }
}

impl ExactClone for MemDocs {
    ghost copies = { λ x y h. h };
}
