ghost use Rattle.std.specs.Prelude.{◌≡◌};
ghost use Rattle.std.proofs.Common.{rules};
ghost use Rattle.docs_vfs.specs.Kinds.{is_created_or_deleted};

use crate::path::VfsPath;
use crate::shared_bytes::SharedBytes;
use plain::ExactClone;
use std::alloc::{AllocError, AllocFailed};

/// The number of a path in a table of files.
#[derive(Clone, Copy, Debug, PartialEq, Eq, PartialOrd, Ord, Hash)]
pub struct FileId(pub u32);

impl ExactClone for FileId {
    ghost copies = { λ x y h. Prim.search rules };
}

/// Whether a file is marked as excluded.
#[derive(Clone, Copy, Debug, PartialEq, Eq, PartialOrd, Ord, Hash)]
pub enum FileExcluded {
    Yes,
    No,
}

impl ExactClone for FileExcluded {
    ghost copies = { λ x y h. Prim.search rules };
}

/// What became of a file.
#[derive(Clone, Copy, Debug, PartialEq, Eq, PartialOrd, Ord, Hash)]
pub enum ChangeKind {
    Create,
    Modify,
    Delete,
}

impl ChangeKind {
    /// Whether the file came or went.
    pub fn is_created_or_deleted(self) -> bool
        ensures { result ≡ is_created_or_deleted self }
    {
        match self {
            ChangeKind::Create | ChangeKind::Delete => true,
            ChangeKind::Modify => false,
        }
    }
}

/// A file whose contents aren't what they were at the last take. The contents are shared with the table.
pub struct ChangedFile {
    pub file: FileId,
    pub path: VfsPath,
    pub kind: ChangeKind,
    pub contents: Option<SharedBytes>,
}

impl Drop for ChangedFile {
    fn drop(self) {
        let ChangedFile {
            file: _,
            path: _,
            kind: _,
            contents: _,
        } = self;
    }
}

/// What a table keeps of a path.
#[derive(Drop)]
pub enum RowState {
    Nothing,
    Contents(SharedBytes),
    Excluded,
}

/// A path's number, and what is kept of it.
pub struct FileRow {
    pub file: FileId,
    pub kept: RowState,
}

impl Drop for FileRow {
    fn drop(self) {
        let FileRow { file: _, kept: _ } = self;
    }
}

/// A path's number, and its contents at an earlier time.
pub struct FileWas {
    pub file: FileId,
    pub contents: Option<SharedBytes>,
}

impl Drop for FileWas {
    fn drop(self) {
        let FileWas {
            file: _,
            contents: _,
        } = self;
    }
}

/// What a call made of a path: its number before and after, where it had contents or a mark, with whether it was marked,
/// and whether its contents changed.
#[derive(Clone, Copy)]
pub struct Replaced {
    pub before: Option<(FileId, FileExcluded)>,
    pub after: Option<(FileId, FileExcluded)>,
    pub changed: bool,
}

/// Why a call of the table failed.
#[derive(Clone, Copy, Debug, PartialEq, Eq, PartialOrd, Ord, Hash)]
pub enum TableFault {
    /// The path needs a number, and 4,294,967,295 were given. The table is as it was.
    Full,
    /// The allocator had no memory. The table is as it was.
    NoMemory,
}

impl From<AllocError> for TableFault {
    ghost use Rattle.std.specs.Prelude.{◌≡◌};
    ghost use Rattle.docs_vfs.specs.declared.file_kinds.TableFault.TheVariants.{NoMemory};

    ghost from_gives = { λ _ e. e ≡ NoMemory };

    fn from(_: AllocError) -> TableFault {
        TableFault::NoMemory
    }
}

impl<T: Drop> From<AllocFailed<T>> for TableFault {
    ghost use Rattle.std.specs.Prelude.{◌≡◌};
    ghost use Rattle.docs_vfs.specs.declared.file_kinds.TableFault.TheVariants.{NoMemory};

    ghost from_gives = { λ _ e. e ≡ NoMemory };

    fn from(_: AllocFailed<T>) -> TableFault {
        TableFault::NoMemory
    }
}
