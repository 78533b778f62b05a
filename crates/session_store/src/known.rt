// What the table of files knows.
ghost use Rattle.std.specs.Prelude.{◌≡◌, IfOk, is_some};
ghost use Rattle.session_model.specs.Crates.{file_of, is_unknown, loaded_as};

use docs_vfs::{FileExcluded, FileId, VfsPath};
use file_ids::FileIds;
use session_model::SessionFiles;
use std::alloc::AllocError;

/// Whether a path has neither contents nor a mark.
pub fn is_unknown(numbers: &FileIds, path: &VfsPath) -> bool
    ensures { result ≡ is_unknown numbers.now path.now }
{
    numbers.get(path).is_none()
}

/// The file that a root is loaded as: none where it has neither contents nor a mark, or is excluded.
pub fn file_of(entry: Option<(FileId, FileExcluded)>) -> Option<FileId>
    ensures { result ≡ file_of entry }
{
    match entry {
        None => None,
        Some((_, FileExcluded::Yes)) => None,
        Some((file, FileExcluded::No)) => Some(file),
    }
}

/// Whether the table doesn't know a file.
pub fn is_unknown_file(files: &SessionFiles, path: &VfsPath) -> Result<bool, AllocError>
    ensures { IfOk result (λ unknown. unknown ≡ is_unknown files.now.ids path.now) }
{
    let numbers = files.file_ids()?;
    Ok(is_unknown(&numbers, path))
}

/// Whether it knows the file, and it isn't excluded.
pub fn is_loaded_file(files: &SessionFiles, path: &VfsPath) -> Result<bool, AllocError>
    ensures { IfOk result (λ loaded. loaded ≡ is_some (loaded_as files.now.ids path.now)) }
{
    let numbers = files.file_ids()?;
    Ok(file_of(numbers.get(path)).is_some())
}
