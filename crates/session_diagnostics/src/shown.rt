// The files of open documents that are shown.
ghost use Rattle.std.specs.Prelude.{◌≡◌, IfOk};
ghost use Rattle.std.specs.List.{filter_map};
ghost use Rattle.session_model.specs.Crates.{loaded_as};
ghost use Rattle.session_model.specs.Diagnosing.{is_local_path, shown_file, subscribed};

use docs_vfs::{FileId, SourceRoots, VfsPath};
use plain::Items;
use session_model::SessionFiles;
use session_store::file_of;
use std::alloc::{AllocError, Global};

// Whether a path lies in a local root.
fn is_local_path(roots: &SourceRoots, path: &VfsPath) -> bool
    ensures { result ≡ is_local_path roots.now path.now }
{
    roots.is_local(roots.root_of(path))
}

// The file of an open document that is shown: one that is neither excluded nor outside the local roots of the world.
fn shown_file(files: &SessionFiles, path: &VfsPath) -> Option<FileId>
    ensures { result ≡ shown_file files.now path.now }
{
    if is_local_path(files.roots(), path) {
        file_of(files.file_id(path))
    } else {
        None
    }
}

// The files of these documents that are shown.
fn shown_among(
    alloc: Global,
    files: &SessionFiles,
    paths: &[VfsPath],
) -> Result<Items<FileId>, AllocError>
    ensures { IfOk result (λ list. list ≡ filter_map (shown_file files.now) paths.now) }
{
    let mut list = Items::new(alloc);
    for path in paths {
        if let Some(file) = shown_file(files, path) {
            list.push(file)?;
        }
    }
    Ok(list)
}

/// The files of all documents that are shown, in the order of their paths.
#[tactic(auto, unfolding(session_model::specs::Diagnosing::subscribed))]
pub(crate) fn subscribed(alloc: Global, files: &SessionFiles) -> Result<Items<FileId>, AllocError>
    ensures { IfOk result (λ list. list ≡ subscribed files.now) }
{
    let paths = files.open_paths()?;
    shown_among(alloc, files, paths.as_slice())
}
