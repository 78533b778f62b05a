// What code lenses show once they are resolved.
ghost use Rattle.std.specs.Prelude.{◌≡◌, Ok};
ghost use Rattle.analysis_host.specs.FilePlaces.{annotation, annotation_in, annotation_of, has_version, Finds};

use crate::file_places::{position_in, range_in};
use crate::lens::{Annotation, LensResolve};
use crate::proto_fault::ProtoFault;
use crate::snapshot::GlobalStateSnapshot;
use docs_vfs::{FileId, VfsPath, path_named};
use std::alloc::Global;
use text_core::Range;

/// Whether a document has this version.
fn has_version(version: i32, present: Option<i32>) -> bool
    ensures { result ≡ has_version version present }
{
    match present {
        Some(present) => present == version,
        None => false,
    }
}

/// A lens in this file.
fn annotation_in(
    snapshot: &GlobalStateSnapshot,
    range: Range,
    lens: &LensResolve,
    file: FileId,
) -> Result<Annotation, ProtoFault>
    ensures { result ≡ annotation_in snapshot.now range lens.now file }
{
    let pos = position_in(snapshot, lens.position, file)?;
    let range = range_in(snapshot, range, file)?;
    Ok(Annotation {
        start: range.start,
        end: range.end,
        kind: lens.kind,
        pos,
    })
}

/// A lens in the file of a path.
fn annotation_at(
    snapshot: &GlobalStateSnapshot,
    range: Range,
    lens: &LensResolve,
    path: &VfsPath,
) -> Result<Option<Annotation>, ProtoFault>
    ensures { result ≡ annotation_of snapshot.now range lens.now (Ok path.now) }
{
    if !has_version(lens.version, snapshot.path_version(path)) {
        return Ok(None);
    }
    match snapshot.vfs_path_to_file_id(path)? {
        Some(file) => Ok(Some(annotation_in(snapshot, range, lens, file)?)),
        None => Ok(None),
    }
}

/// A lens in its file, with the range where it is shown, or none where its document has another version by now or its
/// file is excluded.
pub fn annotation(
    alloc: Global,
    snapshot: &GlobalStateSnapshot,
    range: Range,
    lens: &LensResolve,
) -> Result<Option<Annotation>, ProtoFault>
    ensures { Finds result (annotation snapshot.now range lens.now) }
{
    match path_named(alloc, lens.url.as_str()) {
        Ok(Some(path)) => annotation_at(snapshot, range, lens, &path),
        Ok(None) => Ok(None),
        Err(_) => Err(ProtoFault::NoMemory),
    }
}
