// The places that positions and ranges of a client name.
ghost use Rattle.std.specs.Prelude.{◌≡◌};
ghost use Rattle.analysis_host.specs.FilePlaces.{position_in, file_position, range_in, file_range, Finds};

use crate::proto_fault::ProtoFault;
use crate::snapshot::GlobalStateSnapshot;
use docs_vfs::FileId;
use std::alloc::Global;
use text_core::{Position, Range};

/// A byte of a file's text.
#[derive(Clone, Copy, PartialEq, Eq)]
pub struct FilePosition {
    pub file: FileId,
    pub offset: u32,
}

/// Bytes of a file's text.
#[derive(Clone, Copy, PartialEq, Eq)]
pub struct FileRange {
    pub file: FileId,
    pub start: u32,
    pub end: u32,
}

/// The place of a position in a file.
pub(crate) fn position_in(
    snapshot: &GlobalStateSnapshot,
    position: Position,
    file: FileId,
) -> Result<FilePosition, ProtoFault>
    ensures { result ≡ position_in snapshot.now position file }
{
    let Some(index) = snapshot.file_index(file) else {
        return Err(ProtoFault::NotFound);
    };
    match index.place_of(snapshot.encoding(), position) {
        Ok(offset) => Ok(FilePosition { file, offset }),
        Err(fault) => Err(ProtoFault::Offset(fault)),
    }
}

/// The place of a position in the file that a URL names, or none where that is excluded.
pub fn file_position(
    alloc: Global,
    snapshot: &GlobalStateSnapshot,
    url: &str,
    position: Position,
) -> Result<Option<FilePosition>, ProtoFault>
    ensures { Finds result (file_position snapshot.now url.now position) }
{
    match snapshot.url_to_file_id(alloc, url)? {
        Some(file) => Ok(Some(position_in(snapshot, position, file)?)),
        None => Ok(None),
    }
}

/// The places of a range in a file.
pub(crate) fn range_in(
    snapshot: &GlobalStateSnapshot,
    range: Range,
    file: FileId,
) -> Result<FileRange, ProtoFault>
    ensures { result ≡ range_in snapshot.now range file }
{
    let Some(index) = snapshot.file_index(file) else {
        return Err(ProtoFault::NotFound);
    };
    match index.range_of(snapshot.encoding(), range) {
        Ok((start, end)) => Ok(FileRange { file, start, end }),
        Err(fault) => Err(ProtoFault::Offset(fault)),
    }
}

/// The places of a range in the file that a URL names, or none where that is excluded.
pub fn file_range(
    alloc: Global,
    snapshot: &GlobalStateSnapshot,
    url: &str,
    range: Range,
) -> Result<Option<FileRange>, ProtoFault>
    ensures { Finds result (file_range snapshot.now url.now range) }
{
    match snapshot.url_to_file_id(alloc, url)? {
        Some(file) => Ok(Some(range_in(snapshot, range, file)?)),
        None => Ok(None),
    }
}
