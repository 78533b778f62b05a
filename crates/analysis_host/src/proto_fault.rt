// Why what a client names is no file and no place.
use docs_vfs::UrlFault;
use text_core::OffsetFault;

/// Why a client's URL or position names no file or no place.
#[derive(Clone, Copy, PartialEq, Eq)]
pub enum ProtoFault {
    /// The URL names no file.
    Url(UrlFault),
    /// The path has no number, or no text where it isn't excluded.
    NotFound,
    /// The text has no such place.
    Offset(OffsetFault),
    NoMemory,
}
