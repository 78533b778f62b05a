ghost use Rattle.std.specs.Prelude.{ℕ, ◌≡◌, ◌≤◌, ◌<◌, All, false, length, Ok, Err, IfOk, IfSome, IsNone};
ghost use Rattle.std.specs.Prelude.{◌⊎◌, IfErr, OnOk, MatchOption, List, ◌++◌, ◌∷◌, [], ◌&&◌, true};
ghost use Rattle.std.specs.List.{list_any, list_all};
ghost use Rattle.std.specs.Result.{result_ok};
ghost use Rattle.percent_encoding.specs.Percent.{percent_decode};
ghost use Rattle.percent_encoding.specs.AsciiSet.{should_percent_encode};
ghost use Rattle.docs_vfs.specs.declared.file_url.TheConstants.{ESCAPED};
ghost use Rattle.docs_vfs.specs.Paths.{is_slash};
ghost use Rattle.std.specs.Str.{is_utf8};
ghost use Rattle.docs_vfs.specs.FileUrls.{is_escaped, is_plain, is_plain_path, max_url, url_front, url_of, path_of, path_of_parts, path_of_segments, url_segments, decoded_segments, is_text_segment, joined, begins_with_drive, fault_by, decode_fault_by, Answers, LacksText};
ghost use Rattle.docs_vfs.specs.declared.file_url.UrlFault.{UrlFault};
ghost use Rattle.docs_vfs.specs.declared.file_url.UrlFault.TheVariants.{NoMemory, NotFile};

use crate::path::VfsPath;
use crate::path_text::{has_slash_text, is_path_text, is_segment_text};
use percent_encoding::{
    AsciiSet, CONTROLS, DecodeError, ascii_set, percent_decode, percent_encode,
};
use plain::Text;
use std::alloc::{AllocError, Global};
use url::{ParseError, Url};

/// The bytes of ASCII that the URL of a path escapes.
pub const ESCAPED: AsciiSet = ascii_set!(
    CONTROLS
        .add(b' ')
        .add(b'"')
        .add(b'<')
        .add(b'>')
        .add(b'#')
        .add(b'?')
        .add(b'{')
        .add(b'}')
        .add(b'%')
        .add(b'\\')
        .add(b'`')
);

/// Why a text names no path.
#[derive(Clone, Copy, Debug, PartialEq, Eq, PartialOrd, Ord, Hash)]
pub enum UrlFault {
    /// It is too long, no URL, or no `file` URL.
    NotFile,
    /// It names a host.
    HasHost,
    /// A segment can't stand in a path.
    NotText,
    /// The allocator had no memory.
    NoMemory,
}

impl From<AllocError> for UrlFault {
    ghost use Rattle.std.specs.Prelude.{◌≡◌};
    ghost use Rattle.docs_vfs.specs.declared.file_url.UrlFault.TheVariants.{NoMemory};

    ghost from_gives = { λ _ e. e ≡ NoMemory };

    fn from(_: AllocError) -> UrlFault {
        UrlFault::NoMemory
    }
}

/// A URL has at most this many bytes.
pub const MAX_URL: usize = 67_108_864;

/// What an error of the decoder says: no UTF-8, or no memory.
fn decode_fault_of(e: &DecodeError) -> UrlFault
    ensures { result ≡ decode_fault_by e.now }
{
    match e {
        DecodeError::Utf8(_) => UrlFault::NotText,
        DecodeError::OutOfMemory => UrlFault::NoMemory,
    }
}

/// What a part of a URL's path decodes to.
fn decode_part(alloc: Global, part: &str) -> Result<Text, UrlFault>
    ensures ok { IfOk result (λ text. text ≡ percent_decode part.now) }
    ensures err { IfErr result (λ e. LacksText e (is_utf8 (percent_decode part.now))) }
{
    match percent_decode(part.as_bytes()).decode_utf8(alloc) {
        Ok(text) => Ok(Text::from_string(text.into_owned(alloc)?)),
        Err(e) => Err(decode_fault_of(&e)),
    }
}

/// Whether a decoded segment may stand in a path.
fn is_whole_segment(text: &str) -> bool
    ensures { result ≡ is_text_segment text.now }
{
    !has_slash_text(text) && is_segment_text(text)
}

/// Adds a part of a URL's path as a segment, unless it is empty.
fn push_part(alloc: Global, part: &str, text: &mut Text) -> Result<(), UrlFault>
    ensures good { OnOk result (list_all is_text_segment (decoded_segments (part.now ∷ [])) ≡ true) }
    ensures ok { OnOk result (text.new ≡ text.old ++ joined (decoded_segments (part.now ∷ []))) }
    ensures err { IfErr result (λ e. LacksText e (list_all is_text_segment (decoded_segments (part.now ∷ [])))) }
{
    let segment = decode_part(alloc, part)?;
    if segment.is_empty() {
        return Ok(());
    }
    if !is_whole_segment(segment.as_str()) {
        return Err(UrlFault::NotText);
    }
    text.push_str("/")?;
    text.push_str(segment.as_str())?;
    Ok(())
}

/// The text of the path that a URL's path names.
fn text_of_path(alloc: Global, path: &str) -> Result<Text, UrlFault>
    ensures { Answers result (path_of_segments (url_segments path.now)) }
{
    let mut text = Text::new(alloc);
    for part in path.split('/') {
        push_part(alloc, part, &mut text)?;
    }
    if text.is_empty() {
        text.push_str("/")?;
    }
    Ok(text)
}

/// The path that a URL names.
fn path_of_url_parts(alloc: Global, url: &Url) -> Result<VfsPath, UrlFault>
    ensures { Answers result (path_of_parts url.now) }
{
    if url.scheme() != "file" {
        return Err(UrlFault::NotFile);
    }
    if url.has_host() {
        return Err(UrlFault::HasHost);
    }
    let text = text_of_path(alloc, url.path())?;
    Ok(VfsPath::from_string(text.into_string())?)
}

/// What an error of the parser says: no room, or no URL.
fn fault_of(e: ParseError) -> UrlFault
    ensures { result ≡ fault_by e }
{
    match e {
        ParseError::OutOfMemory | ParseError::Overflow => UrlFault::NoMemory,
        _ => UrlFault::NotFile,
    }
}

/// Whether a URL holds a byte of a path as it is, wherever it stands.
fn is_plain_byte(byte: u8) -> bool
    ensures { result ≡ is_plain byte }
{
    !ESCAPED.should_percent_encode(byte) && byte != b'|'
}

/// Whether a text is a path of plain bytes.
fn is_plain_path(text: &str) -> bool
    ensures { result ≡ is_plain_path text.now }
{
    text.as_bytes().iter().all(|byte| is_plain_byte(*byte)) && is_path_text(text)
}

/// What stands before the path in a `file` URL without a host.
const URL_FRONT: &str = "file://";

/// The path of a text that is the URL of a path of plain bytes.
fn plain_path(url: &str) -> Option<&str>
    ensures { MatchOption result ((path : List ℕ) → url.now ≡ url_front ++ path → is_plain_path path ≡ false)
        (λ path. (url.now ≡ url_front ++ path.now) × (is_plain_path path.now ≡ true)) }
{
    let path = url.strip_prefix(URL_FRONT)?;
    if is_plain_path(path) {
        Some(path)
    } else {
        None
    }
}

/// The path that a text names as a `file` URL.
pub fn path_of_url(alloc: Global, url: &str) -> Result<VfsPath, UrlFault>
    ensures { Answers result (path_of url.now) }
{
    if url.len() > MAX_URL {
        return Err(UrlFault::NotFile);
    }
    if let Some(path) = plain_path(url) {
        return Ok(VfsPath::from_str(alloc, path)?);
    }
    match Url::parse(alloc, url) {
        Ok(url) => path_of_url_parts(alloc, &url),
        Err(e) => Err(fault_of(e)),
    }
}

/// The path that a text names as a `file` URL, or none, for whatever reason.
pub fn path_named(alloc: Global, url: &str) -> Result<Option<VfsPath>, AllocError>
    ensures value { IfOk result (λ path. path ≡ result_ok (path_of url.now)) }
    ensures some { IfOk result (λ path. IfSome path (λ path. path_of url.now ≡ Ok path)) }
    ensures none { IfOk result (λ path. IsNone path → (fault : UrlFault) × (path_of url.now ≡ Err fault)) }
{
    match path_of_url(alloc, url) {
        Ok(path) => Ok(Some(path)),
        Err(UrlFault::NoMemory) => Err(AllocError),
        Err(UrlFault::NotFile | UrlFault::HasHost | UrlFault::NotText) => Ok(None),
    }
}

/// The `file` URL of a path.
#[tactic(auto, unfolding(crate::specs::FileUrls::url_of))]
pub fn url_of_path(alloc: Global, path: &VfsPath) -> Result<Text, AllocError>
    ensures { IfOk result (λ url. url ≡ url_of path.now) }
{
    let mut url = String::from_str(alloc, URL_FRONT)?;
    percent_encode(path.as_str().as_bytes(), ESCAPED).append_to(&mut url)?;
    Ok(Text::from_string(url))
}

/// The bytes of a text are below 256.
fn are_bytes(text: &str)
    ensures { All (λ b. b < 256) text.now }
{}

/// The URL of a path names that path. Two kinds of path are left out: those whose URL is too long, and
/// those whose first segment the URL Standard reads as a drive.
pub fn url_names_its_path(path: &VfsPath)
    ensures law { length (url_of path.now) ≤ max_url → begins_with_drive path.now ≡ false
        → path_of (url_of path.now) ≡ Ok path.now }
{
    let text = path.as_str();
    are_bytes(text);
}

/// Paths with one URL are one path.
pub fn equal_urls_name_equal_paths()
    ensures law { (one other : List ℕ) → All (λ b. b < 256) one → All (λ b. b < 256) other
        → url_of one ≡ url_of other → one ≡ other }
{}

/// The bytes that the URL of a path escapes.
pub fn url_escapes_are_listed()
    ensures law { (b : ℕ) → should_percent_encode ESCAPED b ≡ is_escaped b }
{}
