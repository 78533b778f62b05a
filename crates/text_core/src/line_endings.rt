// How lines end.
ghost use Rattle.std.specs.Prelude.{◌≡◌, ◌+◌, ◌<◌, ◌≤◌, ◌++◌, length, take, drop, is_some, IfSome, IfOk};
ghost use Rattle.text_core.specs.LineEnds.{normalized, endings_of, crlf_place, has_cr};

use memchr::memchr;
use plain::{ArcText, Text};
use std::alloc::{AllocError, Global};

/// How the lines of a text ended.
#[derive(Clone, Copy, Debug, PartialEq, Eq, PartialOrd, Ord, Hash)]
pub enum LineEndings {
    Unix,
    Dos,
}

/// Whether a CR stands in a text, before an LF or not.
pub fn has_cr(text: &str) -> bool
    ensures { result ≡ has_cr text.now }
{
    memchr(b'\r', text.as_bytes()).is_some()
}

/// The first CR LF.
fn find_crlf(bytes: &[u8]) -> Option<usize>
    ensures value { result ≡ crlf_place bytes.now }
    ensures within { IfSome result (λ at. at + 1 < length bytes.now) }
{
    let mut from = 0;
    while let Some(gap) = memchr(b'\r', &bytes[from..]) {
        let at = from + gap;
        if at + 1 < bytes.len() && bytes[at + 1] == b'\n' {
            return Some(at);
        }
        from = at + 1;
    }
    None
}

/// Moves so many bytes down.
fn move_down(bytes: &mut Vec<u8>, from: usize, to: usize, count: usize)
    requires downward { to ≤ from }
    requires within { from + count ≤ length bytes.old.items }
    ensures front { take (to + count) bytes.new.items ≡ take to bytes.old.items ++ take count (drop from bytes.old.items) }
    ensures rest { drop (from + count) bytes.new.items ≡ drop (from + count) bytes.old.items }
    ensures len { length bytes.new.items ≡ length bytes.old.items }
{
    bytes.copy_within(from..from + count, to);
}

/// Takes out the CR of each CR LF, and says whether there was one.
fn close_gaps(bytes: &mut Vec<u8>) -> bool
    ensures bytes { bytes.new.items ≡ normalized bytes.old.items }
    ensures seen { result ≡ is_some (crlf_place bytes.old.items) }
{
    let mut read = 0;
    let mut write = 0;
    while let Some(gap) = find_crlf(&bytes[read..]) {
        move_down(bytes, read, write, gap);
        write += gap;
        read += gap + 1;
    }
    if read == 0 {
        return false;
    }
    let left = bytes.len() - read;
    move_down(bytes, read, write, left);
    bytes.truncate(write + left);
    true
}

impl LineEndings {
    /// Makes each CR LF an LF, in place, and says whether there was one.
    pub fn normalize(src: Text) -> (Text, LineEndings)
        ensures text { result.0 ≡ normalized src }
        ensures endings { result.1 ≡ endings_of src }
    {
        let mut bytes = src.into_string().into_bytes();
        let seen = close_gaps(&mut bytes);
        // The bytes without those CR are UTF-8 too.
        let text = unsafe { String::from_utf8_unchecked(bytes) };
        let endings = if seen {
            LineEndings::Dos
        } else {
            LineEndings::Unix
        };
        (Text::from_string(text), endings)
    }

    /// The same of a text that others share. Where it has no CR LF it stays shared.
    #[tactic(auto, using(crate::proofs::LineEndLemmas::crlf_none, crate::proofs::LineEndLemmas::normalized_len))]
    pub fn normalize_shared(
        alloc: Global,
        src: ArcText,
    ) -> Result<(ArcText, LineEndings), AllocError>
        ensures text { IfOk result (λ made. made.0 ≡ normalized src) }
        ensures endings { IfOk result (λ made. made.1 ≡ endings_of src) }
        ensures within { IfOk result (λ made. length made.0 ≤ length src) }
    {
        if find_crlf(src.as_str().as_bytes()).is_none() {
            return Ok((src, LineEndings::Unix));
        }
        let (text, endings) = LineEndings::normalize(src.into_text()?);
        Ok((ArcText::new(alloc, text)?, endings))
    }
}
