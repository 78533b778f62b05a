// The first frame of a byte string.
ghost use Rattle.std.specs.Prelude.{◌≡◌, ◌+◌, ◌<◌, ◌≤◌, false, length, take, slice_index, IfSome, None, Some};
ghost use Rattle.std.specs.Bool.{MatchBool};
ghost use Rattle.std.specs.Char.{is_ascii_digit};
ghost use Rattle.std.specs.Str.Parse.{AllDigits, digits_value};
ghost use Rattle.memchr.specs.Find.{FindsNeedle, OccursAt};
ghost use Rattle.lsp_frame.specs.Find.{place_of};
ghost use Rattle.lsp_frame.specs.Frames.{empty_line, header_limit, window, head_of, cut_at, cut_of, NoneBelow, LiesWithin};

use crate::frame::{Cut, Head};
use crate::header::{SIZE_LIMIT, read_body_size};

/// The bytes within which a frame's empty line ends.
pub const HEADER_LIMIT: usize = 4096;

#[tactic(auto, using(std::proofs::lemmas::List::take_all), unfolding(crate::specs::Frames::window))]
fn header_window(bytes: &[u8]) -> &[u8]
    ensures is { result.now ≡ window bytes.now }
    ensures within { length result.now ≤ length bytes.now }
    ensures limit { length result.now ≤ header_limit }
{
    if bytes.len() < HEADER_LIMIT {
        bytes
    } else {
        &bytes[..HEADER_LIMIT]
    }
}

/// Whether an empty line begins at a place.
fn begins_empty_line(bytes: &[u8], at: usize) -> bool
    requires { at + 4 ≤ length bytes.now }
    ensures { MatchBool result (OccursAt bytes.now empty_line at) (OccursAt bytes.now empty_line at → ⊥) }
{
    bytes[at] == b'\r' && bytes[at + 1] == b'\n' && bytes[at + 2] == b'\r' && bytes[at + 3] == b'\n'
}

/// The first empty line.
fn first_empty_line(bytes: &[u8]) -> Option<usize>
    ensures { FindsNeedle bytes.now empty_line 0 result }
{
    let mut at = 0;
    'places: while bytes.len() - at >= 4 {
        if begins_empty_line(bytes, at) {
            return Some(at);
        }
        at += 1;
    }
    None
}

/// The first empty line, where none begins below `from`.
fn find_empty_line(bytes: &[u8], from: usize) -> Option<usize>
    requires within { from ≤ length (window bytes.now) }
    requires none { NoneBelow bytes.now from }
    ensures place { result ≡ place_of empty_line (window bytes.now) }
    ensures limit { IfSome result (λ k. k + 4 ≤ header_limit) }
    ensures within { IfSome result (λ k. k + 4 ≤ length bytes.now) }
{
    let window = header_window(bytes);
    match first_empty_line(&window[from..]) {
        Some(place) => Some(from + place),
        None => None,
    }
}

/// How many digits some bytes begin with, ten at most, and the number that these write.
fn front_digits(bytes: &[u8]) -> (usize, u64)
    ensures within { result.0 ≤ length bytes.now }
    ensures ten { result.0 ≤ 10 }
    ensures all { AllDigits 10 (take result.0 bytes.now) }
    ensures next { result.0 < length bytes.now → result.0 < 10 → is_ascii_digit (slice_index bytes.now result.0) ≡ false }
    ensures value { result.1 ≡ digits_value 10 (take result.0 bytes.now) }
{
    let mut count = 0;
    let mut value: u64 = 0;
    'digits: while count < bytes.len() && count < 10 && bytes[count].is_ascii_digit() {
        value = value * 10 + u64::from(bytes[count] - b'0');
        count += 1;
    }
    (count, value)
}

/// What most headers begin with.
const LENGTH_NAME: [u8; 16] = *b"Content-Length: ";

/// What a header says that is one plain line with its size; `None` where the bytes begin with no such line.
fn plain_head(bytes: &[u8]) -> Option<Head>
    ensures { IfSome result (λ head. head ≡ head_of bytes.now) }
{
    let rest = bytes.strip_prefix(&LENGTH_NAME)?;
    let (count, size) = front_digits(rest);
    if count == 0 || size > SIZE_LIMIT || rest.len() - count < 4 {
        return None;
    }
    if !begins_empty_line(rest, count) {
        return None;
    }
    let start = LENGTH_NAME.len() + count + 4;
    Some(Head::Body {
        start,
        end: start + size as usize,
    })
}

/// What the header says, where no empty line begins below `from`.
#[tactic(auto, using(crate::proofs::Sizes::size_fits), unfolding(crate::specs::Frames::head_of, crate::specs::Frames::head_at))]
pub fn read_head(bytes: &[u8], from: usize) -> Head
    requires within { from ≤ length (window bytes.now) }
    requires none { NoneBelow bytes.now from }
    ensures { result ≡ head_of bytes.now }
{
    if let Some(head) = plain_head(bytes) {
        return head;
    }
    match find_empty_line(bytes, from) {
        None => {
            if bytes.len() < HEADER_LIMIT {
                Head::Open
            } else {
                Head::Broken
            }
        }
        Some(place) => match read_body_size(&bytes[..place]) {
            None => Head::Broken,
            Some(size) => Head::Body {
                start: place + 4,
                end: place + 4 + size,
            },
        },
    }
}

/// The first frame of so many bytes that begin with this header.
pub fn cut_at(len: usize, head: Head) -> Cut
    ensures { result ≡ cut_at len head }
{
    match head {
        Head::Open => Cut::NeedMore,
        Head::Broken => Cut::Bad,
        Head::Body { start, end } => {
            if len < end {
                Cut::NeedMore
            } else {
                Cut::Frame {
                    body_start: start,
                    body_end: end,
                }
            }
        }
    }
}

/// The first frame of some bytes.
#[tactic(auto, using(crate::proofs::Turns::lies_within), unfolding(crate::specs::Frames::cut_of))]
pub fn cut(bytes: &[u8]) -> Cut
    ensures is { result ≡ cut_of bytes.now }
    ensures within { LiesWithin result (length bytes.now) }
{
    cut_at(bytes.len(), read_head(bytes, 0))
}
