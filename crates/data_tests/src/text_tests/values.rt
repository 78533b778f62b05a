// Bytes, JSON and maps: calls that end well where memory is left.
use super::calls::{is_written, json, text};
use piece_buffer::PieceBuffer;
use plain::{ByNumber, ByText, Bytes, Json, JsonObject, Plain, SharedJson, Text};
use std::alloc::Global;

/// Puts a piece at the end of a buffer, and says whether there was memory for it.
fn is_fed(alloc: Global, buffer: &mut PieceBuffer, piece: &[u8]) -> bool {
    match Bytes::from_slice(alloc, piece) {
        Ok(piece) => buffer.feed(piece).is_ok(),
        Err(_) => false,
    }
}

/// Whether the next so many bytes that a buffer gives are these.
fn gives(buffer: &mut PieceBuffer, count: usize, want: &[u8]) -> bool {
    if count > buffer.len() {
        return false;
    }
    match buffer.give(count) {
        Ok(piece) => piece.as_slice() == want,
        Err(_) => false,
    }
}

/// Whether bytes go in order, those that are copied and those that are moved.
pub fn go_in_order(alloc: Global) -> Option<bool> {
    let mut buffer = PieceBuffer::new(alloc);
    let is_moved = is_fed(alloc, &mut buffer, b"abc") && gives(&mut buffer, 3, b"abc");
    let is_copied = is_fed(alloc, &mut buffer, b"defg") && gives(&mut buffer, 3, b"def");
    buffer.compact();
    let is_joined = is_fed(alloc, &mut buffer, b"hi") && gives(&mut buffer, 3, b"ghi");
    let is_done = buffer.is_empty();
    drop(buffer);
    Some(is_moved && is_copied && is_joined && is_done)
}

/// Whether bytes that grew are what was put.
pub fn are_grown(alloc: Global) -> Option<bool> {
    let mut bytes = Bytes::from_slice(alloc, b"ab").ok()?;
    let is_pushed = bytes.push(b'c').is_ok();
    let is_right = bytes.as_slice() == b"abc".as_slice();
    drop(bytes);
    Some(is_pushed && is_right)
}

/// Whether a copy of members is written as they are.
pub fn are_members(alloc: Global) -> Option<bool> {
    let mut members = JsonObject::new(alloc);
    let is_put = members.put(alloc, "a", Json::from_i32(1)).is_ok();
    let copy = members.clone().ok();
    drop(members);
    Some(is_put && is_written(alloc, &copy?.into_json(), "{\"a\":1}"))
}

/// Whether a plain value is kept so, also in a copy.
fn is_kept(plain: Plain) -> Option<bool> {
    let copy = plain.clone().ok()?;
    let is_same = copy == plain && plain.as_json().is_same(copy.as_json());
    drop(copy);
    Some(is_same && plain.into_json().is_plain())
}

/// The same of the value that a text is.
pub fn is_plain(alloc: Global, text: &str) -> Option<bool> {
    is_kept(Plain::new(json(alloc, text)?).ok()?)
}

/// Whether what is moved out of a shared value is this text.
fn is_moved(alloc: Global, shared: SharedJson, want: &str) -> Option<bool> {
    Some(is_written(alloc, &shared.into_json().ok()?, want))
}

/// Whether what is moved out of a clone, and then where nothing else shares it, is the value that a text is.
pub fn is_shared(alloc: Global, text: &str) -> Option<bool> {
    let shared = SharedJson::new(alloc, json(alloc, text)?).ok()?;
    let copy = shared.clone().ok()?;
    let is_copied = is_moved(alloc, copy, text) == Some(true);
    Some(is_copied && is_moved(alloc, shared, text)?)
}

/// Whether a copy of a map by number stays as it was.
pub fn stays_by_number(alloc: Global) -> Option<bool> {
    let mut map = ByNumber::new(alloc);
    let is_put = map.insert(7, 1u32).is_ok();
    let copy = map.clone().ok();
    let is_changed = map.insert(7, 2).is_ok();
    drop(map);
    Some(is_put && is_changed && copy?.get(7).copied() == Some(1))
}

/// Puts a value at the key `a`.
fn put(alloc: Global, map: &mut ByText<Text, u32>, value: u32) -> Option<()> {
    let old = map.insert(text(alloc, "a")?, value).ok()?;
    drop(old);
    Some(())
}

/// The same of a map by text.
pub fn stays_by_text(alloc: Global) -> Option<bool> {
    let mut map = ByText::new(alloc);
    let is_put = put(alloc, &mut map, 1).is_some();
    let copy = map.clone().ok();
    let is_changed = put(alloc, &mut map, 2).is_some();
    drop(map);
    let key = text(alloc, "a")?;
    Some(is_put && is_changed && copy?.get(&key).copied() == Some(1))
}
