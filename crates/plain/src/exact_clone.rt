ghost use Rattle.std.specs.Prelude.{◌≡◌, IfOk};
ghost use Rattle.std.proofs.Common.{rules};
ghost use Rattle.plain.specs.Copies.{some_copies, result_copies, pair_copies};

use crate::NoMemory;
use crate::arc_text::ArcText;
use crate::by_number::ByNumber;
use crate::bytes::Bytes;
use crate::items::Items;
use crate::json::Json;
use crate::json_object::JsonObject;
use crate::plain_json::Plain;
use crate::shared_json::SharedJson;
use crate::text::Text;

/// A type whose clones are equal values.
pub trait ExactClone: Clone {
    ghost copies: { (x y : Self) → Self.is_clone x y → y ≡ x };
}

/// A copy of a value, which is equal to it, also where its type is an option or a pair.
pub fn copy<T: ExactClone>(value: &T) -> Result<T, NoMemory>
    ensures { IfOk result (λ copy. copy ≡ value.now) }
{
    value.clone()
}

impl ExactClone for bool {
    ghost copies = { λ x y h. Prim.search rules };
}

impl ExactClone for u8 {
    ghost copies = { λ x y h. Prim.search rules };
}

impl ExactClone for u16 {
    ghost copies = { λ x y h. Prim.search rules };
}

impl ExactClone for u32 {
    ghost copies = { λ x y h. Prim.search rules };
}

impl ExactClone for u64 {
    ghost copies = { λ x y h. Prim.search rules };
}

impl ExactClone for usize {
    ghost copies = { λ x y h. Prim.search rules };
}

impl ExactClone for i32 {
    ghost copies = { λ x y h. Prim.search rules };
}

impl ExactClone for Text {
    ghost copies = { λ x y h. h };
}

impl ExactClone for Bytes {
    ghost copies = { λ x y h. h };
}

impl ExactClone for Json {
    ghost copies = { λ x y h. h };
}

impl ExactClone for SharedJson {
    ghost copies = { λ x y h. h };
}

impl ExactClone for JsonObject {
    ghost copies = { λ x y h. h };
}

impl ExactClone for ArcText {
    ghost copies = { λ x y h. h };
}

impl ExactClone for Plain {
    ghost copies = { λ x y h. h };
}

impl<T: ExactClone> ExactClone for Items<T> {
    ghost copies = { λ x y h. h };
}

impl<V: ExactClone + Drop> ExactClone for ByNumber<V> {
    ghost copies = { λ x y h. h };
}

impl<T: ExactClone> ExactClone for Option<T> {
    ghost copies = { some_copies T.copies };
}

impl<T: ExactClone, E: ExactClone> ExactClone for Result<T, E> {
    ghost copies = { result_copies T.copies E.copies };
}

impl<A: ExactClone, B: ExactClone> ExactClone for (A, B) {
    ghost copies = { pair_copies A.copies B.copies };
}
