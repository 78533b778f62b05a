ghost use Rattle.std.specs.Prelude.{◌≡◌, ◌↔◌, IsTrue, Decides};
ghost use Rattle.std.specs.Cmp.{unsigned_Decides, signed_Decides, booleans_Decides};
ghost use Rattle.std.specs.Cmp.Lexicographic.{pointwise_decides};
ghost use Rattle.plain.specs.Same.{data_told};
ghost use Rattle.plain.specs.Told.{text_told, option_told, pair_told};

use crate::bytes::Bytes;
use crate::items::Items;
use crate::json::Json;
use crate::plain_json::Plain;
use crate::shared_json::SharedJson;
use crate::text::Text;

/// A type whose `==` says whether two values are equal.
pub trait DecidableEq: PartialEq {
    ghost decides: { (x y : Self) → Decides (Self.eq x y) (x ≡ y) };
}

/// Whether two values are equal.
pub fn is_same<T: DecidableEq>(a: &T, b: &T) -> bool
    ensures { IsTrue result ↔ (a.now ≡ b.now) }
{
    a == b
}

impl DecidableEq for bool {
    ghost decides = { booleans_Decides };
}

impl DecidableEq for u8 {
    ghost decides = { unsigned_Decides };
}

impl DecidableEq for u16 {
    ghost decides = { unsigned_Decides };
}

impl DecidableEq for u32 {
    ghost decides = { unsigned_Decides };
}

impl DecidableEq for u64 {
    ghost decides = { unsigned_Decides };
}

impl DecidableEq for usize {
    ghost decides = { unsigned_Decides };
}

impl DecidableEq for i32 {
    ghost decides = { signed_Decides };
}

impl DecidableEq for Text {
    ghost decides = { text_told };
}

impl DecidableEq for Bytes {
    ghost decides = { text_told };
}

impl DecidableEq for Json {
    ghost decides = { data_told };
}

impl DecidableEq for SharedJson {
    ghost decides = { data_told };
}

impl DecidableEq for Plain {
    ghost decides = { data_told };
}

impl<T: DecidableEq> DecidableEq for Items<T> {
    ghost decides = { pointwise_decides T.decides };
}

impl<T: DecidableEq> DecidableEq for Option<T> {
    ghost decides = { option_told T.decides };
}

impl<A: DecidableEq, B: DecidableEq> DecidableEq for (A, B) {
    ghost decides = { pair_told A.decides B.decides };
}
