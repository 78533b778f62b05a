ghost use Rattle.std.specs.Prelude.{◌≡◌, ℕ, List, refl};
ghost use Rattle.plain.specs.Texts.{text_cmp, optional_text, optional_in_order};

use crate::text::Text;

/// A key that stands for a text, and is ordered as the text is.
pub trait TextKey: Ord {
    ghost text: { Self → List ℕ };

    ghost in_order: { (x y : Self) → Self.cmp x y ≡ text_cmp (text x) (text y) };
}

impl TextKey for Text {
    ghost text = { λ t. t };

    ghost in_order = { λ x y. refl };
}

impl<T: TextKey> TextKey for Option<T> {
    ghost text = { optional_text T.text };

    ghost in_order = { optional_in_order T.text T.in_order };
}
