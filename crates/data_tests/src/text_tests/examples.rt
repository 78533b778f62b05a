// What specs come to by example.
ghost use Rattle.std.specs.Prelude.{◌≡◌, [], ◌∷◌, codes, true, false};
ghost use Rattle.text_core.specs.Rebuilds.{rebuilds};
ghost use Rattle.text_core.specs.Skips.{skips};
ghost use Rattle.data_tests.specs.Examples.{utf16, three_lines, at_line, with_reversed, whole_text, insert};

/// The counts of rebuilds, which take no bytes at run time, and skips under a small limit.
fn come_to_this()
    ensures backward { rebuilds utf16 100 three_lines (at_line 2 ∷ at_line 1 ∷ at_line 0 ∷ []) ≡ 0 }
    ensures forward { rebuilds utf16 100 three_lines (at_line 0 ∷ at_line 1 ∷ at_line 2 ∷ []) ≡ 2 }
    ensures twice { rebuilds utf16 100 three_lines (at_line 0 ∷ at_line 0 ∷ []) ≡ 1 }
    ensures past { rebuilds utf16 100 three_lines (at_line 9 ∷ at_line 9 ∷ []) ≡ 0 }
    ensures reversed { rebuilds utf16 100 (97 ∷ 10 ∷ 98 ∷ 10 ∷ 99 ∷ 10 ∷ []) with_reversed ≡ 1 }
    ensures limited { skips utf16 3 (codes "ab") (insert (codes "XY") ∷ insert (codes "X") ∷ []) ≡ true }
    ensures dropped { skips utf16 3 (codes "ab") (insert (codes "four") ∷ []) ≡ false }
    ensures whole_dropped { skips utf16 3 (codes "ab") (at_line 9 ∷ whole_text (codes "four") ∷ []) ≡ true }
    ensures before_whole { skips utf16 3 (codes "ab") (at_line 9 ∷ whole_text (codes "the") ∷ []) ≡ false }
{}

#[test]
fn counts_of_rebuilds_and_skips_under_a_limit() {
    come_to_this();
}
