// The functions that a text defines.
ghost use Rattle.std.specs.Prelude.{◌≡◌, ◌≤◌, length};
ghost use Rattle.small_analysis.specs.Defined.{follows_fn};

/// Whether `fn` and one space end at a place.
#[tactic(auto, using(crate::proofs::DefinedLemmas::no_space))]
pub(crate) fn follows_fn(text: &[u8], place: usize) -> bool
    requires { place ≤ length text.now }
    ensures { result ≡ follows_fn text.now place }
{
    // The space is looked for first: most places have none.
    place >= 3 && text[place - 1] == b' ' && &text[place - 3..place] == b"fn ".as_slice()
}
