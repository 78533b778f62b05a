// How much of a text edits leave as it was.
ghost use Rattle.std.specs.Prelude.{◌≡◌, ◌-◌, ◌≤◌, ℕ, List, length};
ghost use Rattle.std.specs.List.{replace_range};
ghost use Rattle.text_core.specs.CommonEnds.{HasEnds, ComesFrom};

/// So many bytes in front of all edits, and so many behind them.
#[derive(Clone, Copy)]
pub(crate) struct CommonEnds {
    pub(crate) front: usize,
    pub(crate) back: usize,
}

/// What one edit more leaves, with so many bytes in front of it and behind it.
pub(crate) fn ends_after(ends: Option<CommonEnds>, front: usize, back: usize) -> CommonEnds
    ensures { (before text new : List ℕ) (to : ℕ) → ComesFrom before text ends → front ≤ to → to ≤ length text →
        back ≡ length text - to → HasEnds before (replace_range text front to new) result }
{
    match ends {
        None => CommonEnds { front, back },
        Some(ends) => CommonEnds {
            front: ends.front.min(front),
            back: ends.back.min(back),
        },
    }
}
