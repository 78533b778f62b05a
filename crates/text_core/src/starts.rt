// Where the lines of a text begin.
ghost use Rattle.std.specs.Prelude.{◌≡◌, ◌+◌, ◌-◌, ◌<◌, ◌≤◌, ◌^◌, ◌++◌, ℕ, List, OnOk, All, length, map};
ghost use Rattle.text_core.specs.Starts.{line_starts, starts_in};

use memchr::memchr_iter;
use std::alloc::AllocError;

/// A line of a program seldom has fewer bytes on average.
const SHORT_LINE: usize = 24;

/// Puts the starts of the lines that a part of a text begins behind what a list holds. The part begins at a place.
pub(crate) fn push_starts(
    starts: &mut Vec<u32>,
    part: &[u8],
    place: usize,
) -> Result<(), AllocError>
    requires { place + length part.now < 2 ^ 32 }
    ensures { OnOk result (starts.new.items ≡ starts.old.items ++ starts_in place part.now) }
{
    for offset in memchr_iter(b'\n', part) {
        starts.push((place + offset + 1) as u32)?;
    }
    Ok(())
}

/// Puts the starts of all lines into a list, in place of what it holds. The list grows while it is
/// filled only where the lines are short.
#[tactic(auto, unfolding(crate::specs::Starts::line_starts))]
pub(crate) fn find_starts(starts: &mut Vec<u32>, text: &[u8]) -> Result<(), AllocError>
    requires { length text.now < 2 ^ 32 }
    ensures { OnOk result (starts.new.items ≡ line_starts text.now) }
{
    starts.clear();
    starts.reserve(text.len() / SHORT_LINE + 1)?;
    starts.push(0)?;
    push_starts(starts, text, 0)
}

/// Puts starts behind what a list holds, as far past one place as they are past another.
pub(crate) fn push_moved(
    starts: &mut Vec<u32>,
    moved: &[u32],
    from: usize,
    to: usize,
) -> Result<(), AllocError>
    requires { All (λ start. (from ≤ start) × (start - from + to < 2 ^ 32)) moved.now }
    ensures { OnOk result (starts.new.items ≡ starts.old.items ++ map (λ start. start - from + to) moved.now) }
{
    if from == to {
        return starts.extend_from_slice(moved);
    }
    for start in moved {
        starts.push((*start as usize - from + to) as u32)?;
    }
    Ok(())
}

/// How many of the starts are at most a place.
pub(crate) fn starts_up_to(starts: &[u32], place: usize) -> usize
    ensures within { result ≤ length starts.now }
    ensures splits { (low high : List ℕ) → starts.now ≡ low ++ high → All (λ start. start ≤ place) low →
        All (λ start. place < start) high → result ≡ length low }
{
    starts.partition_point(|start| *start as usize <= place)
}
