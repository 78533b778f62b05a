// The numbers that are drawn: a linear congruential generator.
ghost use Rattle.std.specs.Prelude.{◌≡◌, ◌<◌, ◌^◌};
ghost use Rattle.message_generator.specs.Draws.{next_state, drawn};

const MULTIPLIER: u64 = 6_364_136_223_846_793_005;

const INCREMENT: u64 = 1_442_695_040_888_963_407;

/// The state after a draw.
#[tactic(auto, unfolding(crate::specs::Draws::next_state))]
pub fn next_state(state: u64) -> u64
    ensures { result ≡ next_state state }
{
    state.wrapping_mul(MULTIPLIER).wrapping_add(INCREMENT)
}

/// What was drawn, by the state after it.
#[tactic(auto, unfolding(crate::specs::Draws::drawn))]
pub fn drawn(state: u64) -> u64
    ensures { result ≡ drawn state }
{
    state >> 33
}
