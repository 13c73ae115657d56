//! The numbers that are drawn.
ghost use Rattle.std.specs.Prelude.{◌≡◌};
ghost use Rattle.hive_gen.specs.Draws.{drawn, next_state};

const MULTIPLIER: u64 = 6_364_136_223_846_793_005;

const INCREMENT: u64 = 1_442_695_040_888_963_407;

// The state that a draw leaves.
#[tactic(auto, unfolding(crate::specs::Draws::next_state))]
pub(crate) fn next_state(state: u64) -> u64
    ensures { result ≡ next_state state }
{
    state.wrapping_mul(MULTIPLIER).wrapping_add(INCREMENT)
}

// What the draw gave that left this state: 31 bits.
#[tactic(auto, unfolding(crate::specs::Draws::drawn))]
pub(crate) fn drawn(state: u64) -> u64
    ensures { result ≡ drawn state }
{
    state >> 33
}
