//! A generator of numbers.
ghost use Rattle.std.specs.Prelude.{◌≡◌};
ghost use Rattle.turn_order.specs.Draws.{next_state as state_behind};

const FACTOR: u64 = 6_364_136_223_846_793_005;

const SUMMAND: u64 = 1_442_695_040_888_963_407;

/// The state of the generator behind one more draw.
#[tactic(auto, using(crate::proofs::Sums::draw_state))]
pub(crate) fn next_state(state: u64) -> u64
    ensures { result ≡ state_behind state }
{
    state.wrapping_mul(FACTOR).wrapping_add(SUMMAND)
}
