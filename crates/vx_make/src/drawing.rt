//! The small generator that numbers are drawn from.

ghost use Rattle.std.specs.Prelude.{◌≡◌, ◌<◌, ◌≤◌};
ghost use Rattle.vx_make.specs.Drawing.{next_state, value_below};

use crate::limits::{INCREMENT, LOW_PART, MULTIPLIER, STATES};

#[tactic(auto, unfolding(crate::specs::Drawing::next_state))]
/// Takes the generator one step on, and draws a number below `n` from its new state.
///
/// The state is below 2^31, before and after.
pub fn draw(state: &mut u32, n: u32) -> u32
    requires some { 1 ≤ n }
    requires in_range { state.old < STATES }
    ensures step { state.new ≡ next_state state.old }
    ensures in_range { state.new < STATES }
    ensures value { result ≡ value_below n state.new }
    ensures below { result < n }
{
    let product = u64::from(*state) * u64::from(MULTIPLIER);
    *state = ((product + u64::from(INCREMENT)) % u64::from(STATES)) as u32;
    *state / LOW_PART % n
}
