//! Rounding to hundredths of a point.

ghost use Rattle.std.specs.Prelude.{◌≡◌, ◌^◌, ◌≤◌, ◌≤ℤ◌};
ghost use Rattle.vx_bounds.specs.Cents.{Decides, cents_of};

use vx_num::limits::{CENT, HALF_CENT};

/// What two ends of an index say, in millionths of a point.
#[derive(Clone, Copy, Debug, PartialEq, Eq)]
pub enum Decision {
    /// Rounding does not change between the ends: the figure, in hundredths of a point.
    Cents(u64),
    /// Rounding changes at a value above the low end and at most at the high one.
    Straddle,
    /// Both ends are below zero, where there is no root.
    Negative,
}

/// The figure of `v` millionths of a point, in hundredths. An exact half rounds up.
pub fn round_cents(v: u64) -> u64
    requires { v ≤ 2 ^ 63 }
    ensures { result ≡ cents_of v }
{
    (v + u64::from(HALF_CENT)) / u64::from(CENT)
}

/// Decides on a figure from two ends in millionths of a point. Rounding changes at 0 and at every half
/// of a hundredth.
pub fn decide(lo: i64, hi: i64) -> Decision
    requires { lo ≤ℤ hi }
    ensures { Decides lo hi result }
{
    if lo < 0 {
        return if hi < 0 {
            Decision::Negative
        } else {
            Decision::Straddle
        };
    }
    let figure = round_cents(lo as u64);
    if figure == round_cents(hi as u64) {
        Decision::Cents(figure)
    } else {
        Decision::Straddle
    }
}
