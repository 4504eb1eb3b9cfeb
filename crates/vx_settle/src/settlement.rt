//! What a position settles to.

ghost use Rattle.std.specs.Prelude.{◌≡◌, ◌≤◌, ◌*◌, ◌^◌, pos, ◌-ℤ◌, nat_abs};
ghost use Rattle.vx_settle.specs.Amount.{IsAmount};
ghost use Rattle.vx_settle.specs.Position.{IsPositionInRange, multiplier_of};

use crate::position::{Contract, Position};
use vx_num::limits::CENTS_MAX;

/// A ten-thousandth of a point times dollars a point is a hundredth of a cent.
const HUNDRED: u32 = 100;

// What a ten-thousandth of a point is worth, in cents.
fn cents_a_unit(contract: Contract) -> u32
    ensures whole { 100 * result ≡ multiplier_of contract }
    ensures bound { result ≤ 10 }
{
    contract.multiplier() / HUNDRED
}

// From a last price up to a figure, in ten-thousandths of a point.
fn gain(c: u64, last: u32) -> i128
    requires figure { c ≤ CENTS_MAX }
    ensures value { result ≡ pos (100 * c) -ℤ pos last }
    ensures bound { nat_abs result ≤ 2 ^ 32 }
{
    100 * i128::from(c) - i128::from(last)
}

/// What a position settles to, in cents, at a figure of `c` cents of a point: the figure less the last
/// price, times dollars a point, times the quantity. Below zero where it is paid.
///
/// Takes no memory. Both contracts have a whole number of hundreds of dollars a point, so the amount is
/// whole. It is below 2^56 in absolute value.
pub fn amount(c: u64, p: &Position) -> i128
    requires figure { c ≤ CENTS_MAX }
    requires in_range { IsPositionInRange p.now }
    ensures value { IsAmount c p.now result }
    ensures bound { nat_abs result ≤ 2 ^ 56 }
{
    gain(c, p.last) * i128::from(cents_a_unit(p.contract)) * i128::from(p.quantity)
}
