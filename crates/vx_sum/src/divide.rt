//! The one division of the calculator's sums.

ghost use Rattle.std.specs.Prelude.{◌≡◌, ◌+◌, ◌-◌, ◌*◌, ◌/◌, ◌^◌, ◌<◌, ◌≤◌};
ghost use Rattle.vx_formula.specs.Strip.{upper_end};
ghost use Rattle.vx_strip.specs.Entries.{IsRowInRange, entry_of};
ghost use Rattle.vx_sum.specs.Sums.{lower_end};

use std::sync::ledger::Ledger;
use vx_num::Steps;
use vx_strip::StripRow;

/// A row's contribution rounded down and up, in units of `2^-scale`. Before the sum is accepted it may
/// pass 64 bits.
#[derive(Clone, Copy)]
pub struct WideEnds {
    pub lo: u128,
    pub hi: u128,
}

/// As many units are 1.
pub fn units(scale: u32) -> u128
    requires { scale ≤ 62 }
    ensures { result ≡ 2 ^ scale }
{
    let units = 1u64 << scale;
    u128::from(units)
}

/// The divisor of a row's contribution, `4*K^2`.
fn divisor(row: &StripRow) -> u128
    requires { IsRowInRange row.now }
    ensures value { result ≡ 4 * (row.now.strike * row.now.strike) }
    ensures positive { 0 < result }
{
    let strike = u64::from(row.strike);
    u128::from(4 * (strike * strike))
}

/// The dividend of a row's contribution, `5*d*q4` times the units of 1.
fn dividend(row: &StripRow, units: u128) -> u128
    requires in_range { IsRowInRange row.now }
    requires small { units ≤ 2 ^ 62 }
    ensures value { result ≡ 5 * (row.now.d * row.now.q4) * units }
    ensures small { result < 2 ^ 127 }
{
    let width = u64::from(row.d);
    let price = u64::from(row.q4);
    u128::from(5 * (width * price)) * units
}

/// Divides a row's contribution at a scale, and counts a step.
pub fn divide<L: Ledger>(scale: u32, row: &StripRow, steps: &mut Steps<L>) -> WideEnds
    requires scale { scale ≤ 62 }
    requires in_range { IsRowInRange row.now }
    requires count { steps.old < 2 ^ 64 - 1 }
    ensures lo { result.lo ≡ lower_end scale (entry_of row.now) }
    ensures hi { result.hi ≡ upper_end scale (entry_of row.now) }
    ensures step { steps.new ≡ steps.old + 1 }
{
    steps.tick();
    let divisor = divisor(row);
    let dividend = dividend(row, units(scale));
    let lo = dividend / divisor;
    WideEnds {
        lo,
        hi: rounded_up(dividend, divisor, lo),
    }
}

/// A quotient rounded up, from the same one rounded down: no second division.
fn rounded_up(dividend: u128, divisor: u128, floor: u128) -> u128
    requires positive { 0 < divisor }
    requires small { dividend < 2 ^ 127 }
    requires floor { floor ≡ dividend / divisor }
    ensures { result ≡ (dividend + (divisor - 1)) / divisor }
{
    if floor * divisor == dividend {
        floor
    } else {
        floor + 1
    }
}
