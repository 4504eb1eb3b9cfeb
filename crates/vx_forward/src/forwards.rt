//! The forward and its printed ends.

ghost use Rattle.std.specs.Prelude.{◌≡◌, ◌*◌, ◌^◌, ◌≤◌, pos, nat_abs, ◌*ℤ◌, ◌≤ℤ◌, ◌<ℤ◌};
ghost use Rattle.vx_num.specs.Fraction.{Fraction};
ghost use Rattle.vx_symbol.specs.Symbol.{IsStrikeInRange};
ghost use Rattle.vx_interval.specs.Ends.{IsInterval, unit, width};
ghost use Rattle.vx_interval.specs.Membership.{IsMember};
ghost use Rattle.vx_interval.specs.Rounding.{ceiling_of, floor_of};
ghost use Rattle.vx_formula.specs.Forward.{forward_at};
ghost use Rattle.vx_forward.specs.Pairs.{formula_pair};
ghost use Rattle.vx_forward.specs.Forward.{IsForwardInRange, forward_interval, printed_forward};

use crate::pairs::Pair;
use vx_formula::limits::FORWARD_UNITS;
use vx_interval::{Iv, power_of_two};
use vx_num::{div_ceil, div_floor};
use vx_symbol::limits::HALF_MAX;

/// The forward at a pair, in thousandths of a point: `strike + 5*d*e`, for every exponential `e` in an
/// interval. After the Cboe VIX white paper; a half cent is five thousandths of a point.
///
/// The strike is in range, the difference at most 10,000,000 in absolute value, and the exponentials
/// are from 0 to 2.
pub fn forward<const P: u32>(pair: &Pair, e: &Iv<P>) -> Iv<P>
    requires strike { IsStrikeInRange pair.now.strike }
    requires difference { nat_abs pair.now.d ≤ HALF_MAX }
    requires not_negative { pos 0 ≤ℤ e.now.lo }
    requires bounded { e.now.hi ≤ℤ (pos 2 *ℤ unit P) }
    ensures ends { result ≡ forward_interval P (formula_pair pair.now) e.now }
    ensures encloses { (x : Fraction) → IsMember P e.now x
        → IsMember P result (forward_at (formula_pair pair.now) x) }
    ensures width { width result ≡ pos (5 * nat_abs pair.now.d) *ℤ width e.now }
    ensures in_range { (pos 4 *ℤ e.now.hi) ≤ℤ (pos 5 *ℤ unit P) → IsForwardInRange P result }
    ensures interval { IsInterval P result }
{
    // Reading an end brings what every interval keeps into the proof: its scale, order and range.
    let low = e.lo();
    prove!(low >= 0);
    let spread = e.scale(five_times(pair.d));
    let strike = Iv::<P>::exact(i64::from(pair.strike));
    strike.add(&spread)
}

/// A difference of half prices in thousandths of a point.
fn five_times(d: i32) -> i64
    ensures { result ≡ pos 5 *ℤ d }
{
    5 * i64::from(d)
}

/// The two ends of a forward as they are printed, in units of `10^-12` point: the low end rounded down
/// and the high end rounded up.
///
/// The ends are within `2^27` thousandths of a point in absolute value.
pub fn forward_ends<const P: u32>(f: &Iv<P>) -> (i128, i128)
    requires { IsForwardInRange P f.now }
    ensures { result ≡ printed_forward P f.now }
{
    let lo = f.lo();
    let hi = f.hi();
    let one = power_of_two(P);
    (printed_low(lo, one), printed_high(hi, one))
}

/// A low end in units of `10^-12` point, rounded down, where `one` is a thousandth of a point.
fn printed_low(end: i128, one: i128) -> i128
    requires small { nat_abs end ≤ 2 ^ 89 }
    requires scale { pos 0 <ℤ one }
    ensures { result ≡ floor_of (pos FORWARD_UNITS *ℤ end) one }
{
    div_floor(times_units(end), one)
}

/// A high end in units of `10^-12` point, rounded up, where `one` is a thousandth of a point.
fn printed_high(end: i128, one: i128) -> i128
    requires small { nat_abs end ≤ 2 ^ 89 }
    requires scale { pos 0 <ℤ one }
    ensures { result ≡ ceiling_of (pos FORWARD_UNITS *ℤ end) one }
{
    div_ceil(times_units(end), one)
}

fn times_units(end: i128) -> i128
    requires { nat_abs end ≤ 2 ^ 89 }
    ensures { result ≡ pos FORWARD_UNITS *ℤ end }
{
    FORWARD_UNITS as i128 * end
}
