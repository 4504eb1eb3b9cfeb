//! The tests of a term's forward: its ends, and how far they lie above the level.

ghost use Rattle.std.specs.Prelude.{◌≡◌, ◌+◌, ◌*◌, ◌^◌, ◌≤◌, ◌↔◌, IsTrue, pos, ◌+ℤ◌, ◌-ℤ◌, ◌*ℤ◌, ◌≤ℤ◌};
ghost use Rattle.vx_claims.specs.TermTests.{EnclosesForward, EnclosesExcess, IsWithin, forward_end};
ghost use Rattle.vx_claims.specs.Accepts.{zero_rate_forward};
ghost use Rattle.vx_tests.specs.Ranges.{IsExponentialAdmitted, IsExcessAdmitted};

use crate::scale::{is_within, limit, power, strike_end, times_small, units};
use vx_cert::{Ends, Pair};
use vx_claims::limits::{EXCESS_MAX, FORWARD_BITS, SCALE};

/// The ends enclose the forward, which is the pair's strike and its difference times the exponential.
pub fn encloses_forward(scale: u32, pair: Pair, e: Ends, f: Ends) -> bool
    requires scale { scale ≤ SCALE }
    requires exponential { IsExponentialAdmitted scale e }
    ensures { IsTrue result ↔ EnclosesForward scale pair e f }
{
    are_around(
        f,
        forward_end(scale, pair, e.lo),
        forward_end(scale, pair, e.hi),
    ) && are_in_range(scale, f)
}

fn are_around(f: Ends, low: i128, high: i128) -> bool
    ensures { IsTrue result ↔ ((f.lo ≤ℤ low) × (low ≤ℤ f.hi) × (f.lo ≤ℤ high) × (high ≤ℤ f.hi)) }
{
    is_around(f, low) && is_around(f, high)
}

fn are_in_range(scale: u32, f: Ends) -> bool
    requires { scale ≤ SCALE }
    ensures { IsTrue result ↔ (IsWithin (2 ^ (scale + FORWARD_BITS)) f.lo
        × IsWithin (2 ^ (scale + FORWARD_BITS)) f.hi) }
{
    is_forward_in_range(scale, f.lo) && is_forward_in_range(scale, f.hi)
}

fn is_around(f: Ends, forward: i128) -> bool
    ensures { IsTrue result ↔ ((f.lo ≤ℤ forward) × (forward ≤ℤ f.hi)) }
{
    f.lo <= forward && forward <= f.hi
}

/// The forward at an end of the exponential.
fn forward_end(scale: u32, pair: Pair, y: i128) -> i128
    requires scale { scale ≤ SCALE }
    requires least { pos 0 ≤ℤ y }
    requires most { (pos 4 *ℤ y) ≤ℤ pos (5 * 2 ^ scale) }
    ensures { result ≡ forward_end scale pair y }
{
    let strike = strike_end(scale, pair.strike);
    strike + 5 * times_small(y, i128::from(pair.d))
}

fn is_forward_in_range(scale: u32, end: i128) -> bool
    requires { scale ≤ SCALE }
    ensures { IsTrue result ↔ IsWithin (2 ^ (scale + FORWARD_BITS)) end }
{
    is_within(power(scale + FORWARD_BITS) as u128, end)
}

/// At rate zero both ends of the forward are the same.
pub fn zero_rate_forward(scale: u32, pair: Pair) -> Ends
    requires { scale ≤ SCALE }
    ensures { result ≡ zero_rate_forward scale pair }
{
    let end = zero_rate_end(scale, i128::from(pair.strike) + 5 * i128::from(pair.d));
    Ends { lo: end, hi: end }
}

fn zero_rate_end(scale: u32, forward: i128) -> i128
    requires scale { scale ≤ SCALE }
    requires forward { IsWithin (2 ^ 34) forward }
    ensures { result ≡ forward *ℤ pos (2 ^ scale) }
{
    forward * units(scale)
}

/// The ends enclose how far the forward lies above the level, over the level.
pub fn encloses_excess(scale: u32, f: Ends, k0: u32, g: Ends) -> bool
    requires { scale ≤ SCALE }
    ensures { IsTrue result ↔ EnclosesExcess scale f k0 g }
{
    is_excess_in_range(scale, g) && is_excess_around(scale, f, k0, g)
}

fn is_excess_around(scale: u32, f: Ends, k0: u32, g: Ends) -> bool
    requires scale { scale ≤ SCALE }
    requires excess { IsExcessAdmitted scale g }
    ensures { IsTrue result ↔ (((g.lo *ℤ pos k0) ≤ℤ (f.lo -ℤ pos (k0 * 2 ^ scale)))
        × ((f.hi -ℤ pos (k0 * 2 ^ scale)) ≤ℤ (g.hi *ℤ pos k0))) }
{
    is_excess_below(scale, g.lo, k0, f.lo) && is_excess_above(scale, g.hi, k0, f.hi)
}

fn is_excess_in_range(scale: u32, g: Ends) -> bool
    requires { scale ≤ SCALE }
    ensures { IsTrue result ↔ IsExcessAdmitted scale g }
{
    0 <= g.lo && g.lo <= g.hi && g.hi <= limit(scale, EXCESS_MAX) as i128
}

fn is_excess_below(scale: u32, excess: i128, k0: u32, forward: i128) -> bool
    requires scale { scale ≤ SCALE }
    requires least { pos 0 ≤ℤ excess }
    requires most { excess ≤ℤ pos (EXCESS_MAX * 2 ^ scale) }
    ensures { IsTrue result ↔ ((excess *ℤ pos k0) ≤ℤ (forward -ℤ pos (k0 * 2 ^ scale))) }
{
    forward_of(scale, excess, k0) <= forward
}

fn is_excess_above(scale: u32, excess: i128, k0: u32, forward: i128) -> bool
    requires scale { scale ≤ SCALE }
    requires least { pos 0 ≤ℤ excess }
    requires most { excess ≤ℤ pos (EXCESS_MAX * 2 ^ scale) }
    ensures { IsTrue result ↔ ((forward -ℤ pos (k0 * 2 ^ scale)) ≤ℤ (excess *ℤ pos k0)) }
{
    forward <= forward_of(scale, excess, k0)
}

/// The forward that lies so far above the level.
fn forward_of(scale: u32, excess: i128, k0: u32) -> i128
    requires scale { scale ≤ SCALE }
    requires least { pos 0 ≤ℤ excess }
    requires most { excess ≤ℤ pos (EXCESS_MAX * 2 ^ scale) }
    ensures { result ≡ (excess *ℤ pos k0 +ℤ pos (k0 * 2 ^ scale)) }
{
    let level = strike_end(scale, k0);
    times_small(excess, i128::from(k0)) + level
}
