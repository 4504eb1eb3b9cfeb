//! The signed root, by whole numbers whose squares lie on either side.

ghost use Rattle.std.specs.Prelude.{◌≡◌, ◌+◌, ◌-◌, ◌*◌, ◌<◌, ◌≤◌, ◌+ℤ◌, ◌-ℤ◌, ◌*ℤ◌, ◌≤ℤ◌, ◌<ℤ◌, neg_ℤ, pos, nat_abs};
ghost use Rattle.vx_num.specs.SignedSquare.{signed_square};
ghost use Rattle.vx_num.specs.declared.limits.TheConstants.{INDEX_END_MAX, SQUARE_MAX};
ghost use Rattle.vx_interval.specs.Ends.{unit};
ghost use Rattle.vx_bounds.specs.Root.{IsGreatestRoot, IsLeastRoot};
ghost use Rattle.vx_bounds.specs.declared.root.TheConstants.{SQUARE_UNITS_MAX};

use vx_interval::{Iv, power_of_two};
use vx_num::{div_ceil, div_floor};

/// The index is 100 times the root, in millionths of a point: its square is this many times the value.
const SQUARE_OF_UNITS: i128 = 10_000_000_000_000_000;

/// The greatest square whose root is taken, in units of which a root counts one.
const SQUARE_UNITS_MAX: u128 = 10_240_000_000_000_000_000;

/// The greatest whole number whose square is at most `n`.
fn root_down(n: u128) -> u64
    requires { n ≤ SQUARE_UNITS_MAX }
    ensures at_most { result * result ≤ n }
    ensures next_above { n < (result + 1) * (result + 1) }
    ensures bound { result ≤ INDEX_END_MAX }
{
    let root = n.isqrt();
    root as u64
}

/// The least whole number whose square is at least `n`.
fn root_up(n: u128) -> u64
    requires positive { 0 < n }
    requires bounded { n ≤ SQUARE_UNITS_MAX }
    ensures at_least { n ≤ result * result }
    ensures last_below { (result - 1) * (result - 1) < n }
    ensures bound { (0 < result) × (result ≤ INDEX_END_MAX) }
{
    let root = root_down(n);
    let square = root as u128 * root as u128;
    if square == n { root } else { root + 1 }
}

/// The greatest whole number whose signed square is at most `n`.
fn signed_root_below(n: i128) -> i64
    requires { nat_abs n ≤ SQUARE_UNITS_MAX }
    ensures at_most { signed_square result ≤ℤ n }
    ensures next_above { n <ℤ signed_square (result +ℤ pos 1) }
    ensures bound { nat_abs result ≤ INDEX_END_MAX }
{
    if n < 0 {
        -(root_up(n.unsigned_abs()) as i64)
    } else {
        root_down(n as u128) as i64
    }
}

/// The least whole number whose signed square is at least `n`.
fn signed_root_above(n: i128) -> i64
    requires { nat_abs n ≤ SQUARE_UNITS_MAX }
    ensures at_least { n ≤ℤ signed_square result }
    ensures last_below { signed_square (result -ℤ pos 1) <ℤ n }
    ensures bound { nat_abs result ≤ INDEX_END_MAX }
{
    -signed_root_below(-n)
}

/// The ends of the index in millionths of a point: 100 times the signed root of every member lies
/// between them. The first is the greatest whole number at most the root of the low end, the second
/// the least at least the root of the high end.
pub fn root_ends<const P: u32>(x: &Iv<P>) -> (i64, i64)
    requires low { neg_ℤ (pos SQUARE_MAX *ℤ unit P) ≤ℤ x.now.lo }
    requires high { x.now.hi ≤ℤ (pos SQUARE_MAX *ℤ unit P) }
    ensures first { IsGreatestRoot (unit P) x.now.lo result.0 }
    ensures second { IsLeastRoot (unit P) x.now.hi result.1 }
    ensures bound { (nat_abs result.0 ≤ INDEX_END_MAX) × (nat_abs result.1 ≤ INDEX_END_MAX) }
{
    let lo = x.lo();
    let hi = x.hi();
    let one = power_of_two(P);
    let low = div_floor(SQUARE_OF_UNITS * lo, one);
    let high = div_ceil(SQUARE_OF_UNITS * hi, one);
    (signed_root_below(low), signed_root_above(high))
}
