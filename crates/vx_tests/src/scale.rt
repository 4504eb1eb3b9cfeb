//! Numbers at a scale `P`, which count `2^-P`, and their products.

ghost use Rattle.std.specs.Prelude.{◌≡◌, ◌*◌, ◌^◌, ◌<◌, ◌≤◌, ◌↔◌, IsTrue, pos, ◌*ℤ◌, ◌≤ℤ◌};
ghost use Rattle.vx_claims.specs.Accepts.{scale_of};
ghost use Rattle.vx_claims.specs.TermTests.{IsWithin};

use vx_claims::limits::{FIRST_SCALE, SCALE};
use vx_formula::limits::VARIANCE_MAX;

/// The scale of a certificate's numbers, by its version.
pub fn scale_of(version: u32) -> u32
    ensures value { result ≡ scale_of version }
    ensures least { FIRST_SCALE ≤ result }
    ensures most { result ≤ SCALE }
{
    if version == 1 { FIRST_SCALE } else { SCALE }
}

/// Two to this power.
pub(crate) fn power(bits: u32) -> i128
    requires { bits ≤ 126 }
    ensures { result ≡ pos (2 ^ bits) }
{
    (1_u128 << bits) as i128
}

/// The units of 1 at a scale.
pub(crate) fn units(scale: u32) -> i128
    requires { scale ≤ SCALE }
    ensures value { result ≡ pos (2 ^ scale) }
    ensures most { 2 ^ scale ≤ 2 ^ SCALE }
{
    power(scale)
}

/// From minus a limit to the limit.
pub(crate) fn is_within(limit: u128, z: i128) -> bool
    requires { limit < 2 ^ 127 }
    ensures { IsTrue result ↔ IsWithin limit z }
{
    let limit = limit as i128;
    -limit <= z && z <= limit
}

/// So many times the unit of 1 at a scale.
pub(crate) fn limit(scale: u32, ones: u32) -> u128
    requires scale { scale ≤ SCALE }
    requires ones { ones ≤ 1024 }
    ensures value { result ≡ ones * 2 ^ scale }
    ensures most { result ≤ ones * 2 ^ SCALE }
{
    u128::from(ones) * (units(scale) as u128)
}

/// A number of units at a scale.
pub(crate) fn scaled(scale: u32, z: i128) -> i128
    requires scale { scale ≤ SCALE }
    requires number { IsWithin (VARIANCE_MAX * 2 ^ scale) z }
    ensures value { result ≡ z *ℤ pos (2 ^ scale) }
{
    let one = units(scale);
    z * one
}

/// A strike at a scale.
pub(crate) fn strike_end(scale: u32, strike: u32) -> i128
    requires { scale ≤ SCALE }
    ensures value { result ≡ pos (strike * 2 ^ scale) }
    ensures bound { IsWithin (2 ^ 99) result }
    ensures unit { 2 ^ scale ≤ 2 ^ SCALE }
{
    times_small(units(scale), i128::from(strike))
}

/// A product of an end and a factor of 34 bits.
pub(crate) fn times_small(end: i128, factor: i128) -> i128
    requires end { IsWithin (2 ^ 65) end }
    requires factor { IsWithin (2 ^ 34) factor }
    ensures value { result ≡ end *ℤ factor }
    ensures bound { IsWithin (2 ^ 99) result }
{
    end * factor
}

/// A product of two ends that are not negative.
pub(crate) fn product(a: i128, b: i128) -> i128
    requires first { (pos 0 ≤ℤ a) × (a ≤ℤ pos (5 * 2 ^ 61)) }
    requires second { (pos 0 ≤ℤ b) × (b ≤ℤ pos (2 ^ 63)) }
    ensures value { result ≡ a *ℤ b }
    ensures bound { (pos 0 ≤ℤ result) × (result ≤ℤ pos (5 * 2 ^ 124)) }
{
    a * b
}
