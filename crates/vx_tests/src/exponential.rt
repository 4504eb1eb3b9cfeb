//! The tests of a term's exponential: Taylor's terms, their sums, and its two ends.

ghost use Rattle.std.specs.Prelude.{◌≡◌, ℕ, ◌+◌, ◌*◌, ◌^◌, ◌<◌, ◌≤◌, ◌↔◌, IsTrue, pos, ◌*ℤ◌, ◌≤ℤ◌, slice_index};
ghost use Rattle.vx_claims.specs.Exponential.{AreTaylorTerms, low_sum, high_sum, EncloseExponential};
ghost use Rattle.vx_tests.specs.Ranges.{IsExponentialAdmitted, EnclosesReciprocal};

use crate::scale::{product, units};
use vx_cert::Ends;
use vx_cert::limits::TAYLOR_TERMS;
use vx_claims::limits::SCALE;
use vx_formula::limits::{RATE_UNITS, YEAR_MINUTES};

/// The Taylor terms of one side.
type Terms = [u64; TAYLOR_TERMS];

/// What an exponent of 1 is: a year's minutes at a rate of 1.
const EXPONENT_UNITS: u64 = YEAR_MINUTES as u64 * RATE_UNITS as u64;

/// Each term of the first list is at most, and each of the second at least, the term of the series, at
/// an exponent of `p` over a year's minutes at a rate of 1.
pub fn are_taylor_terms(scale: u32, p: u64, low: &Terms, high: &Terms) -> bool
    requires scale { scale ≤ SCALE }
    requires exponent { p < 2 ^ 63 }
    ensures { IsTrue result ↔ AreTaylorTerms scale p (YEAR_MINUTES * RATE_UNITS) low.now high.now }
{
    let one = units(scale);
    i128::from(low[0]) <= one && one <= i128::from(high[0]) && are_low(p, low) && are_high(p, high)
}

fn are_low(p: u64, terms: &Terms) -> bool
    requires { p < 2 ^ 63 }
    ensures { IsTrue result ↔ ((k : ℕ) → k + 1 < TAYLOR_TERMS
        → slice_index terms.now (k + 1) * (YEAR_MINUTES * RATE_UNITS * (k + 1)) ≤ slice_index terms.now k * p) }
{
    for place in 0..TAYLOR_TERMS - 1 {
        if times_divisor(terms[place + 1], place + 1) > times_exponent(terms[place], p) {
            return false;
        }
    }
    true
}

fn are_high(p: u64, terms: &Terms) -> bool
    requires { p < 2 ^ 63 }
    ensures { IsTrue result ↔ ((k : ℕ) → k + 1 < TAYLOR_TERMS
        → slice_index terms.now k * p ≤ slice_index terms.now (k + 1) * (YEAR_MINUTES * RATE_UNITS * (k + 1))) }
{
    for place in 0..TAYLOR_TERMS - 1 {
        if times_exponent(terms[place], p) > times_divisor(terms[place + 1], place + 1) {
            return false;
        }
    }
    true
}

/// A term times what it was divided by.
fn times_divisor(term: u64, place: usize) -> u128
    requires { place < TAYLOR_TERMS }
    ensures { result ≡ term * (YEAR_MINUTES * RATE_UNITS * place) }
{
    u128::from(term) * (u128::from(EXPONENT_UNITS) * place as u128)
}

/// A term times what the next one is multiplied by.
fn times_exponent(term: u64, p: u64) -> u128
    requires { p < 2 ^ 63 }
    ensures { result ≡ term * p }
{
    u128::from(term) * u128::from(p)
}

/// The sum of all terms but the last.
fn low_sum(terms: &Terms) -> u128
    ensures value { result ≡ low_sum terms.now }
    ensures most { result < 2 ^ 68 }
{
    let mut sum = 0;
    for place in 0..TAYLOR_TERMS - 1 {
        sum += u128::from(terms[place]);
    }
    sum
}

/// The same and twice the last one.
fn high_sum(terms: &Terms) -> u128
    ensures value { result ≡ high_sum terms.now }
    ensures most { result < 2 ^ 69 }
{
    low_sum(terms) + 2 * u128::from(terms[TAYLOR_TERMS - 1])
}

/// The ends enclose the exponential. At a negative rate it is the reciprocal of the one at the opposite
/// rate, whose terms are the stated ones.
pub fn encloses_exponential(scale: u32, rate: i32, low: &Terms, high: &Terms, e: Ends) -> bool
    requires { scale ≤ SCALE }
    ensures { IsTrue result ↔ EncloseExponential scale rate low.now high.now e }
{
    if !is_in_range(scale, e) {
        return false;
    }
    let low = low_sum(low) as i128;
    let high = high_sum(high) as i128;
    if rate < 0 {
        encloses_reciprocal(scale, low, high, e)
    } else {
        e.lo <= low && high <= e.hi
    }
}

fn is_in_range(scale: u32, e: Ends) -> bool
    requires { scale ≤ SCALE }
    ensures { IsTrue result ↔ IsExponentialAdmitted scale e }
{
    0 <= e.lo && e.lo <= e.hi && e.hi <= 5 * units(scale) / 4
}

/// The ends enclose the reciprocal of what lies from one sum to the other.
fn encloses_reciprocal(scale: u32, low: i128, high: i128, e: Ends) -> bool
    requires scale { scale ≤ SCALE }
    requires low { (pos 0 ≤ℤ low) × (low ≤ℤ pos (2 ^ 70)) }
    requires high { (pos 0 ≤ℤ high) × (high ≤ℤ pos (2 ^ 70)) }
    requires in_range { IsExponentialAdmitted scale e }
    ensures { IsTrue result ↔ EnclosesReciprocal scale low high e }
{
    are_sums_in_range(scale, low, high) && is_reciprocal(scale, low, high, e)
}

fn are_sums_in_range(scale: u32, low: i128, high: i128) -> bool
    requires scale { scale ≤ SCALE }
    requires low { (pos 0 ≤ℤ low) × (low ≤ℤ pos (2 ^ 70)) }
    requires high { (pos 0 ≤ℤ high) × (high ≤ℤ pos (2 ^ 70)) }
    ensures { IsTrue result ↔ (((pos 4 *ℤ low) ≤ℤ pos (5 * 2 ^ scale)) × ((pos 4 *ℤ high) ≤ℤ pos (5 * 2 ^ scale))) }
{
    is_sum_in_range(scale, low) && is_sum_in_range(scale, high)
}

fn is_reciprocal(scale: u32, low: i128, high: i128, e: Ends) -> bool
    requires scale { scale ≤ SCALE }
    requires low { (pos 0 ≤ℤ low) × ((pos 4 *ℤ low) ≤ℤ pos (5 * 2 ^ scale)) }
    requires high { (pos 0 ≤ℤ high) × ((pos 4 *ℤ high) ≤ℤ pos (5 * 2 ^ scale)) }
    requires in_range { IsExponentialAdmitted scale e }
    ensures { IsTrue result ↔ (((e.lo *ℤ high) ≤ℤ pos (2 ^ scale * 2 ^ scale))
        × (pos (2 ^ scale * 2 ^ scale) ≤ℤ (e.hi *ℤ low))) }
{
    is_below_reciprocal(scale, e.lo, high) && is_above_reciprocal(scale, e.hi, low)
}

fn is_sum_in_range(scale: u32, sum: i128) -> bool
    requires scale { scale ≤ SCALE }
    requires sum { (pos 0 ≤ℤ sum) × (sum ≤ℤ pos (2 ^ 70)) }
    ensures { IsTrue result ↔ ((pos 4 *ℤ sum) ≤ℤ pos (5 * 2 ^ scale)) }
{
    4 * sum <= 5 * units(scale)
}

fn is_below_reciprocal(scale: u32, end: i128, sum: i128) -> bool
    requires scale { scale ≤ SCALE }
    requires end { (pos 0 ≤ℤ end) × ((pos 4 *ℤ end) ≤ℤ pos (5 * 2 ^ scale)) }
    requires sum { (pos 0 ≤ℤ sum) × ((pos 4 *ℤ sum) ≤ℤ pos (5 * 2 ^ scale)) }
    ensures { IsTrue result ↔ ((end *ℤ sum) ≤ℤ pos (2 ^ scale * 2 ^ scale)) }
{
    let square = unit_square(scale);
    product(end, sum) <= square
}

fn is_above_reciprocal(scale: u32, end: i128, sum: i128) -> bool
    requires scale { scale ≤ SCALE }
    requires end { (pos 0 ≤ℤ end) × ((pos 4 *ℤ end) ≤ℤ pos (5 * 2 ^ scale)) }
    requires sum { (pos 0 ≤ℤ sum) × ((pos 4 *ℤ sum) ≤ℤ pos (5 * 2 ^ scale)) }
    ensures { IsTrue result ↔ (pos (2 ^ scale * 2 ^ scale) ≤ℤ (end *ℤ sum)) }
{
    let square = unit_square(scale);
    square <= product(end, sum)
}

/// The square of the unit of 1.
fn unit_square(scale: u32) -> i128
    requires { scale ≤ SCALE }
    ensures value { result ≡ pos (2 ^ scale * 2 ^ scale) }
    ensures unit { 2 ^ scale ≤ 2 ^ SCALE }
{
    let one = units(scale);
    product(one, one)
}
