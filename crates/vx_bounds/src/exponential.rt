//! The exponential between two lists of rounded terms.

ghost use Rattle.std.specs.Prelude.{◌≡◌, ◌+◌, ◌*◌, ◌/◌, ◌^◌, ◌<◌, ◌≤◌, pos, nat_abs, ◌+ℤ◌, ◌*ℤ◌, ◌≤ℤ◌, ◌<ℤ◌};
ghost use Rattle.std.specs.Int.{div_ceil};
ghost use Rattle.vx_num.specs.Fraction.{Fraction};
ghost use Rattle.vx_interval.specs.Ends.{IsScale, unit, width};
ghost use Rattle.vx_interval.specs.Membership.{IsMember};
ghost use Rattle.vx_bracket.specs.Bracket.{Bracket};
ghost use Rattle.vx_bounds.specs.Exponential.{IsTerms, IsTightValue, exp_ends, high_sum_to, high_term, low_sum_to, low_term, signed_ends};

use vx_interval::{Iv, power_of_two};
use vx_num::{div_ceil, div_floor};

/// How an exponential was bounded: the rounded terms on either side, in units of `2^-P`, and the
/// interval that they give.
#[derive(Clone, Copy, Debug, PartialEq, Eq)]
pub struct ExpRun<const P: u32> {
    /// `2^P`, then each term times `p` over `q*(k+1)`, rounded down.
    pub t_lo: [u64; 14],
    /// The same, rounded up.
    pub t_hi: [u64; 14],
    /// Encloses every fraction of the bracket at 12.
    pub value: Iv<P>,
}

/// The first 14 terms, and the first 13 of them added.
#[derive(Drop)]
struct Terms {
    terms: [u64; 14],
    sum: u64,
}

/// The units of 1 at a scale.
fn units(scale: u32) -> u64
    requires { scale ≤ 62 }
    ensures { result ≡ 2 ^ scale }
{
    1 << scale
}

/// The term after `term`, rounded down.
fn next_low(term: u64, p: u64, q: u64, k: u64) -> u64
    requires bounded { term ≤ 2 ^ 62 }
    requires place { k < 13 }
    requires divisor { (0 < q) × (q < 2 ^ 46) }
    requires small { 8 * p ≤ q }
    ensures { result ≡ term * p / (q * (k + 1)) }
{
    let next = term as u128 * p as u128 / (q as u128 * (k as u128 + 1));
    next as u64
}

/// The term after `term`, rounded up.
fn next_high(term: u64, p: u64, q: u64, k: u64) -> u64
    requires bounded { term ≤ 2 ^ 62 }
    requires place { k < 13 }
    requires divisor { (0 < q) × (q < 2 ^ 46) }
    requires small { 8 * p ≤ q }
    ensures { result ≡ div_ceil (term * p) (q * (k + 1)) }
{
    let product = term as u128 * p as u128;
    let next = product.div_ceil(q as u128 * (k as u128 + 1));
    next as u64
}

/// The lower list.
fn low_terms(first: u64, p: u64, q: u64) -> Terms
    requires bounded { first ≤ 2 ^ 62 }
    requires divisor { (0 < q) × (q < 2 ^ 46) }
    requires small { 8 * p ≤ q }
    ensures terms { IsTerms (low_term first p q) result.terms }
    ensures sum { result.sum ≡ low_sum_to first p q 12 }
{
    let mut terms = [first; 14];
    let mut term = first;
    let mut sum = first;
    for k in 0..12u64 {
        term = next_low(term, p, q, k);
        terms[k as usize + 1] = term;
        sum += term;
    }
    terms[13] = next_low(term, p, q, 12);
    Terms { terms, sum }
}

/// The upper list.
fn high_terms(first: u64, p: u64, q: u64) -> Terms
    requires bounded { first ≤ 2 ^ 62 }
    requires divisor { (0 < q) × (q < 2 ^ 46) }
    requires small { 8 * p ≤ q }
    ensures terms { IsTerms (high_term first p q) result.terms }
    ensures sum { result.sum ≡ high_sum_to first p q 12 }
{
    let mut terms = [first; 14];
    let mut term = first;
    let mut sum = first;
    for k in 0..12u64 {
        term = next_high(term, p, q, k);
        terms[k as usize + 1] = term;
        sum += term;
    }
    terms[13] = next_high(term, p, q, 12);
    Terms { terms, sum }
}

/// Bounds the exponential of `p/q`, for an exponent from 0 to 1/8.
pub fn exp_bounds<const P: u32>(p: u64, q: u64) -> ExpRun<P>
    requires scale { IsScale P }
    requires divisor { (0 < q) × (q < 2 ^ 46) }
    requires small { 8 * p ≤ q }
    ensures low_terms { IsTerms (low_term (2 ^ P) p q) result.t_lo }
    ensures high_terms { IsTerms (high_term (2 ^ P) p q) result.t_hi }
    ensures value { result.value ≡ exp_ends P p q }
    ensures encloses { (f : Fraction) → Bracket 12 (record { top = pos p; bottom = q }) f → IsMember P result.value f }
    ensures bounds { IsTightValue P 25 result.value }
    ensures at_least_one { unit P ≤ℤ result.value.lo }
{
    let one = units(P);
    let low = low_terms(one, p, q);
    let high = high_terms(one, p, q);
    let t_lo = low.terms;
    let t_hi = high.terms;
    let end = high.sum + 2 * t_hi[13];
    let value = Iv::new(low.sum as i128, end as i128);
    ExpRun { t_lo, t_hi, value }
}

/// Bounds the exponential of `p/q`, for an exponent from -1/8 to 1/8. For a negative exponent the
/// lists are those of `-p`, and the ends are the reciprocals of theirs.
pub fn exp_signed<const P: u32>(p: i64, q: u64) -> ExpRun<P>
    requires scale { IsScale P }
    requires divisor { (0 < q) × (q < 2 ^ 46) }
    requires small { 8 * nat_abs p ≤ q }
    ensures low_terms { IsTerms (low_term (2 ^ P) (nat_abs p) q) result.t_lo }
    ensures high_terms { IsTerms (high_term (2 ^ P) (nat_abs p) q) result.t_hi }
    ensures value { result.value ≡ signed_ends P p q }
    ensures encloses { (f : Fraction) → Bracket 12 (record { top = p; bottom = q }) f → IsMember P result.value f }
    ensures bounds { IsTightValue P 27 result.value }
    ensures at_least_one { pos 0 ≤ℤ p → unit P ≤ℤ result.value.lo }
{
    let run = exp_bounds::<P>(p.unsigned_abs(), q);
    if p >= 0 {
        return run;
    }
    let t_lo = run.t_lo;
    let t_hi = run.t_hi;
    let one = power_of_two(P);
    let square = one * one;
    let low = div_floor(square, run.value.hi());
    let high = div_ceil(square, run.value.lo());
    let value = Iv::new(low, high);
    ExpRun { t_lo, t_hi, value }
}
