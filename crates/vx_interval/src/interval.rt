//! The interval type and its operations.

ghost use Rattle.std.specs.Prelude.{◌≡◌, ◌^◌, ◌*◌, ◌-◌, ◌≤◌, pos, nat_abs, ◌≤ℤ◌, ◌<ℤ◌, ◌*ℤ◌, ◌+ℤ◌};
ghost use Rattle.vx_num.specs.Fraction.{Fraction, whole, ◌+ᶠ◌, ◌-ᶠ◌, ◌*ᶠ◌, ◌/ᶠ◌};
ghost use Rattle.vx_interval.specs.Ends.{Ends, IsIntervalInRange, IsInterval, IsScale, add_ends, exact_ends, greatest_product, least_product, magnitude, mul_ends, over_ends, ratio_ends, rescale_ends, rounded_ends, scale_ends, square_ends, sub_ends, unit, width};
ghost use Rattle.vx_interval.specs.Membership.{IsMember};

use crate::product::{
    greatest, greatest_square, least, least_square, power_of_two, product, times,
};
use std::marker::Model;
use vx_num::{div_ceil, div_floor};

/// All fractions from `lo/2^P` to `hi/2^P`. The scale `P` is from 40 to 62, `lo` is at most `hi`, and
/// both are within `2^110` in absolute value.
#[derive(Clone, Copy, Debug, PartialEq, Eq)]
pub struct Iv<const P: u32> {
    lo: i128,
    hi: i128,
}

impl<const P: u32> Model for Iv<P> {
    ghost use Rattle.vx_interval.specs.Ends.{Ends, IsInterval};

    ghost Value = { Ends };

    ghost view = { λ x. record { lo = x.lo; hi = x.hi } };

    ghost invariant = { λ x. IsInterval P (record { lo = x.lo; hi = x.hi }) };

    ghost inverse = { λ x. record { lo = x.lo; hi = x.hi } };
}

impl<const P: u32> Iv<P> {
    /// The low end, in units of `2^-P`.
    pub fn lo(&self) -> i128
        ensures value { result ≡ self.now.lo }
        ensures interval { IsInterval P self.now }
    {
        self.lo
    }

    /// The high end, in units of `2^-P`.
    pub fn hi(&self) -> i128
        ensures value { result ≡ self.now.hi }
        ensures interval { IsInterval P self.now }
    {
        self.hi
    }

    /// The interval with these ends, in units of `2^-P`.
    pub fn new(lo: i128, hi: i128) -> Self
        requires scale { IsScale P }
        requires ordered { lo ≤ℤ hi }
        requires in_range { IsIntervalInRange (record { lo = lo; hi = hi }) }
        ensures ends { result ≡ record { lo = lo; hi = hi } }
        ensures interval { IsInterval P result }
    {
        Iv { lo, hi }
    }

    /// The interval from the floor of `low/den` to the ceiling of `high/den`.
    fn rounded(low: i128, high: i128, den: i128) -> Self
        requires scale { IsScale P }
        requires divisor { pos 0 <ℤ den }
        requires ordered { low ≤ℤ high }
        requires in_range { IsIntervalInRange (rounded_ends low high den) }
        ensures ends { result ≡ rounded_ends low high den }
        ensures interval { IsInterval P result }
    {
        Self::new(div_floor(low, den), div_ceil(high, den))
    }

    /// The least product of an end of each.
    fn least_product(&self, o: &Self) -> i128
        requires { magnitude self.now * magnitude o.now ≤ 2 ^ 126 }
        ensures value { result ≡ least_product self.now o.now }
        ensures interval { IsInterval P self.now }
        ensures other_interval { IsInterval P o.now }
    {
        let low = self.lo();
        let high = self.hi();
        let other_low = o.lo();
        let other_high = o.hi();
        least(
            product(low, other_low),
            product(low, other_high),
            product(high, other_low),
            product(high, other_high),
        )
    }

    /// The greatest product of an end of each.
    fn greatest_product(&self, o: &Self) -> i128
        requires { magnitude self.now * magnitude o.now ≤ 2 ^ 126 }
        ensures value { result ≡ greatest_product self.now o.now }
        ensures interval { IsInterval P self.now }
        ensures other_interval { IsInterval P o.now }
    {
        let low = self.lo();
        let high = self.hi();
        let other_low = o.lo();
        let other_high = o.hi();
        greatest(
            product(low, other_low),
            product(low, other_high),
            product(high, other_low),
            product(high, other_high),
        )
    }

    /// The whole number `n` alone.
    pub fn exact(n: i64) -> Self
        requires scale { IsScale P }
        requires in_range { IsIntervalInRange (exact_ends P n) }
        ensures ends { result ≡ exact_ends P n }
        ensures encloses { IsMember P result (whole n) }
        ensures width { width result ≡ pos 0 }
        ensures interval { IsInterval P result }
    {
        let end = n as i128 * power_of_two(P);
        Self::new(end, end)
    }

    /// The quotient `num/den`, at most one unit wide.
    pub fn ratio(num: i128, den: i128) -> Self
        requires scale { IsScale P }
        requires divisor { pos 0 <ℤ den }
        requires small { nat_abs num ≤ 2 ^ (126 - P) }
        requires in_range { IsIntervalInRange (ratio_ends P num den) }
        ensures ends { result ≡ ratio_ends P num den }
        ensures encloses { IsMember P result (record { top = num; bottom = nat_abs den }) }
        ensures width { width result ≤ℤ pos 1 }
        ensures interval { IsInterval P result }
    {
        let scaled = product(num, power_of_two(P));
        Self::rounded(scaled, scaled, den)
    }

    /// Every sum of a member of each.
    pub fn add(&self, o: &Self) -> Self
        requires in_range { IsIntervalInRange (add_ends self.now o.now) }
        ensures ends { result ≡ add_ends self.now o.now }
        ensures encloses { (f g : Fraction) → IsMember P self.now f → IsMember P o.now g → IsMember P result (f +ᶠ g) }
        ensures width { width result ≡ width self.now +ℤ width o.now }
        ensures interval { IsInterval P result }
    {
        Self::new(self.lo() + o.lo(), self.hi() + o.hi())
    }

    /// Every difference of a member of this and one of the other.
    pub fn sub(&self, o: &Self) -> Self
        requires in_range { IsIntervalInRange (sub_ends self.now o.now) }
        ensures ends { result ≡ sub_ends self.now o.now }
        ensures encloses { (f g : Fraction) → IsMember P self.now f → IsMember P o.now g → IsMember P result (f -ᶠ g) }
        ensures width { width result ≡ width self.now +ℤ width o.now }
        ensures interval { IsInterval P result }
    {
        Self::new(self.lo() - o.hi(), self.hi() - o.lo())
    }

    /// Every member `k` times.
    pub fn scale(&self, k: i64) -> Self
        requires in_range { IsIntervalInRange (scale_ends self.now k) }
        ensures ends { result ≡ scale_ends self.now k }
        ensures encloses { (f : Fraction) → IsMember P self.now f → IsMember P result (whole k *ᶠ f) }
        ensures width { width result ≡ pos (nat_abs k) *ℤ width self.now }
        ensures interval { IsInterval P result }
    {
        let low = self.lo();
        let high = self.hi();
        if k < 0 {
            Self::new(times(k, high), times(k, low))
        } else {
            Self::new(times(k, low), times(k, high))
        }
    }

    /// Every product of a member of each.
    pub fn mul(&self, o: &Self) -> Self
        requires small { magnitude self.now * magnitude o.now ≤ 2 ^ 126 }
        ensures ends { result ≡ mul_ends P self.now o.now }
        ensures encloses { (f g : Fraction) → IsMember P self.now f → IsMember P o.now g → IsMember P result (f *ᶠ g) }
        // Below (|a|*wb + |b|*wa)/2^P + 2, with the largest absolute ends and the widths of both.
        ensures width { (width result *ℤ unit P) <ℤ
            ((pos (magnitude self.now) *ℤ width o.now +ℤ pos (magnitude o.now) *ℤ width self.now) +ℤ (unit P +ℤ unit P)) }
        ensures interval { IsInterval P result }
    {
        let low = self.least_product(o);
        let high = self.greatest_product(o);
        Self::rounded(low, high, power_of_two(P))
    }

    /// The square of every member.
    pub fn square(&self) -> Self
        requires small { magnitude self.now * magnitude self.now ≤ 2 ^ 126 }
        ensures ends { result ≡ square_ends P self.now }
        ensures encloses { (f : Fraction) → IsMember P self.now f → IsMember P result (f *ᶠ f) }
        // Below 2*|a|*wa/2^P + 2.
        ensures width { (width result *ℤ unit P) <ℤ
            (pos 2 *ℤ (pos (magnitude self.now) *ℤ width self.now) +ℤ (unit P +ℤ unit P)) }
        ensures interval { IsInterval P result }
    {
        let low = self.lo();
        let high = self.hi();
        let least = least_square(low, high);
        let greatest = greatest_square(low, high);
        Self::rounded(least, greatest, power_of_two(P))
    }

    /// Every member over the whole number `den`.
    pub fn over(&self, den: i128) -> Self
        requires divisor { pos 0 <ℤ den }
        ensures ends { result ≡ over_ends self.now den }
        ensures encloses { (f : Fraction) → IsMember P self.now f → IsMember P result (f /ᶠ nat_abs den) }
        // Below wa/den + 2.
        ensures width { (width result *ℤ den) <ℤ (width self.now +ℤ (den +ℤ den)) }
        ensures interval { IsInterval P result }
    {
        let low = self.lo();
        let high = self.hi();
        Self::rounded(low, high, den)
    }

    /// The same fractions at scale `R`, rounded outwards.
    pub fn rescale<const R: u32>(&self) -> Iv<R>
        requires scale { IsScale R }
        requires in_range { IsIntervalInRange (rescale_ends P R self.now) }
        ensures ends { result ≡ rescale_ends P R self.now }
        ensures encloses { (f : Fraction) → IsMember P self.now f → IsMember R result f }
        // Below wa*2^R/2^P + 2.
        ensures width { (width result *ℤ unit P) <ℤ (width self.now *ℤ unit R +ℤ (unit P +ℤ unit P)) }
        ensures interval { IsInterval R result }
    {
        // An end times 2^R could leave i128: only the power between the two scales is used.
        let low = self.lo();
        let high = self.hi();
        if R >= P {
            let factor = power_of_two(R - P);
            Iv::<R>::new(product(low, factor), product(high, factor))
        } else {
            Iv::<R>::rounded(low, high, power_of_two(P - R))
        }
    }
}
