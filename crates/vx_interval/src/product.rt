//! Products, and the least and the greatest of them, over plain whole numbers.

ghost use Rattle.std.specs.Prelude.{◌≡◌, ◌*◌, ◌^◌, ◌≤◌, nat_abs, ◌*ℤ◌, ◌≤ℤ◌, neg_ℤ, pos};
ghost use Rattle.vx_interval.specs.Ends.{greatest_of_four, greatest_square, least_of_four, least_square, unit};

/// `2^exponent`: at the scale `exponent`, as many units are 1.
pub fn power_of_two(exponent: u32) -> i128
    requires { exponent ≤ 62 }
    ensures { result ≡ unit exponent }
{
    let power = 1u64 << exponent;
    power as i128
}

/// The product `a*b`, which is within `2^126` in absolute value.
pub(crate) fn product(a: i128, b: i128) -> i128
    requires { nat_abs a * nat_abs b ≤ 2 ^ 126 }
    ensures { result ≡ a *ℤ b }
{
    a * b
}

/// The product `k*a`, which is within `2^110` in absolute value.
pub(crate) fn times(k: i64, a: i128) -> i128
    requires low { neg_ℤ (pos (2 ^ 110)) ≤ℤ (k *ℤ a) }
    requires high { (k *ℤ a) ≤ℤ pos (2 ^ 110) }
    ensures { result ≡ k *ℤ a }
{
    k as i128 * a
}

/// The least of four numbers.
#[tactic(auto, unfolding(crate::specs::Ends::least_of_four))]
pub(crate) fn least(a: i128, b: i128, c: i128, d: i128) -> i128
    ensures { result ≡ least_of_four a b c d }
{
    a.min(b).min(c.min(d))
}

/// The greatest of four numbers.
#[tactic(auto, unfolding(crate::specs::Ends::greatest_of_four))]
pub(crate) fn greatest(a: i128, b: i128, c: i128, d: i128) -> i128
    ensures { result ≡ greatest_of_four a b c d }
{
    a.max(b).max(c.max(d))
}

/// The least square of a number from `lo` to `hi`.
#[tactic(auto, unfolding(crate::specs::Ends::least_square))]
pub(crate) fn least_square(lo: i128, hi: i128) -> i128
    requires low { nat_abs lo * nat_abs lo ≤ 2 ^ 126 }
    requires high { nat_abs hi * nat_abs hi ≤ 2 ^ 126 }
    ensures { result ≡ least_square (record { lo = lo; hi = hi }) }
{
    if lo <= 0 && 0 <= hi {
        return 0;
    }
    product(lo, lo).min(product(hi, hi))
}

/// The greatest square of a number from `lo` to `hi`.
#[tactic(auto, unfolding(crate::specs::Ends::greatest_square))]
pub(crate) fn greatest_square(lo: i128, hi: i128) -> i128
    requires low { nat_abs lo * nat_abs lo ≤ 2 ^ 126 }
    requires high { nat_abs hi * nat_abs hi ≤ 2 ^ 126 }
    ensures { result ≡ greatest_square (record { lo = lo; hi = hi }) }
{
    product(lo, lo).max(product(hi, hi))
}
