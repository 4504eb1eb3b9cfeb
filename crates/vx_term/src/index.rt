//! The square of the index, from the variances of its terms.

ghost use Rattle.std.specs.Prelude.{◌≡◌, ◌*◌, ◌-◌, ◌<◌, ◌≤◌, pos, ◌-ℤ◌};
ghost use Rattle.vx_num.specs.Fraction.{Fraction};
ghost use Rattle.vx_clock.specs.declared.limits.TheConstants.{DAY_MINUTES};
ghost use Rattle.vx_interval.specs.Ends.{IsInterval};
ghost use Rattle.vx_interval.specs.Membership.{IsMember};
ghost use Rattle.vx_formula.specs.declared.limits.TheConstants.{THIRTY_DAYS, YEAR_MINUTES};
ghost use Rattle.vx_formula.specs.Index.{index_square, single_square};
ghost use Rattle.vx_term.specs.Index.{interpolated_ends, single_ends};
ghost use Rattle.vx_term.specs.Ranges.{AreDaysInRange, AreMinutesInRange, AreWeightsInRange, IsSquareInRange, IsSquareNarrow, IsVarianceInRange, IsVarianceNarrow};

use vx_clock::limits::DAY_MINUTES;
use vx_formula::limits::{THIRTY_DAYS, YEAR_MINUTES};
use vx_interval::Iv;

/// The square of the index over 100 at so many days ahead, from the variances of two terms with their
/// minutes `n1` and `n2`. After the Cboe VIX white paper: the variances are weighted by the minutes and
/// the result is taken for a year. A time ahead that is not between the terms is extrapolated.
///
/// The days are from 7 to 120, the minutes from 1 to 262,800 and `n1` below `n2`; both weights, in
/// absolute value, are together at most three times the distance of the minutes; both variances are
/// within 6. The square is then within 1024, and from variances at most 37,000 units wide it is at most
/// 5,788,000 units wide. Takes no memory.
pub fn interpolate<const P: u32>(w1: &Iv<P>, n1: u32, w2: &Iv<P>, n2: u32, days: u32) -> Iv<P>
    requires days { AreDaysInRange days }
    requires near_minutes { AreMinutesInRange n1 }
    requires next_minutes { AreMinutesInRange n2 }
    requires rising { n1 < n2 }
    requires weights { AreWeightsInRange (DAY_MINUTES * days) n1 n2 }
    requires near_interval { IsInterval P w1.now }
    requires next_interval { IsInterval P w2.now }
    requires near_range { IsVarianceInRange P w1.now }
    requires next_range { IsVarianceInRange P w2.now }
    ensures ends { result ≡ interpolated_ends (DAY_MINUTES * days) w1.now n1 w2.now n2 }
    ensures encloses { (near next : Fraction) → IsMember P w1.now near → IsMember P w2.now next
        → IsMember P result (index_square (DAY_MINUTES * days) near n1 next n2) }
    ensures narrow { IsVarianceNarrow w1.now → IsVarianceNarrow w2.now → IsSquareNarrow result }
    ensures in_range { IsSquareInRange P result }
    ensures interval { IsInterval P result }
{
    let target = DAY_MINUTES * days;
    let near = w1.scale(minutes_from(target, n2));
    let next = w2.scale(minutes_from(n1, target));
    let year = near.add(&next).scale(year_minutes());
    year.over(divisor(target, n1, n2))
}

/// The square of the index over 100 from the variance of one term at exactly 30 days, taken for a year.
/// After the Cboe VIX white paper, whose weights leave that term alone.
///
/// The variance is within 6, and the square then within 1024; from a variance at most 37,000 units wide
/// it is at most 5,788,000 units wide. Takes no memory.
pub fn single<const P: u32>(w: &Iv<P>) -> Iv<P>
    requires interval { IsInterval P w.now }
    requires range { IsVarianceInRange P w.now }
    ensures ends { result ≡ single_ends w.now }
    ensures encloses { (variance : Fraction) → IsMember P w.now variance
        → IsMember P result (single_square variance) }
    ensures narrow { IsVarianceNarrow w.now → IsSquareNarrow result }
    ensures in_range { IsSquareInRange P result }
    ensures interval { IsInterval P result }
{
    let year = w.scale(year_minutes());
    year.over(thirty_days())
}

/// How many minutes `to` lies after `from`; negative where it lies before.
fn minutes_from(from: u32, to: u32) -> i64
    ensures { result ≡ pos to -ℤ pos from }
{
    i64::from(to) - i64::from(from)
}

fn year_minutes() -> i64
    ensures { result ≡ pos YEAR_MINUTES }
{
    i64::from(YEAR_MINUTES)
}

fn thirty_days() -> i128
    ensures { result ≡ pos THIRTY_DAYS }
{
    i128::from(THIRTY_DAYS)
}

/// What both weights add to, times the time ahead.
fn divisor(target: u32, n1: u32, n2: u32) -> i128
    requires { n1 < n2 }
    ensures { result ≡ pos (target * (n2 - n1)) }
{
    i128::from(target) * i128::from(n2 - n1)
}
