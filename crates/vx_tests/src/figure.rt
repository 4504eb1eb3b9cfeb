//! The tests of a figure: the ends of the square of the index, and the printed ends with their cents.

ghost use Rattle.std.specs.Prelude.{◌≡◌, ◌+◌, ◌*◌, ◌^◌, ◌<◌, ◌≤◌, ◌↔◌, IsTrue, pos, ◌-ℤ◌, ◌*ℤ◌, ◌≤ℤ◌, ◌<ℤ◌};
ghost use Rattle.vx_claims.specs.TermTests.{IsWithin};
ghost use Rattle.vx_claims.specs.FigureTests.{EnclosesSquare, EnclosesSingleSquare, EnclosesIndex};
ghost use Rattle.vx_claims.specs.FigureTests.{ForBothEnds, span, weighted};
ghost use Rattle.vx_tests.specs.Ranges.{IsVarianceAdmitted, IsSquareAdmitted};
ghost use Rattle.vx_tests.specs.Figures.{IsBetween, ArePrintedEnds, AreSquaresAround, RoundsTo};

use crate::scale::{is_within, limit, times_small, units};
use vx_cert::{CertFigure, Ends};
use vx_claims::limits::{INDEX_END_MAX, SCALE, SQUARE_MAX};
use vx_clock::limits::{DAY_MINUTES, FIGURE_DAYS_MAX};
use vx_formula::limits::{
    CENT, HALF_CENT, INDEX_WIDTH_MAX, THIRTY_DAYS, VARIANCE_MAX, YEAR_MINUTES,
};

/// The most minutes ahead of which a figure speaks: those of 120 days.
pub const TARGET_MAX: u32 = DAY_MINUTES * FIGURE_DAYS_MAX;

/// An index end counts 10^-6 points, and the index is 100 points times the square's root: so this is
/// the square of an end, where the index's square is 1.
const SQUARE_UNITS: i128 = 10_000_000_000_000_000;

/// The minutes of two terms, and of the time ahead for which they are joined.
#[derive(Clone, Copy, Debug)]
pub struct JoinedMinutes {
    /// The time ahead, at most `TARGET_MAX`.
    pub target: u32,
    /// The near term's minutes to settlement.
    pub near: u32,
    /// The next term's.
    pub next: u32,
}

/// The ends enclose the square of the index that two terms give, at each end of both variances.
pub fn encloses_square(scale: u32, m: JoinedMinutes, near: Ends, next: Ends, x: Ends) -> bool
    requires scale { scale ≤ SCALE }
    requires target { m.target ≤ TARGET_MAX }
    requires near { IsVarianceAdmitted scale near }
    requires next { IsVarianceAdmitted scale next }
    ensures { IsTrue result ↔ EnclosesSquare scale m.target m.near m.next near next x }
{
    is_square_in_range(scale, x) && is_square_around(scale, m, near, next, x)
}

pub(crate) fn is_square_in_range(scale: u32, x: Ends) -> bool
    requires { scale ≤ SCALE }
    ensures { IsTrue result ↔ IsSquareAdmitted scale x }
{
    is_within(limit(scale, SQUARE_MAX), x.lo) && is_within(limit(scale, SQUARE_MAX), x.hi)
}

fn is_square_around(scale: u32, m: JoinedMinutes, near: Ends, next: Ends, x: Ends) -> bool
    requires scale { scale ≤ SCALE }
    requires target { m.target ≤ TARGET_MAX }
    requires near { IsVarianceAdmitted scale near }
    requires next { IsVarianceAdmitted scale next }
    requires square { IsSquareAdmitted scale x }
    ensures { IsTrue result ↔ ForBothEnds near (λ y. ForBothEnds next (λ z. IsBetween
        (x.lo *ℤ span m.target m.near m.next)
        (weighted m.target m.near m.next y z)
        (x.hi *ℤ span m.target m.near m.next))) }
{
    let low = times_span(scale, x.lo, m);
    let high = times_span(scale, x.hi, m);
    is_weighted_between(scale, low, m, near.lo, next, high)
        && is_weighted_between(scale, low, m, near.hi, next, high)
}

/// The weighted variances lie between, at both ends of the next term's.
fn is_weighted_between(
    scale: u32,
    low: i128,
    m: JoinedMinutes,
    near: i128,
    next: Ends,
    high: i128,
) -> bool
    requires scale { scale ≤ SCALE }
    requires target { m.target ≤ TARGET_MAX }
    requires near { IsWithin (VARIANCE_MAX * 2 ^ scale) near }
    requires next { IsVarianceAdmitted scale next }
    ensures { IsTrue result ↔ ForBothEnds next (λ z. IsBetween low (weighted m.target m.near m.next near z) high) }
{
    is_between(low, weighted(scale, m, near, next.lo), high)
        && is_between(low, weighted(scale, m, near, next.hi), high)
}

fn is_between(low: i128, z: i128, high: i128) -> bool
    ensures { IsTrue result ↔ IsBetween low z high }
{
    low <= z && z <= high
}

/// A year's minutes times the two variances, each by the other term's distance from the time ahead.
fn weighted(scale: u32, m: JoinedMinutes, near: i128, next: i128) -> i128
    requires scale { scale ≤ SCALE }
    requires target { m.target ≤ TARGET_MAX }
    requires near { IsWithin (VARIANCE_MAX * 2 ^ scale) near }
    requires next { IsWithin (VARIANCE_MAX * 2 ^ scale) next }
    ensures { result ≡ weighted m.target m.near m.next near next }
{
    let near = times_minutes(scale, near, m.target, m.next);
    let next = times_minutes(scale, next, m.near, m.target);
    i128::from(YEAR_MINUTES) * (near + next)
}

/// A variance times the minutes from one time to another.
fn times_minutes(scale: u32, variance: i128, from: u32, to: u32) -> i128
    requires scale { scale ≤ SCALE }
    requires variance { IsWithin (VARIANCE_MAX * 2 ^ scale) variance }
    ensures value { result ≡ (pos to -ℤ pos from) *ℤ variance }
    ensures bound { IsWithin (2 ^ 99) result }
{
    times_small(variance, i128::from(to) - i128::from(from))
}

/// An end of the square times the minutes ahead and those between the two terms.
fn times_span(scale: u32, end: i128, m: JoinedMinutes) -> i128
    requires scale { scale ≤ SCALE }
    requires target { m.target ≤ TARGET_MAX }
    requires end { IsWithin (SQUARE_MAX * 2 ^ scale) end }
    ensures { result ≡ end *ℤ span m.target m.near m.next }
{
    times_wide(end, span(m))
}

/// The minutes ahead times those between the two terms.
fn span(m: JoinedMinutes) -> i128
    requires { m.target ≤ TARGET_MAX }
    ensures value { result ≡ span m.target m.near m.next }
    ensures bound { IsWithin (2 ^ 54) result }
{
    i128::from(m.target) * (i128::from(m.next) - i128::from(m.near))
}

/// A product of an end of the square and a factor of 54 bits.
fn times_wide(end: i128, factor: i128) -> i128
    requires end { IsWithin (2 ^ 72) end }
    requires factor { IsWithin (2 ^ 54) factor }
    ensures { result ≡ end *ℤ factor }
{
    end * factor
}

/// The ends enclose the square of the index that one term gives at exactly 30 days.
pub fn encloses_single_square(scale: u32, w: Ends, x: Ends) -> bool
    requires scale { scale ≤ SCALE }
    requires variance { IsVarianceAdmitted scale w }
    ensures { IsTrue result ↔ EnclosesSingleSquare scale w x }
{
    is_square_in_range(scale, x) && is_single_around(scale, w, x)
}

fn is_single_around(scale: u32, w: Ends, x: Ends) -> bool
    requires scale { scale ≤ SCALE }
    requires variance { IsVarianceAdmitted scale w }
    requires square { IsSquareAdmitted scale x }
    ensures { IsTrue result ↔ ForBothEnds w (λ y. IsBetween
        (x.lo *ℤ pos THIRTY_DAYS) (pos YEAR_MINUTES *ℤ y) (x.hi *ℤ pos THIRTY_DAYS)) }
{
    let low = times_thirty_days(scale, x.lo);
    let high = times_thirty_days(scale, x.hi);
    is_between(low, times_year(scale, w.lo), high) && is_between(low, times_year(scale, w.hi), high)
}

fn times_thirty_days(scale: u32, end: i128) -> i128
    requires scale { scale ≤ SCALE }
    requires end { IsWithin (SQUARE_MAX * 2 ^ scale) end }
    ensures { result ≡ end *ℤ pos THIRTY_DAYS }
{
    times_wide(end, i128::from(THIRTY_DAYS))
}

fn times_year(scale: u32, end: i128) -> i128
    requires scale { scale ≤ SCALE }
    requires end { IsWithin (VARIANCE_MAX * 2 ^ scale) end }
    ensures { result ≡ pos YEAR_MINUTES *ℤ end }
{
    times_small(end, i128::from(YEAR_MINUTES))
}

/// The printed ends enclose the index, lie close, and round to the cents.
pub fn encloses_index(scale: u32, figure: &CertFigure) -> bool
    requires scale { scale ≤ SCALE }
    requires square { IsSquareAdmitted scale figure.now.x }
    ensures { IsTrue result ↔ EnclosesIndex scale figure.now }
{
    are_printed_ends(figure) && are_squares_around(scale, figure) && rounds_to(figure)
}

/// The printed ends are in range, in order and close.
fn are_printed_ends(figure: &CertFigure) -> bool
    ensures { IsTrue result ↔ ArePrintedEnds figure.now }
{
    are_ends_in_range(figure.lo, figure.hi) && are_ends_close(figure.lo, figure.hi)
}

fn are_ends_in_range(lo: i64, hi: i64) -> bool
    ensures { IsTrue result ↔ ((pos 0 ≤ℤ lo) × (lo ≤ℤ hi) × (hi ≤ℤ pos INDEX_END_MAX)) }
{
    0 <= lo && lo <= hi && hi <= INDEX_END_MAX as i64
}

fn are_ends_close(lo: i64, hi: i64) -> bool
    requires low { pos 0 ≤ℤ lo }
    requires order { lo ≤ℤ hi }
    ensures { IsTrue result ↔ ((hi -ℤ lo) ≤ℤ pos INDEX_WIDTH_MAX) }
{
    hi - lo <= i64::from(INDEX_WIDTH_MAX)
}

/// The squares of the printed ends lie around the square of the index.
fn are_squares_around(scale: u32, figure: &CertFigure) -> bool
    requires scale { scale ≤ SCALE }
    requires square { IsSquareAdmitted scale figure.now.x }
    requires printed { ArePrintedEnds figure.now }
    ensures { IsTrue result ↔ AreSquaresAround scale figure.now }
{
    is_square_below(scale, figure.lo, figure.x.lo) && is_square_above(scale, figure.hi, figure.x.hi)
}

fn is_square_below(scale: u32, end: i64, x: i128) -> bool
    requires scale { scale ≤ SCALE }
    requires least { pos 0 ≤ℤ end }
    requires most { end ≤ℤ pos INDEX_END_MAX }
    requires square { IsWithin (SQUARE_MAX * 2 ^ scale) x }
    ensures { IsTrue result ↔ ((end *ℤ end *ℤ pos (2 ^ scale)) ≤ℤ (pos (10 ^ 16) *ℤ x)) }
{
    square_of(scale, end) <= in_square_units(scale, x)
}

fn is_square_above(scale: u32, end: i64, x: i128) -> bool
    requires scale { scale ≤ SCALE }
    requires least { pos 0 ≤ℤ end }
    requires most { end ≤ℤ pos INDEX_END_MAX }
    requires square { IsWithin (SQUARE_MAX * 2 ^ scale) x }
    ensures { IsTrue result ↔ ((pos (10 ^ 16) *ℤ x) ≤ℤ (end *ℤ end *ℤ pos (2 ^ scale))) }
{
    in_square_units(scale, x) <= square_of(scale, end)
}

/// An end of the square of the index, as the square of a printed end counts it.
fn in_square_units(scale: u32, x: i128) -> i128
    requires scale { scale ≤ SCALE }
    requires square { IsWithin (SQUARE_MAX * 2 ^ scale) x }
    ensures { result ≡ pos (10 ^ 16) *ℤ x }
{
    times_wide(x, SQUARE_UNITS)
}

/// The square of a printed end, at a scale.
fn square_of(scale: u32, end: i64) -> i128
    requires scale { scale ≤ SCALE }
    requires least { pos 0 ≤ℤ end }
    requires most { end ≤ℤ pos INDEX_END_MAX }
    ensures { result ≡ end *ℤ end *ℤ pos (2 ^ scale) }
{
    let end = i128::from(end);
    end * end * units(scale)
}

/// Both printed ends lie less than half a cent from the cents, the low one at most half a cent below.
fn rounds_to(figure: &CertFigure) -> bool
    ensures { IsTrue result ↔ RoundsTo figure.now }
{
    is_half_cent_below(figure.cents, figure.lo) && is_half_cent_above(figure.cents, figure.hi)
}

fn is_half_cent_below(cents: u64, end: i64) -> bool
    ensures { IsTrue result ↔ ((pos (CENT * cents) -ℤ pos HALF_CENT) ≤ℤ end) }
{
    in_millionths(cents) - i128::from(HALF_CENT) <= i128::from(end)
}

fn is_half_cent_above(cents: u64, end: i64) -> bool
    ensures { IsTrue result ↔ (end <ℤ pos (CENT * cents + HALF_CENT)) }
{
    i128::from(end) < in_millionths(cents) + i128::from(HALF_CENT)
}

/// Cents in millionths of a point.
fn in_millionths(cents: u64) -> i128
    ensures value { result ≡ pos (CENT * cents) }
    ensures bound { IsWithin (2 ^ 99) result }
{
    i128::from(CENT) * i128::from(cents)
}
