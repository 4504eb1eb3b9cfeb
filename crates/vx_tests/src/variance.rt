//! The test of a term's variance.

ghost use Rattle.std.specs.Prelude.{◌≡◌, ◌*◌, ◌^◌, ◌≤◌, ◌↔◌, IsTrue, pos, ◌-ℤ◌, ◌*ℤ◌, ◌≤ℤ◌};
ghost use Rattle.vx_claims.specs.TermTests.{EnclosesVariance, IsWithin};
ghost use Rattle.vx_tests.specs.Ranges.{IsExponentialAdmitted, IsExcessAdmitted, IsTotalAdmitted, IsVarianceAdmitted};

use crate::scale::{is_within, limit, product, scaled};
use vx_cert::Ends;
use vx_claims::limits::{SCALE, VARIANCE_MAX};

/// The ends enclose twice the exponential times the strip's sum, less the square of the excess.
pub fn encloses_variance(scale: u32, e: Ends, g: Ends, s: Ends, w: Ends) -> bool
    requires scale { scale ≤ SCALE }
    requires exponential { IsExponentialAdmitted scale e }
    requires excess { IsExcessAdmitted scale g }
    requires total { IsTotalAdmitted scale s }
    ensures { IsTrue result ↔ EnclosesVariance scale e g s w }
{
    is_variance_in_range(scale, w)
        && is_variance_around(
            scale,
            w,
            variance_end(scale, e.lo, s.lo, g.hi),
            variance_end(scale, e.hi, s.hi, g.lo),
        )
}

fn is_variance_around(scale: u32, w: Ends, low: i128, high: i128) -> bool
    requires scale { scale ≤ SCALE }
    requires in_range { IsVarianceAdmitted scale w }
    ensures { IsTrue result ↔ (((w.lo *ℤ pos (2 ^ scale)) ≤ℤ low) × (high ≤ℤ (w.hi *ℤ pos (2 ^ scale)))) }
{
    is_variance_below(scale, w.lo, low) && is_variance_above(scale, w.hi, high)
}

pub(crate) fn is_variance_in_range(scale: u32, w: Ends) -> bool
    requires { scale ≤ SCALE }
    ensures { IsTrue result ↔ IsVarianceAdmitted scale w }
{
    is_within(limit(scale, VARIANCE_MAX), w.lo) && is_within(limit(scale, VARIANCE_MAX), w.hi)
}

fn is_variance_below(scale: u32, w: i128, variance: i128) -> bool
    requires scale { scale ≤ SCALE }
    requires in_range { IsWithin (VARIANCE_MAX * 2 ^ scale) w }
    ensures { IsTrue result ↔ ((w *ℤ pos (2 ^ scale)) ≤ℤ variance) }
{
    scaled(scale, w) <= variance
}

fn is_variance_above(scale: u32, w: i128, variance: i128) -> bool
    requires scale { scale ≤ SCALE }
    requires in_range { IsWithin (VARIANCE_MAX * 2 ^ scale) w }
    ensures { IsTrue result ↔ (variance ≤ℤ (w *ℤ pos (2 ^ scale))) }
{
    variance <= scaled(scale, w)
}

/// Twice an exponential times a sum, less the square of an excess.
fn variance_end(scale: u32, e: i128, s: i128, g: i128) -> i128
    requires scale { scale ≤ SCALE }
    requires e { (pos 0 ≤ℤ e) × ((pos 4 *ℤ e) ≤ℤ pos (5 * 2 ^ scale)) }
    requires s { (pos 0 ≤ℤ s) × (s ≤ℤ pos (2 * 2 ^ scale)) }
    requires g { (pos 0 ≤ℤ g) × (g ≤ℤ pos (2 * 2 ^ scale)) }
    ensures { result ≡ (pos 2 *ℤ (e *ℤ s) -ℤ g *ℤ g) }
{
    product(2 * e, s) - product(g, g)
}
