//! The tests of one term, by their names.

ghost use Rattle.std.specs.Prelude.{◌≡◌, ◌*◌, ◌^◌, ◌<◌, ◌≤◌, ◌↔◌, IsTrue, nat_abs};
ghost use Rattle.vx_formula.specs.Level.{StrikesRise};
ghost use Rattle.vx_claims.specs.TermTests.{TermMeets, IsLevelOfEnds, HasStrikeAbove};
ghost use Rattle.vx_tests.specs.Terms.{facts_of, AreNumbersMet, NumbersMeet};

use crate::exponential::{are_taylor_terms, encloses_exponential};
use crate::forward::{encloses_excess, encloses_forward};
use crate::level::{has_strike_above, is_level_of_ends};
use crate::pair::is_closest;
use crate::strip::is_stated_strip;
use crate::sums::{enclose_contributions, encloses_total};
use crate::variance::encloses_variance;
use vx_cert::CertTerm;
use vx_claims::Test;
use vx_claims::limits::SCALE;
use vx_symbol::StrikeRow;

/// What a feed shows of a term.
#[derive(Clone, Copy, Debug)]
pub struct SeenTerm<'a> {
    /// The listed strikes in rising order, with their prices.
    pub rows: &'a [StrikeRow],
    /// The standing rate, in 10^-8 per year.
    pub rate: Option<i32>,
    /// The minutes to the settlement.
    pub minutes: u64,
}

/// Whether what a certificate states of a term meets a test; those that are not of one term are met.
///
/// The tests from the exponential's to this one's are met: their ranges bound its products.
pub fn meets(scale: u32, seen: &SeenTerm, term: &CertTerm, test: Test) -> bool
    requires least { 2 ≤ scale }
    requires most { scale ≤ SCALE }
    requires earlier { AreNumbersMet scale term.now test }
    ensures exact { StrikesRise seen.now.rows.now
        → (IsTrue result ↔ TermMeets scale (facts_of seen.now) term.now test) }
    ensures numbers { IsTrue result → NumbersMeet scale term.now test }
{
    match test {
        Test::Minutes => u64::from(term.minutes) == seen.minutes,
        Test::Rate => seen.rate == Some(term.rate),
        Test::TaylorTerms => are_taylor_terms(scale, exponent(term), &term.t_lo, &term.t_hi),
        Test::Exponential => {
            encloses_exponential(scale, term.rate, &term.t_lo, &term.t_hi, term.e)
        }
        Test::ClosestPair => is_closest(seen.rows, term.pair),
        Test::Forward => encloses_forward(scale, term.pair, term.e, term.f),
        Test::Level => meets_level(scale, seen.rows, term),
        Test::Excess => encloses_excess(scale, term.f, term.k0, term.g),
        Test::Strip => is_stated_strip(seen.rows, term.k0, term.rows.items()),
        Test::Contributions => enclose_contributions(scale, term.rows.items()),
        Test::Total => encloses_total(scale, term.rows.items(), term.s),
        Test::Variance => encloses_variance(scale, term.e, term.g, term.s, term.w),
        Test::Place | Test::Terms | Test::Square | Test::IndexEnds => true,
    }
}

/// The exponent's absolute value, in units of a year's minutes at a rate of 1.
fn exponent(term: &CertTerm) -> u64
    ensures value { result ≡ nat_abs term.now.rate * term.now.minutes }
    ensures bound { result < 2 ^ 63 }
{
    u64::from(term.rate.unsigned_abs()) * u64::from(term.minutes)
}

fn meets_level(scale: u32, rows: &[StrikeRow], term: &CertTerm) -> bool
    requires { scale ≤ SCALE }
    ensures { IsTrue result ↔ (IsLevelOfEnds scale rows.now term.now.f term.now.k0
        × HasStrikeAbove rows.now term.now.k0) }
{
    is_level_of_ends(scale, rows, term.f, term.k0) && has_strike_above(rows, term.k0)
}
