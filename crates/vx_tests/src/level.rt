//! The test of the level.

ghost use Rattle.std.specs.Prelude.{◌≡◌, ℕ, ◌*◌, ◌^◌, ◌<◌, ◌≤◌, ◌↔◌, IsTrue, pos, ◌≤ℤ◌, ◌<ℤ◌};
ghost use Rattle.std.specs.List.{list_any, list_all};
ghost use Rattle.vx_formula.specs.Level.{IsListed};
ghost use Rattle.vx_claims.specs.TermTests.{IsLevelOfEnds, HasStrikeAbove};
ghost use Rattle.vx_tests.specs.Rows.{has_strike, is_other_above, is_just_above};

use crate::scale::strike_end;
use vx_cert::Ends;
use vx_claims::limits::SCALE;
use vx_symbol::StrikeRow;

/// The level is listed, is at most the forward's low end, and every listed strike above it is above the
/// high end.
pub fn is_level_of_ends(scale: u32, rows: &[StrikeRow], f: Ends, k0: u32) -> bool
    requires { scale ≤ SCALE }
    ensures { IsTrue result ↔ IsLevelOfEnds scale rows.now f k0 }
{
    is_listed(rows, k0) && is_at_most(scale, k0, f.lo) && are_others_above(scale, rows, f.hi, k0)
}

fn is_at_most(scale: u32, strike: u32, end: i128) -> bool
    requires { scale ≤ SCALE }
    ensures { IsTrue result ↔ (pos (strike * 2 ^ scale) ≤ℤ end) }
{
    strike_end(scale, strike) <= end
}

fn is_listed(rows: &[StrikeRow], k0: u32) -> bool
    ensures { IsTrue result ↔ IsListed rows.now k0 }
{
    any_has_strike(rows, k0)
}

fn any_has_strike(rows: &[StrikeRow], k0: u32) -> bool
    ensures { result ≡ list_any (has_strike k0) rows.now }
{
    rows.iter().any(|row| row.strike == k0)
}

fn are_others_above(scale: u32, rows: &[StrikeRow], forward: i128, k0: u32) -> bool
    requires { scale ≤ SCALE }
    ensures { IsTrue result ↔ ((strike : ℕ) → IsListed rows.now strike → k0 < strike
        → forward <ℤ pos (strike * 2 ^ scale)) }
{
    are_all_above(scale, rows, forward, k0)
}

fn are_all_above(scale: u32, rows: &[StrikeRow], forward: i128, k0: u32) -> bool
    requires { scale ≤ SCALE }
    ensures { result ≡ list_all (is_other_above scale forward k0) rows.now }
{
    rows.iter()
        .all(|row| is_other_above(scale, row, forward, k0))
}

/// The row's strike is above the forward, if it is above the level.
fn is_other_above(scale: u32, row: &StrikeRow, forward: i128, k0: u32) -> bool
    requires { scale ≤ SCALE }
    ensures { result ≡ is_other_above scale forward k0 row.now }
{
    row.strike <= k0 || forward < strike_end(scale, row.strike)
}

/// A listed strike is above the level and at most twice the level.
pub fn has_strike_above(rows: &[StrikeRow], k0: u32) -> bool
    ensures { IsTrue result ↔ HasStrikeAbove rows.now k0 }
{
    is_any_just_above(rows, k0)
}

fn is_any_just_above(rows: &[StrikeRow], k0: u32) -> bool
    ensures { result ≡ list_any (is_just_above k0) rows.now }
{
    rows.iter().any(|row| is_just_above(row, k0))
}

fn is_just_above(row: &StrikeRow, k0: u32) -> bool
    ensures { result ≡ is_just_above k0 row.now }
{
    k0 < row.strike && u64::from(row.strike) <= 2 * u64::from(k0)
}
