//! The test of the closest put-call pair.

ghost use Rattle.std.specs.Prelude.{◌≡◌, ◌↔◌, IsTrue};
ghost use Rattle.std.specs.List.{list_any, list_all};
ghost use Rattle.vx_formula.specs.Pair.{IsClosestPair, pair_of, is_both_live};
ghost use Rattle.vx_claims.specs.TermTests.{stated_pair};
ghost use Rattle.vx_tests.specs.Rows.{is_pair_of_row, is_as_close};

use vx_cert::Pair;
use vx_symbol::StrikeRow;

/// The stated pair is that of a row, and no row has a closer one.
pub fn is_closest(rows: &[StrikeRow], pair: Pair) -> bool
    ensures { IsTrue result ↔ IsClosestPair rows.now (stated_pair pair) }
{
    has_pair(rows, pair) && are_as_close(rows, pair)
}

fn has_pair(rows: &[StrikeRow], pair: Pair) -> bool
    ensures { result ≡ list_any (is_pair_of_row pair) rows.now }
{
    rows.iter().any(|row| is_pair_of_row(pair, row))
}

fn are_as_close(rows: &[StrikeRow], pair: Pair) -> bool
    ensures { result ≡ list_all (is_as_close pair) rows.now }
{
    rows.iter().all(|row| is_as_close(pair, row))
}

fn is_pair_of_row(pair: Pair, row: &StrikeRow) -> bool
    ensures { result ≡ is_pair_of_row pair row.now }
{
    is_both_live(row) && row.strike == pair.strike && half_difference(row) == i64::from(pair.d)
}

/// The row has no pair, or its pair is not closer than the stated one.
fn is_as_close(pair: Pair, row: &StrikeRow) -> bool
    ensures { result ≡ is_as_close pair row.now }
{
    let stated = i64::from(pair.d).unsigned_abs();
    let other = half_difference(row).unsigned_abs();
    !is_both_live(row) || stated < other || (stated == other && pair.strike <= row.strike)
}

fn is_both_live(row: &StrikeRow) -> bool
    ensures { result ≡ is_both_live row.now }
{
    row.put.live && row.call.live
}

/// The call's half price minus the put's.
fn half_difference(row: &StrikeRow) -> i64
    ensures { result ≡ (pair_of row.now).d }
{
    i64::from(row.call.half) - i64::from(row.put.half)
}
