//! The test of the strip: the stated rows against the feed's, in one walk over both.

ghost use Rattle.std.specs.Prelude.{◌≡◌, ◌+◌, ◌<◌, ◌≤◌, ◌&&◌, ◌↔◌, length, map, drop, IsTrue, IfSome, MatchOption, MatchBool, All, Any};
ghost use Rattle.vx_formula.specs.Level.{StrikesRise, strike_at, IsListed};
ghost use Rattle.vx_formula.specs.Strip.{doubled_width, strip_price, strip};
ghost use Rattle.vx_formula.specs.Walk.{IsHighestReached, IsLowestReached};
ghost use Rattle.vx_claims.specs.TermTests.{IsStatedStrip, stated_entry};
ghost use Rattle.vx_tests.specs.Stated.{HasSides, stated_price, strip_price_of, AreSameFrom, AreWidths, first_stated};

use crate::walk::{Reach, is_taken, reach_of};
use vx_cert::CertRow;
use vx_symbol::StrikeRow;

/// The stated rows are the strip selected at the level; both sides of the level have a price, and a row
/// is below the level and one above.
pub fn is_stated_strip(rows: &[StrikeRow], k0: u32, stated: &[CertRow]) -> bool
    ensures { StrikesRise rows.now → (IsTrue result ↔ IsStatedStrip rows.now k0 stated.now) }
{
    match place_of(rows, k0) {
        Some(level) => has_sides(&rows[level], k0, stated) && is_strip(rows, level, stated),
        None => false,
    }
}

/// Both sides of the level have a price, and a stated row is below it and one above.
fn has_sides(level: &StrikeRow, k0: u32, stated: &[CertRow]) -> bool
    ensures { IsTrue result ↔ HasSides level.now k0 stated.now }
{
    has_money(level) && has_rows_around(stated, k0)
}

fn has_rows_around(stated: &[CertRow], k0: u32) -> bool
    ensures { IsTrue result ↔ (Any (λ row. row.strike < k0) stated.now × Any (λ row. k0 < row.strike) stated.now) }
{
    has_row_below(stated, k0) && has_row_above(stated, k0)
}

/// The stated rows are the strip selected at the level that stands at a place.
fn is_strip(rows: &[StrikeRow], level: usize, stated: &[CertRow]) -> bool
    requires { level < length rows.now }
    ensures { StrikesRise rows.now → (IsTrue result
        ↔ (map stated_entry stated.now ≡ strip rows.now (strike_at rows.now level))) }
{
    are_selected(rows, reach_of(rows, level), stated) && are_widths(stated)
}

/// The place of the row of a strike.
fn place_of(rows: &[StrikeRow], strike: u32) -> Option<usize>
    ensures within { IfSome result (λ place. place < length rows.now) }
    ensures found { MatchOption result (All (λ row. ¬ (row.strike ≡ strike)) rows.now)
        (λ place. strike_at rows.now place ≡ strike) }
{
    rows.iter().position(|row| row.strike == strike)
}

fn has_money(row: &StrikeRow) -> bool
    ensures { result ≡ row.now.put.there && row.now.call.there }
{
    row.put.there && row.call.there
}

fn has_row_below(stated: &[CertRow], k0: u32) -> bool
    ensures { MatchBool result (Any (λ row. row.strike < k0) stated.now)
        (All (λ row. k0 ≤ row.strike) stated.now) }
{
    stated.iter().any(|row| row.strike < k0)
}

fn has_row_above(stated: &[CertRow], k0: u32) -> bool
    ensures { MatchBool result (Any (λ row. k0 < row.strike) stated.now)
        (All (λ row. row.strike ≤ k0) stated.now) }
{
    stated.iter().any(|row| row.strike > k0)
}

/// The strikes and prices of the stated rows are those of the selected ones, one by one.
fn are_selected(rows: &[StrikeRow], reach: Reach, stated: &[CertRow]) -> bool
    requires listed { reach.level < length rows.now }
    requires low { IsLowestReached rows.now reach.level reach.low }
    requires high { IsHighestReached rows.now reach.level reach.high }
    ensures { StrikesRise rows.now → (IsTrue result ↔ AreSameFrom rows.now reach.level 0 stated.now 0) }
{
    let mut next = 0;
    for place in 0..rows.len() {
        match next_after(rows, reach, stated, place, next) {
            Some(after) => next = after,
            None => return false,
        }
    }
    next == stated.len()
}

/// Which stated row is the next after a place of the feed's rows: the same one where the row there is not
/// selected, and the one behind it where it is stated. None where it is selected and not stated.
fn next_after(
    rows: &[StrikeRow],
    reach: Reach,
    stated: &[CertRow],
    place: usize,
    next: usize,
) -> Option<usize>
    requires listed { reach.level < length rows.now }
    requires low { IsLowestReached rows.now reach.level reach.low }
    requires high { IsHighestReached rows.now reach.level reach.high }
    requires there { place < length rows.now }
    requires within { next ≤ length stated.now }
    ensures within { IfSome result (λ after. after ≤ length stated.now) }
    ensures step { StrikesRise rows.now → MatchOption result
        (AreSameFrom rows.now reach.level place stated.now next → ⊥)
        (λ after. AreSameFrom rows.now reach.level place stated.now next
        ↔ AreSameFrom rows.now reach.level (place + 1) stated.now after) }
{
    if !is_taken(rows, reach, place) {
        return Some(next);
    }
    if next < stated.len() && is_priced(&stated[next], rows[reach.level].strike, &rows[place]) {
        Some(next + 1)
    } else {
        None
    }
}

/// The stated row has the strike and the price of a selected one.
fn is_priced(stated: &CertRow, k0: u32, row: &StrikeRow) -> bool
    ensures { IsTrue result ↔ (stated_price stated.now ≡ strip_price_of k0 row.now) }
{
    stated.strike == row.strike && u64::from(stated.q4) == strip_price(k0, row)
}

/// The price of a selected row, in quarter cents.
fn strip_price(k0: u32, row: &StrikeRow) -> u64
    ensures { result ≡ strip_price k0 row.now }
{
    if row.strike < k0 {
        2 * u64::from(row.put.half)
    } else if k0 < row.strike {
        2 * u64::from(row.call.half)
    } else {
        u64::from(row.put.half) + u64::from(row.call.half)
    }
}

/// Each stated width is that between the stated strikes next to it.
fn are_widths(stated: &[CertRow]) -> bool
    ensures { IsTrue result ↔ AreWidths None stated.now }
{
    let mut below = None;
    for (place, row) in stated.iter().enumerate() {
        if u64::from(row.d) != doubled_width(below, row.strike, strike_behind(stated, place)) {
            return false;
        }
        below = Some(row.strike);
    }
    true
}

/// The strike of the row behind a place, where there is one.
fn strike_behind(stated: &[CertRow], place: usize) -> Option<u32>
    requires { place < length stated.now }
    ensures { result ≡ first_stated (drop (place + 1) stated.now) }
{
    if place + 1 < stated.len() {
        Some(stated[place + 1].strike)
    } else {
        None
    }
}

/// Twice the width of a strike between its neighbours.
fn doubled_width(below: Option<u32>, strike: u32, above: Option<u32>) -> u64
    ensures { result ≡ doubled_width below strike above }
{
    let strike = u64::from(strike);
    match (below, above) {
        (None, None) => 0,
        (None, Some(above)) => 2 * u64::from(above).saturating_sub(strike),
        (Some(below), None) => 2 * strike.saturating_sub(u64::from(below)),
        (Some(below), Some(above)) => u64::from(above).saturating_sub(u64::from(below)),
    }
}
