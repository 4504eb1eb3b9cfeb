//! The selection of a strip.

ghost use Rattle.std.specs.Prelude.{◌≡◌, ◌+◌, ◌<◌, ◌≤◌, ◌&&◌, length, map, drop, All, Any, OnOk, IfOk, IfErr, IfSome, MatchBool};
ghost use Rattle.vx_symbol.specs.Rows.{IsLawfulRow, IsLawfulTerm};
ghost use Rattle.vx_formula.specs.Level.{StrikesRise};
ghost use Rattle.vx_formula.specs.Strip.{doubled_width, entries_after, first_strike, strip_price};
ghost use Rattle.vx_strip.specs.Entries.{DoStrikesRise, HasBothSides, IsStripInRange, IsStripOf, entry_of, strike_at};
ghost use Rattle.vx_strip.specs.Refusals.{HasNoStripRefusal, IsStripRefusal};

use crate::fault::StripRefusal;
use crate::strip::{Strip, StripRow, StripRows};
use crate::walk::selected;
use std::alloc::Global;
use vx_num::NoMemory;
use vx_symbol::limits::{HALF_MAX, STRIKE_MAX};
use vx_symbol::{StrikeRow, TermView};

/// The strip of a term at the level of the row at `k0`.
///
/// A row below the level is selected where its put has a bid and no two neighbouring listed strikes
/// strictly between it and the level both have a put with a zero bid; above the level it is the same
/// with calls, and the level's own row is always selected. This is after the Cboe VIX white paper.
/// The doubled width `d` of a selected strike is the distance of its two neighbours among the selected
/// ones, and at an end of the strip twice the distance to its one neighbour. The price `q4` is twice
/// the half price of the row's side, and at the level the sum of both half prices.
///
/// Refused, in this order: `NoMoney` where the level lacks the price of a side, `NoPut` where no row
/// below it is selected, `NoCall` where none above it is. `NoMemory` may come in place of any answer.
pub fn select(alloc: Global, term: &TermView, k0: usize) -> Result<Strip, StripRefusal>
    requires lawful { IsLawfulTerm term.now }
    requires listed { k0 < length term.now.rows.now }
    ensures strip { IfOk result (λ s. IsStripOf term.now.rows.now (strike_at term.now.rows.now k0) s) }
    ensures none_refuses { OnOk result
        (HasNoStripRefusal term.now.rows.now (strike_at term.now.rows.now k0)) }
    ensures both_sides { IfOk result HasBothSides }
    ensures rising { IfOk result DoStrikesRise }
    ensures in_range { IfOk result IsStripInRange }
    ensures refused { IfErr result (IsStripRefusal term.now.rows.now (strike_at term.now.rows.now k0)) }
{
    let level = term.rows[k0];
    if !has_money(&level) {
        return Err(StripRefusal::NoMoney);
    }
    let selected = selected(alloc, term.rows, k0)?;
    if !has_put(&selected, level.strike) {
        return Err(StripRefusal::NoPut);
    }
    if !has_call(&selected, level.strike) {
        return Err(StripRefusal::NoCall);
    }
    let rows = with_widths(alloc, level.strike, &selected)?;
    Ok(Strip { rows })
}

/// Whether both sides of the level have a price.
fn has_money(level: &StrikeRow) -> bool
    ensures { result ≡ level.now.put.there && level.now.call.there }
{
    level.put.there && level.call.there
}

/// Whether a selected row is below the level.
fn has_put(selected: &[StrikeRow], level: u32) -> bool
    ensures { MatchBool result (Any (λ row. row.strike < level) selected.now)
        (All (λ row. level ≤ row.strike) selected.now) }
{
    selected.iter().any(|row| row.strike < level)
}

/// Whether a selected row is above the level.
fn has_call(selected: &[StrikeRow], level: u32) -> bool
    ensures { MatchBool result (Any (λ row. level < row.strike) selected.now)
        (All (λ row. row.strike ≤ level) selected.now) }
{
    selected.iter().any(|row| row.strike > level)
}

/// Twice the width of a strike between its neighbours.
fn doubled_width(below: Option<u32>, strike: u32, above: Option<u32>) -> u32
    requires after { IfSome below (λ other. other < strike) }
    requires before { IfSome above (λ other. strike < other) }
    requires strike_max { strike ≤ STRIKE_MAX }
    requires above_max { IfSome above (λ other. other ≤ STRIKE_MAX) }
    ensures { result ≡ doubled_width below strike above }
{
    match (below, above) {
        (None, None) => 0,
        (None, Some(above)) => 2 * (above - strike),
        (Some(below), None) => 2 * (strike - below),
        (Some(below), Some(above)) => above - below,
    }
}

/// The price of a selected row, in quarter cents.
fn strip_price(level: u32, row: &StrikeRow) -> u32
    requires put { row.now.put.half ≤ HALF_MAX }
    requires call { row.now.call.half ≤ HALF_MAX }
    ensures { result ≡ strip_price level row.now }
{
    if row.strike < level {
        2 * row.put.half
    } else if level < row.strike {
        2 * row.call.half
    } else {
        row.put.half + row.call.half
    }
}

/// The strip's rows: the selected rows with their widths and prices.
fn with_widths(alloc: Global, level: u32, selected: &[StrikeRow]) -> Result<StripRows, NoMemory>
    requires rising { StrikesRise selected.now }
    requires lawful { All IsLawfulRow selected.now }
    ensures { IfOk result (λ rows. map entry_of rows ≡ entries_after level None selected.now) }
{
    let mut rows = StripRows::with_room(alloc, selected.len())?;
    let mut below = None;
    for (place, row) in selected.iter().enumerate() {
        let above = strike_behind(selected, place);
        rows.push(StripRow {
            strike: row.strike,
            d: doubled_width(below, row.strike, above),
            q4: strip_price(level, row),
        })?;
        below = Some(row.strike);
    }
    Ok(rows)
}

/// The strike of the row behind a place, where there is one.
fn strike_behind(selected: &[StrikeRow], place: usize) -> Option<u32>
    requires { place < length selected.now }
    ensures { result ≡ first_strike (drop (place + 1) selected.now) }
{
    if place + 1 < selected.len() {
        Some(selected[place + 1].strike)
    } else {
        None
    }
}
