//! The walks outwards from the level.

ghost use Rattle.std.specs.Prelude.{◌≡◌, suc, ◌<◌, length, slice_get, IfOk, MatchBool};
ghost use Rattle.vx_symbol.specs.declared.rows.StrikeRow.{StrikeRow};
ghost use Rattle.vx_formula.specs.Level.{StrikesRise};
ghost use Rattle.vx_formula.specs.Selection.{is_selected, selected_rows};
ghost use Rattle.vx_strip.specs.Entries.{strike_at};
ghost use Rattle.vx_formula.specs.Walk.{IsHighestReached, IsLivePair, IsLowestReached, IsZeroBidPair, is_live_call, is_live_put};

use std::alloc::Global;
use vx_num::NoMemory;
use vx_symbol::StrikeRow;

/// The places of the lowest and the highest row that the walks reach.
#[derive(Clone, Copy)]
struct Reach {
    low: usize,
    high: usize,
}

/// Whether of the two neighbouring rows from a place on one has a put that is live.
fn has_live_put(rows: &[StrikeRow], place: usize) -> bool
    requires { suc place < length rows.now }
    ensures { MatchBool result (IsLivePair is_live_put rows.now place)
        (IsZeroBidPair is_live_put rows.now place) }
{
    rows[place].put.live || rows[place + 1].put.live
}

fn has_live_call(rows: &[StrikeRow], place: usize) -> bool
    requires { suc place < length rows.now }
    ensures { MatchBool result (IsLivePair is_live_call rows.now place)
        (IsZeroBidPair is_live_call rows.now place) }
{
    rows[place].call.live || rows[place + 1].call.live
}

/// The lowest row that the walk downwards reaches: it stops at the second of two neighbouring zero
/// bids.
fn lowest_reached(rows: &[StrikeRow], k0: usize) -> usize
    requires { k0 < length rows.now }
    ensures { IsLowestReached rows.now k0 result }
{
    let mut place = k0;
    while place > 0 && (place + 1 >= k0 || has_live_put(rows, place)) {
        place -= 1;
    }
    place
}

/// The highest row that the walk upwards reaches.
fn highest_reached(rows: &[StrikeRow], k0: usize) -> usize
    requires { k0 < length rows.now }
    ensures { IsHighestReached rows.now k0 result }
{
    let mut place = k0;
    while place + 1 < rows.len() && (place <= k0 + 1 || has_live_call(rows, place - 1)) {
        place += 1;
    }
    place
}

/// Whether the row at a place is selected.
fn is_taken(rows: &[StrikeRow], k0: usize, reach: Reach, place: usize) -> bool
    requires rising { StrikesRise rows.now }
    requires listed { k0 < length rows.now }
    requires low { IsLowestReached rows.now k0 reach.low }
    requires high { IsHighestReached rows.now k0 reach.high }
    requires there { place < length rows.now }
    ensures { (row : StrikeRow) → slice_get rows.now place ≡ Some row
        → result ≡ is_selected rows.now (strike_at rows.now k0) row }
{
    if place < k0 {
        reach.low <= place && rows[place].put.live
    } else {
        place == k0 || place <= reach.high && rows[place].call.live
    }
}

/// The rows that are selected at the level of the row at `k0`, in rising order of strike.
pub(crate) fn selected(
    alloc: Global,
    rows: &[StrikeRow],
    k0: usize,
) -> Result<Vec<StrikeRow>, NoMemory>
    requires rising { StrikesRise rows.now }
    requires listed { k0 < length rows.now }
    ensures { IfOk result (λ v. v.items ≡ selected_rows rows.now (strike_at rows.now k0)) }
{
    let reach = Reach {
        low: lowest_reached(rows, k0),
        high: highest_reached(rows, k0),
    };
    let mut selected = Vec::with_capacity(alloc, rows.len())?;
    for (place, row) in rows.iter().enumerate() {
        if is_taken(rows, k0, reach, place) {
            selected.push(*row)?;
        }
    }
    Ok(selected)
}
