//! How far outwards from the level the selection goes.

ghost use Rattle.std.specs.Prelude.{◌≡◌, suc, ◌<◌, length, slice_get, Some, MatchBool};
ghost use Rattle.vx_symbol.specs.declared.rows.StrikeRow.{StrikeRow};
ghost use Rattle.vx_formula.specs.Level.{StrikesRise, strike_at};
ghost use Rattle.vx_formula.specs.Selection.{is_selected};
ghost use Rattle.vx_formula.specs.Walk.{IsHighestReached, IsLivePair, IsLowestReached, IsZeroBidPair, is_live_call, is_live_put};

use vx_symbol::StrikeRow;

/// The places of the level, and of the outermost rows on both sides that can be selected.
#[derive(Clone, Copy)]
pub(crate) struct Reach {
    pub(crate) low: usize,
    pub(crate) level: usize,
    pub(crate) high: usize,
}

/// Of two neighbouring rows one has a put with a bid.
fn has_live_put(rows: &[StrikeRow], place: usize) -> bool
    requires { suc place < length rows.now }
    ensures { MatchBool result (IsLivePair is_live_put rows.now place)
        (IsZeroBidPair is_live_put rows.now place) }
{
    rows[place].put.live || rows[place + 1].put.live
}

/// Of two neighbouring rows one has a call with a bid.
fn has_live_call(rows: &[StrikeRow], place: usize) -> bool
    requires { suc place < length rows.now }
    ensures { MatchBool result (IsLivePair is_live_call rows.now place)
        (IsZeroBidPair is_live_call rows.now place) }
{
    rows[place].call.live || rows[place + 1].call.live
}

/// Downwards up to the second of two neighbouring zero bids, or to the first row.
fn lowest_reached(rows: &[StrikeRow], level: usize) -> usize
    requires { level < length rows.now }
    ensures { IsLowestReached rows.now level result }
{
    let mut low = level;
    while low > 0 && (low + 1 >= level || has_live_put(rows, low)) {
        low -= 1;
    }
    low
}

/// Upwards likewise.
fn highest_reached(rows: &[StrikeRow], level: usize) -> usize
    requires { level < length rows.now }
    ensures { IsHighestReached rows.now level result }
{
    let mut high = level;
    while high + 1 < rows.len() && (high <= level + 1 || has_live_call(rows, high - 1)) {
        high += 1;
    }
    high
}

/// How far the selection reaches from the level.
pub(crate) fn reach_of(rows: &[StrikeRow], level: usize) -> Reach
    requires { level < length rows.now }
    ensures level { result.level ≡ level }
    ensures low { IsLowestReached rows.now level result.low }
    ensures high { IsHighestReached rows.now level result.high }
{
    Reach {
        low: lowest_reached(rows, level),
        level,
        high: highest_reached(rows, level),
    }
}

/// Whether the row at a place is selected.
pub(crate) fn is_taken(rows: &[StrikeRow], reach: Reach, place: usize) -> bool
    requires listed { reach.level < length rows.now }
    requires low { IsLowestReached rows.now reach.level reach.low }
    requires high { IsHighestReached rows.now reach.level reach.high }
    requires there { place < length rows.now }
    ensures { StrikesRise rows.now → (row : StrikeRow) → slice_get rows.now place ≡ Some row
        → result ≡ is_selected rows.now (strike_at rows.now reach.level) row }
{
    if place < reach.level {
        reach.low <= place && rows[place].put.live
    } else {
        place == reach.level || place <= reach.high && rows[place].call.live
    }
}
