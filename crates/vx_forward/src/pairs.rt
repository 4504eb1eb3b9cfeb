//! The closest put-call pair.

ghost use Rattle.std.specs.Prelude.{◌≡◌, ◌≤◌, [], nat_abs, slice_get, IfNone, IfSome, IsSomeAnd, MatchBool, MatchOption};
ghost use Rattle.vx_symbol.specs.Rows.{IsLawfulRow, IsLawfulTerm};
ghost use Rattle.vx_formula.specs.Pair.{pair_of, is_both_live, live_pairs, IsAsClose, IsClosestPair};
ghost use Rattle.vx_forward.specs.Pairs.{formula_pair};

use vx_symbol::{StrikeRow, TermView};

/// The strike at which the forward is read off, and how far its two prices lie apart.
#[derive(Clone, Copy, Debug, PartialEq, Eq)]
pub struct Pair {
    /// In thousandths of a point.
    pub strike: u32,
    /// The call's half price minus the put's, in half cents.
    pub d: i32,
}

/// The closest put-call pair of a term: of the strikes whose put and call are both live, the one whose
/// two prices differ least, as the Cboe VIX white paper has it. Of equals it is the lowest strike, which
/// is this project's own rule. There is none exactly where no strike has both sides live.
///
/// The term is lawful. Takes no memory.
pub fn closest(term: &TermView) -> Option<Pair>
    requires { IsLawfulTerm term.now }
    ensures { MatchOption result (live_pairs term.now.rows.now ≡ [])
        (λ pair. IsClosestPair term.now.rows.now (formula_pair pair)) }
{
    let place = closest_place(term.rows)?;
    Some(pair_of(&term.rows[place]))
}

/// The place of the row of the closest pair.
fn closest_place(rows: &[StrikeRow]) -> Option<usize>
    ensures found { IfSome result (λ place. IsSomeAnd (slice_get rows.now place)
        (λ row. IsClosestPair rows.now (pair_of row))) }
    ensures none { IfNone result (live_pairs rows.now ≡ []) }
{
    let mut best = None;
    for (place, row) in rows.iter().enumerate() {
        if is_both_live(row) {
            best = match best {
                Some(other) if is_as_close(&rows[other], row) => Some(other),
                _ => Some(place),
            };
        }
    }
    best
}

fn is_both_live(row: &StrikeRow) -> bool
    ensures { result ≡ is_both_live row.now }
{
    row.put.live && row.call.live
}

/// The first row's pair is taken before the second's, if both are live.
fn is_as_close(a: &StrikeRow, b: &StrikeRow) -> bool
    ensures { MatchBool result (IsAsClose (pair_of a.now) (pair_of b.now))
        (IsAsClose (pair_of b.now) (pair_of a.now)) }
{
    let (first, second) = (gap(a), gap(b));
    first < second || first == second && a.strike <= b.strike
}

/// How far the two prices of a row lie apart, in half cents.
fn gap(row: &StrikeRow) -> u32
    ensures { result ≡ nat_abs (pair_of row.now).d }
{
    row.call.half.abs_diff(row.put.half)
}

fn pair_of(row: &StrikeRow) -> Pair
    requires { IsLawfulRow row.now }
    ensures { formula_pair result ≡ pair_of row.now }
{
    Pair {
        strike: row.strike,
        d: row.call.half as i32 - row.put.half as i32,
    }
}
