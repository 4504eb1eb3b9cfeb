//! Which of the declared expiries are the near and the next term of a day.

ghost use Rattle.std.specs.Prelude.{◌≡◌, ◌^◌, unsigned_abs, ◌≤◌, ◌+◌, ◌↔◌, ◌<◌, length, slice_get, slice_index_or, IsTrue, IfOk, IfSome, IfNone, IsSomeAnd, MatchBool, MatchOption, All, Any};
ghost use Rattle.vx_clock.specs.Minutes.{days_until};
ghost use Rattle.vx_clock.specs.Terms.{IsInNearWindow, IsInNextWindow, IsTakenBeforeAsNear, IsTakenBeforeAsNext, IsNearTerm, IsNextTerm};

use crate::days::DayNo;
use crate::terms::{Expiry, Moment, NoTerm};

/// The places of the two terms among the declared expiries: near first, then next.
///
/// Near is the expiry with the most calendar days from `now.day` among those with
/// `days - window + 1` to `days` days and at least one. Next is the one with the fewest among those
/// with `days + 1` to `days + window`. On one date `SPX` comes before `SPXW`. Which terms a figure
/// takes is this project's own rule; the index speaks of 30 days with windows of 7. Where an expiry
/// stands twice, a place at which it stands is given.
pub fn pick_terms(
    now: Moment,
    days: u32,
    window: u32,
    expiries: &[Expiry],
) -> Result<(usize, usize), NoTerm>
    ensures near { IfOk result (λ places. IsSomeAnd (slice_get expiries.now places.0)
        (IsNearTerm now.day days window expiries.now)) }
    ensures next { IfOk result (λ places. IsSomeAnd (slice_get expiries.now places.1)
        (IsNextTerm now.day days window expiries.now)) }

    // Where both terms are missing, near is named.
    ensures no_near { (result ≡ Err NoTerm.Near)
        ↔ All (λ e. ¬ (IsInNearWindow now.day days window e)) expiries.now }
    ensures no_next { (result ≡ Err NoTerm.Next)
        ↔ (Any (IsInNearWindow now.day days window) expiries.now
        × All (λ e. ¬ (IsInNextWindow now.day days window e)) expiries.now) }
{
    let near = near_place(now.day, days, window, expiries).ok_or(NoTerm::Near)?;
    let next = next_place(now.day, days, window, expiries).ok_or(NoTerm::Next)?;
    Ok((near, next))
}

fn near_place(today: DayNo, days: u32, window: u32, expiries: &[Expiry]) -> Option<usize>
    ensures found { IfSome result (λ place. IsSomeAnd (slice_get expiries.now place)
        (IsNearTerm today days window expiries.now)) }
    ensures none { IfNone result (All (λ e. ¬ (IsInNearWindow today days window e)) expiries.now) }
{
    let mut best = None;
    for (place, expiry) in expiries.iter().enumerate() {
        if is_in_near_window(today, days, window, *expiry) {
            best = match best {
                Some(other) if is_taken_before_as_near(expiries[other], *expiry) => Some(other),
                _ => Some(place),
            };
        }
    }
    best
}

fn next_place(today: DayNo, days: u32, window: u32, expiries: &[Expiry]) -> Option<usize>
    ensures found { IfSome result (λ place. IsSomeAnd (slice_get expiries.now place)
        (IsNextTerm today days window expiries.now)) }
    ensures none { IfNone result (All (λ e. ¬ (IsInNextWindow today days window e)) expiries.now) }
{
    let mut best = None;
    for (place, expiry) in expiries.iter().enumerate() {
        if is_in_next_window(today, days, window, *expiry) {
            best = match best {
                Some(other) if is_taken_before_as_next(expiries[other], *expiry) => Some(other),
                _ => Some(place),
            };
        }
    }
    best
}

/// The calendar days from today to an expiry, negative where that is past.
fn days_ahead(today: DayNo, e: Expiry) -> i64
    ensures value { result ≡ days_until today e.date }
    ensures bound { unsigned_abs result < 2 ^ 32 }
{
    i64::from(e.date.0) - i64::from(today.0)
}

fn is_in_near_window(today: DayNo, days: u32, window: u32, e: Expiry) -> bool
    ensures { IsTrue result ↔ IsInNearWindow today days window e }
{
    let (days, window) = (i64::from(days), i64::from(window));
    let ahead = days_ahead(today, e);
    1 <= ahead && days < ahead + window && ahead <= days
}

fn is_in_next_window(today: DayNo, days: u32, window: u32, e: Expiry) -> bool
    ensures { IsTrue result ↔ IsInNextWindow today days window e }
{
    let (days, window) = (i64::from(days), i64::from(window));
    let ahead = days_ahead(today, e);
    days < ahead && ahead <= days + window
}

fn is_taken_before_as_near(a: Expiry, b: Expiry) -> bool
    ensures { MatchBool result (IsTakenBeforeAsNear a b) (IsTakenBeforeAsNear b a) }
{
    a.date.0 > b.date.0 || a.date.0 == b.date.0 && a.root.rank() <= b.root.rank()
}

fn is_taken_before_as_next(a: Expiry, b: Expiry) -> bool
    ensures { MatchBool result (IsTakenBeforeAsNext a b) (IsTakenBeforeAsNext b a) }
{
    a.date.0 < b.date.0 || a.date.0 == b.date.0 && a.root.rank() <= b.root.rank()
}
