//! The answer to one tick, over the book of the events before it.

ghost use Rattle.std.specs.Prelude.{◌≡◌, ◌+◌, ◌^◌, ◌<◌, ◌≤◌, List, Some, IsSome, IsSomeAnd, IfOk, length, slice_get};
ghost use Rattle.vx_clock.specs.declared.days.DayNo.{DayNo};
ghost use Rattle.vx_clock.specs.declared.limits.TheConstants.{INDEX_DAYS, INDEX_WINDOW, MINUTE_MAX};
ghost use Rattle.vx_clock.specs.declared.terms.Expiry.{Expiry};
ghost use Rattle.vx_clock.specs.Terms.{IsNearTerm, IsNextTerm};
ghost use Rattle.vx_feed.specs.declared.events.Event.{Event};
ghost use Rattle.vx_feed.specs.Listed.{trade_date};
ghost use Rattle.vx_cert.specs.declared.limits.TheConstants.{LINE_MAX};
ghost use Rattle.vx_claims.specs.declared.limits.TheConstants.{SCALE};
ghost use Rattle.vx_claims.specs.Seen.{moment_of, term_facts};
ghost use Rattle.vx_book.specs.StandsFor.{BookStandsFor};
ghost use Rattle.vx_replay.specs.Joinable.{CanBeWritten};
ghost use Rattle.vx_replay.specs.StripsAfter.{AreKeptAfterTick};
ghost use Rattle.vx_replay.specs.TermSteps.{HasStripsFor, SettlesAhead, IsTermKept};
ghost use Rattle.vx_replay.specs.Ticks.{IsAnswerAfter, IsAnswerFor, IsAnswerOfTerms};

use crate::answer::{Reason, TickAnswer, Which};
use crate::join::join_terms;
use std::alloc::Global;
use std::sync::ledger::Ledger;
use vx_book::Book;
use vx_claims::limits::SCALE;
use vx_clock::limits::{INDEX_DAYS, INDEX_WINDOW};
use vx_clock::{Moment, NoTerm, minutes_to, pick_terms};
use vx_num::{NoMemory, Steps};
use vx_sum::KeptStrip;
use vx_term::{TermAnswer, term_variance_kept};

/// The answer to a tick at a minute of the day, which comes after the events of the book. The strips of
/// its two terms are kept.
pub(crate) fn answer_tick<L: Ledger>(
    alloc: Global,
    book: &Book,
    kept: &mut [KeptStrip<SCALE>],
    time: u16,
    steps: &mut Steps<L>,
) -> Result<TickAnswer, NoMemory>
    requires strips { HasStripsFor book.now kept.old }
    requires time { time ≤ MINUTE_MAX }
    requires day { IsSome book.now.day }
    requires line { book.now.lines < LINE_MAX }
    requires count { steps.old ≤ 2 ^ 62 }
    ensures answer { (events : List Event) (day : DayNo) → BookStandsFor book.now events → trade_date events ≡ Some day
        → IfOk result (IsAnswerAfter events (moment_of day time) (length events + 1) INDEX_DAYS INDEX_WINDOW) }
    ensures in_range { IfOk result CanBeWritten }
    ensures kept { (events : List Event) → BookStandsFor book.now events
        → AreKeptAfterTick events time kept.old kept.new steps.old steps.new result }
{
    let Some(day) = book.day() else {
        unreachable!()
    };
    let now = Moment { day, minute: time };
    match pick_terms(now, INDEX_DAYS, INDEX_WINDOW, book.expiries()) {
        Ok(places) => answer_terms(alloc, book, kept, now, places, steps),
        Err(NoTerm::Near) => Ok(TickAnswer::Refused {
            reason: Reason::NoTerm,
            which: Which::Near,
        }),
        Err(NoTerm::Next) => Ok(TickAnswer::Refused {
            reason: Reason::NoTerm,
            which: Which::Next,
        }),
    }
}

/// The answer of the near and the next term at these places. The next term is computed also where the
/// near one is refused, so that its kept strip stays near what the next tick selects.
fn answer_terms<L: Ledger>(
    alloc: Global,
    book: &Book,
    kept: &mut [KeptStrip<SCALE>],
    now: Moment,
    places: (usize, usize),
    steps: &mut Steps<L>,
) -> Result<TickAnswer, NoMemory>
    requires strips { HasStripsFor book.now kept.old }
    requires near { IsSomeAnd (slice_get book.now.expiries.items places.0)
        (IsNearTerm now.day INDEX_DAYS INDEX_WINDOW book.now.expiries.items) }
    requires next { IsSomeAnd (slice_get book.now.expiries.items places.1)
        (IsNextTerm now.day INDEX_DAYS INDEX_WINDOW book.now.expiries.items) }
    requires minute { now.minute ≤ MINUTE_MAX }
    requires line { book.now.lines < LINE_MAX }
    requires count { steps.old ≤ 2 ^ 62 }
    ensures answer { (events : List Event) → BookStandsFor book.now events
        → IfOk result (IsAnswerOfTerms events now (length events + 1) INDEX_DAYS INDEX_WINDOW) }
    ensures in_range { IfOk result CanBeWritten }
    ensures kept { (events : List Event) → BookStandsFor book.now events → trade_date events ≡ Some now.day
        → AreKeptAfterTick events now.minute kept.old kept.new steps.old steps.new result }
{
    let near = answer_term(alloc, book, kept, now, places.0, steps)?;
    let next = answer_term(alloc, book, kept, now, places.1, steps)?;
    join_terms(
        alloc,
        &near,
        &next,
        book.lines() + 1,
        now.minute,
        INDEX_DAYS,
    )
}

/// The answer for the term of the expiry at a place in order of declaration, which settles 1 to 181
/// days ahead. Its kept strip takes over the strip that is selected.
fn answer_term<L: Ledger>(
    alloc: Global,
    book: &Book,
    kept: &mut [KeptStrip<SCALE>],
    now: Moment,
    place: usize,
    steps: &mut Steps<L>,
) -> Result<TermAnswer<SCALE>, NoMemory>
    requires strips { HasStripsFor book.now kept.old }
    requires within { place < length book.now.expiries.items }
    requires ahead { (x : Expiry) → slice_get book.now.expiries.items place ≡ Some x → SettlesAhead now x }
    requires minute { now.minute ≤ MINUTE_MAX }
    requires count { steps.old ≤ 2 ^ 63 }
    ensures answer { (events : List Event) (x : Expiry) → BookStandsFor book.now events
        → slice_get book.now.expiries.items place ≡ Some x → IfOk result (IsAnswerFor events now x) }
    ensures kept { (events : List Event) (x : Expiry) → BookStandsFor book.now events
        → slice_get book.now.expiries.items place ≡ Some x
        → IsTermKept (term_facts events now x) place kept.old kept.new steps.old steps.new result }
{
    let term = book.term(place);
    let minutes = minutes_to(now, term.expiry);
    term_variance_kept(alloc, &term, minutes, &mut kept[place], steps)
}
