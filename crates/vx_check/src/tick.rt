//! What a book shows at the tick of a feed line: whether its last event is that tick, and what a term is
//! tested against there.

ghost use Rattle.std.specs.Prelude.{◌≡◌, ℕ, ◌↔◌, IsTrue, List};
ghost use Rattle.std.specs.List.{list_any};
ghost use Rattle.vx_clock.specs.Minutes.{minutes_between};
ghost use Rattle.vx_feed.specs.declared.events.Event.{Event};
ghost use Rattle.vx_feed.specs.Listed.{is_declared};
ghost use Rattle.vx_feed.specs.Same.{is_same_expiry};
ghost use Rattle.vx_claims.specs.Accepts.{scale_of, TermMeetsAt};
ghost use Rattle.vx_claims.specs.Seen.{IsTickAt, events_before, term_facts};
ghost use Rattle.vx_tests.specs.Terms.{facts_of, AreNumbersMet, NumbersMeet};
ghost use Rattle.vx_check.specs.Reached.{shows_tick, IsReached, IsAtTick};

use crate::book::PlainBook;
use vx_cert::CertTerm;
use vx_claims::Test;
use vx_clock::limits::{AFTERNOON_SETTLEMENT, DAY_MINUTES, MORNING_SETTLEMENT};
use vx_clock::{Expiry, Moment, Root};
use vx_tests::scale::scale_of;
use vx_tests::term::{SeenTerm, meets};

/// The last event is the tick of this line, at this minute of the day.
pub(crate) fn is_tick_at(book: &PlainBook, line: u64, time: u16) -> bool
    ensures { (events : List Event) → IsReached book.now events line → (IsTrue result ↔ IsTickAt events line time) }
{
    shows_tick(book, line, time)
}

fn shows_tick(book: &PlainBook, line: u64, time: u16) -> bool
    ensures { result ≡ shows_tick book.now line time }
{
    book.lines() == line && book.tick().is_some_and(|minute| minute == time)
}

/// The expiry was declared before the tick.
pub(crate) fn is_declared(book: &PlainBook, expiry: Expiry) -> bool
    ensures { (events : List Event) (line time : ℕ) → IsAtTick book.now events line time
        → result ≡ is_declared expiry (events_before events line) }
{
    is_among(book.expiries(), expiry)
}

fn is_among(expiries: &[Expiry], expiry: Expiry) -> bool
    ensures { result ≡ list_any (is_same_expiry expiry) expiries.now }
{
    expiries.iter().any(|declared| expiry == *declared)
}

/// Whether a term meets a test at the tick, which is not of one term where it is met by every term.
pub(crate) fn term_meets(
    book: &PlainBook,
    version: u32,
    time: u16,
    term: &CertTerm,
    test: Test,
) -> bool
    requires { AreNumbersMet (scale_of version) term.now test }
    ensures exact { (events : List Event) (line : ℕ) → IsAtTick book.now events line time
        → (IsTrue result ↔ TermMeetsAt events version line time term.now test) }
    ensures numbers { IsTrue result → NumbersMeet (scale_of version) term.now test }
{
    match book.day() {
        Some(day) => {
            let seen = seen_term(book, Moment { day, minute: time }, term.expiry);
            meets(scale_of(version), &seen, term, test)
        }
        None => false,
    }
}

/// What the book shows of a term at a minute of the trade date.
fn seen_term(book: &PlainBook, now: Moment, expiry: Expiry) -> SeenTerm<'_>
    ensures { (events : List Event) (line : ℕ) → IsAtTick book.now events line now.minute
        → facts_of result ≡ term_facts (events_before events line) now expiry }
{
    SeenTerm {
        rows: book.rows(expiry),
        rate: book.rate(expiry),
        minutes: minutes_between(now, expiry),
    }
}

/// The minutes from a moment to a term's settlement, by the same sum also where that is not ahead: a
/// certificate may name any expiry.
fn minutes_between(now: Moment, expiry: Expiry) -> u64
    ensures { result ≡ minutes_between now expiry }
{
    let days = (i64::from(expiry.date.0) - i64::from(now.day.0)).unsigned_abs();
    let settlement = match expiry.root {
        Root::Spx => MORNING_SETTLEMENT,
        Root::Spxw => AFTERNOON_SETTLEMENT,
    };
    let today = u64::from(DAY_MINUTES).saturating_sub(u64::from(now.minute));
    today + u64::from(DAY_MINUTES) * days.saturating_sub(1) + u64::from(settlement)
}
