//! The tests of a certificate of kind `index`.

ghost use Rattle.std.specs.Prelude.{◌≡◌, ℕ, ◌+◌, ◌<◌, ◌≤◌, ◌↔◌, IsTrue, List, Some, length, slice_get};
ghost use Rattle.vx_clock.specs.Terms.{IsNearTerm, IsNextTerm};
ghost use Rattle.vx_feed.specs.declared.events.Event.{Event};
ghost use Rattle.vx_feed.specs.Order.{AreLawful};
ghost use Rattle.vx_claims.specs.Seen.{ArePickedTerms};
ghost use Rattle.vx_claims.specs.Test.{test_number};
ghost use Rattle.vx_claims.specs.Accepts.{scale_of, TermMeetsAt, IsVersion};
ghost use Rattle.vx_tests.specs.Terms.{AreNumbersMet, NumbersMeet};
ghost use Rattle.vx_claims.specs.Means.{MeansFor};
ghost use Rattle.vx_check.specs.declared.verdict.Verdict.TheVariants.{Yes};
ghost use Rattle.vx_check.specs.StandsFor.{PlainStandsFor};
ghost use Rattle.vx_check.specs.Reached.{IsReached, IsAtTick};
ghost use Rattle.vx_check.specs.Answers.{AreMetBefore, IsVerdict, MeetsAsIndex};
ghost use Rattle.vx_check.specs.Numbers.{IndexNumbersMeet};

use crate::book::PlainBook;
use crate::figure::figure_meets;
use crate::tick::{is_tick_at, term_meets};
use crate::verdict::Verdict;
use vx_cert::{CertBody, CertTerm, Certificate};
use vx_claims::Test;
use vx_clock::limits::{FIGURE_DAYS_MAX, WINDOW_MAX};
use vx_clock::{Expiry, Moment, pick_terms};
use vx_tests::order::{TEST_COUNT, number_of, numbered};

/// Tests a certificate of kind `index` for so many days within a window, over the events pushed so far.
/// They reach its feed line at most. A certificate of another kind fails the first test.
pub fn check_index(book: &PlainBook, c: &Certificate, days: u32, window: u32) -> Verdict
    requires days { days ≤ FIGURE_DAYS_MAX }
    requires window { window ≤ WINDOW_MAX }
    ensures answer { (pushed : List Event) → PlainStandsFor book.now pushed → length pushed ≤ c.now.line
        → IsVerdict (MeetsAsIndex days window pushed c.now) result }
    ensures sound { (pushed : List Event) → PlainStandsFor book.now pushed → length pushed ≤ c.now.line
        → AreLawful pushed → IsVersion c.now.v → result ≡ Yes → MeansFor days window pushed c.now }
{
    for number in 1..TEST_COUNT + 1 {
        if !index_meets(book, c, days, window, numbered(number)) {
            return Verdict::No(number);
        }
    }
    Verdict::Yes
}

/// Whether a certificate meets a test as one of kind `index`, where it meets those before.
pub(crate) fn index_meets(
    book: &PlainBook,
    c: &Certificate,
    days: u32,
    window: u32,
    test: Test,
) -> bool
    requires days { days ≤ FIGURE_DAYS_MAX }
    requires earlier { AreMetBefore (IndexNumbersMeet (scale_of c.now.v) c.now.body) test }
    ensures exact { (events : List Event) → IsReached book.now events c.now.line
        → AreMetBefore (MeetsAsIndex days window events c.now) test
        → (IsTrue result ↔ MeetsAsIndex days window events c.now test) }
    ensures numbers { IsTrue result → IndexNumbersMeet (scale_of c.now.v) c.now.body test }
{
    match &c.body {
        CertBody::Index {
            days: stated,
            near,
            next,
            figure,
        } => match test {
            Test::Place => *stated == days && is_tick_at(book, c.line, c.time),
            Test::Terms => are_picked(book, c.time, days, window, near.expiry, next.expiry),
            Test::Square | Test::IndexEnds => figure_meets(c.v, days, near, next, figure, test),
            _ => both_meet(book, c.v, c.time, near, next, test),
        },
        CertBody::K0 { .. } => is_later(test),
        CertBody::Single { .. } => is_later(test),
        CertBody::Soq { .. } => is_later(test),
    }
}

/// The test comes after the first one.
fn is_later(test: Test) -> bool
    ensures { IsTrue result ↔ (1 < test_number test) }
{
    1 < number_of(test)
}

/// Whether both terms meet a test of one term at the tick.
fn both_meet(
    book: &PlainBook,
    version: u32,
    time: u16,
    near: &CertTerm,
    next: &CertTerm,
    test: Test,
) -> bool
    requires near { AreNumbersMet (scale_of version) near.now test }
    requires next { AreNumbersMet (scale_of version) next.now test }
    ensures exact { (events : List Event) (line : ℕ) → IsAtTick book.now events line time
        → (IsTrue result ↔ (TermMeetsAt events version line time near.now test
        × TermMeetsAt events version line time next.now test)) }
    ensures numbers { IsTrue result → NumbersMeet (scale_of version) near.now test
        × NumbersMeet (scale_of version) next.now test }
{
    term_meets(book, version, time, near, test) && term_meets(book, version, time, next, test)
}

/// The two expiries are those of the near and of the next term at the tick.
fn are_picked(
    book: &PlainBook,
    time: u16,
    days: u32,
    window: u32,
    near: Expiry,
    next: Expiry,
) -> bool
    ensures { (events : List Event) (line : ℕ) → IsAtTick book.now events line time
        → (IsTrue result ↔ ArePickedTerms events line days window near next) }
{
    match book.day() {
        Some(day) => {
            let now = Moment { day, minute: time };
            are_terms_among(now, days, window, book.expiries(), near, next)
        }
        None => false,
    }
}

fn are_terms_among(
    now: Moment,
    days: u32,
    window: u32,
    expiries: &[Expiry],
    near: Expiry,
    next: Expiry,
) -> bool
    ensures { IsTrue result ↔ (IsNearTerm now.day days window expiries.now near
        × IsNextTerm now.day days window expiries.now next) }
{
    match pick_terms(now, days, window, expiries) {
        Ok((first, second)) => are_at(expiries, first, near, second, next),
        Err(_) => false,
    }
}

/// The two expiries stand at these places.
fn are_at(expiries: &[Expiry], first: usize, near: Expiry, second: usize, next: Expiry) -> bool
    requires first { first < length expiries.now }
    requires second { second < length expiries.now }
    ensures { IsTrue result ↔ ((slice_get expiries.now first ≡ Some near)
        × (slice_get expiries.now second ≡ Some next)) }
{
    is_at(expiries, first, near) && is_at(expiries, second, next)
}

fn is_at(expiries: &[Expiry], place: usize, expiry: Expiry) -> bool
    requires { place < length expiries.now }
    ensures { IsTrue result ↔ (slice_get expiries.now place ≡ Some expiry) }
{
    expiries[place] == expiry
}
