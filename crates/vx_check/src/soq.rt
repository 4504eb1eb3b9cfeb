//! The tests of a certificate of kind `soq`.

ghost use Rattle.std.specs.Prelude.{◌≡◌, ℕ, ◌↔◌, IsTrue, IsSomeAnd, List, option_map, option_and_then};
ghost use Rattle.vx_feed.specs.declared.events.Event.{Event};
ghost use Rattle.vx_feed.specs.Order.{AreLawful};
ghost use Rattle.vx_claims.specs.Seen.{IsOpeningAt, opening_expiry};
ghost use Rattle.vx_claims.specs.Accepts.{scale_of, IsOpeningExpiry, OpeningTermMeets, SoqMeets};
ghost use Rattle.vx_tests.specs.Terms.{AreNumbersMet, NumbersMeet};
ghost use Rattle.vx_check.specs.StandsFor.{PlainStandsFor};
ghost use Rattle.vx_check.specs.declared.opening.Opening.{Opening};
ghost use Rattle.vx_check.specs.Reached.{IsReached, IsAtOpening};
ghost use Rattle.vx_check.specs.Answers.{AreMetBefore};
ghost use Rattle.vx_check.specs.Numbers.{OneTermNumbersMeet};

use crate::book::PlainBook;
use crate::figure::single_figure_meets;
use crate::opening::{Opening, OpeningTerm};
use vx_cert::{CertFigure, CertTerm, Certificate};
use vx_claims::Test;
use vx_clock::limits::INDEX_DAYS;
use vx_clock::{DayNo, Expiry, Root};
use vx_formula::limits::THIRTY_DAYS;
use vx_tests::scale::scale_of;
use vx_tests::term::{SeenTerm, meets};

/// Whether a certificate of kind `soq` meets a test, where it meets those before.
pub(crate) fn soq_meets(
    book: &PlainBook,
    c: &Certificate,
    term: &CertTerm,
    figure: &CertFigure,
    test: Test,
) -> bool
    requires { AreMetBefore (OneTermNumbersMeet (scale_of c.now.v) term.now figure.now) test }
    ensures exact { (events : List Event) → IsReached book.now events c.now.line → AreLawful events
        → AreMetBefore (SoqMeets events c.now.v c.now.line c.now.time term.now figure.now) test
        → (IsTrue result ↔ SoqMeets events c.now.v c.now.line c.now.time term.now figure.now test) }
    ensures numbers { IsTrue result → OneTermNumbersMeet (scale_of c.now.v) term.now figure.now test }
{
    match test {
        Test::Place => is_opening_at(book, c.line, c.time),
        Test::Terms => is_opening_expiry(book, term.expiry),
        Test::Square | Test::IndexEnds => single_figure_meets(c.v, term, figure, test),
        _ => opening_term_meets(book, c.v, term, test),
    }
}

/// The opening was taken at this line and minute of the day. A lawful feed has no other opening.
fn is_opening_at(book: &PlainBook, line: u64, time: u16) -> bool
    ensures { (events : List Event) → PlainStandsFor book.now events → AreLawful events
        → (IsTrue result ↔ IsOpeningAt events line time) }
{
    match book.opening() {
        Some(opening) => is_of(opening, line, time),
        None => false,
    }
}

fn is_of(opening: &Opening, line: u64, time: u16) -> bool
    ensures { IsTrue result ↔ ((opening.now.line ≡ line) × (opening.now.time ≡ time)) }
{
    opening.line == line && opening.time == time
}

/// The expiry is the `SPX` one 30 days after the trade date, and was declared before the opening.
fn is_opening_expiry(book: &PlainBook, expiry: Expiry) -> bool
    ensures { (events : List Event) (line time : ℕ) → IsAtOpening book.now events line time
        → (IsTrue result ↔ IsOpeningExpiry events expiry) }
{
    match opening_term(book) {
        Some(_) => is_after_trade_date(book.day(), expiry),
        None => false,
    }
}

fn is_after_trade_date(day: Option<DayNo>, expiry: Expiry) -> bool
    ensures { IsTrue result ↔ IsSomeAnd day (λ d. expiry ≡ opening_expiry d) }
{
    match day {
        Some(day) => is_thirty_days_after(day, expiry),
        None => false,
    }
}

fn is_thirty_days_after(day: DayNo, expiry: Expiry) -> bool
    ensures { IsTrue result ↔ (expiry ≡ opening_expiry day) }
{
    expiry.root == Root::Spx && i64::from(expiry.date.0) == i64::from(day.0) + i64::from(INDEX_DAYS)
}

/// Whether the opening's term meets a test, where it was declared before the opening.
fn opening_term_meets(book: &PlainBook, version: u32, term: &CertTerm, test: Test) -> bool
    requires { AreNumbersMet (scale_of version) term.now test }
    ensures exact { (events : List Event) (line time : ℕ) → IsAtOpening book.now events line time
        → IsOpeningExpiry events term.now.expiry → (IsTrue result ↔ OpeningTermMeets events version term.now test) }
    ensures numbers { IsTrue result → NumbersMeet (scale_of version) term.now test }
{
    match opening_term(book) {
        Some(shown) => {
            let seen = SeenTerm {
                rows: shown.rows(),
                rate: shown.rate,
                minutes: u64::from(THIRTY_DAYS),
            };
            meets(scale_of(version), &seen, term, test)
        }
        None => false,
    }
}

/// What the book shows of the opening's term, where the opening was taken and the term declared before.
fn opening_term(book: &PlainBook) -> Option<&OpeningTerm>
    ensures { option_map (λ term. term.now) result ≡ option_and_then (λ (o : Opening). o.term) book.now.opening }
{
    match book.opening() {
        Some(opening) => opening.term.as_ref(),
        None => None,
    }
}
