//! The tests of a certificate of kind `single`.

ghost use Rattle.std.specs.Prelude.{◌≡◌, ℕ, ◌↔◌, IsTrue, List};
ghost use Rattle.vx_feed.specs.declared.events.Event.{Event};
ghost use Rattle.vx_claims.specs.Accepts.{scale_of, TermMeetsAt, SingleMeets};
ghost use Rattle.vx_tests.specs.Terms.{AreNumbersMet, NumbersMeet};
ghost use Rattle.vx_check.specs.Reached.{IsReached, IsAtTick};
ghost use Rattle.vx_check.specs.Answers.{AreMetBefore, IsSingleBasis};
ghost use Rattle.vx_check.specs.Numbers.{OneTermNumbersMeet};

use crate::book::PlainBook;
use crate::figure::single_figure_meets;
use crate::tick::{is_declared, is_tick_at, term_meets};
use vx_cert::{CertFigure, CertTerm, Certificate};
use vx_claims::Test;
use vx_formula::limits::THIRTY_DAYS;

/// Whether a certificate of kind `single` meets a test, where it meets those before.
pub(crate) fn single_meets(
    book: &PlainBook,
    c: &Certificate,
    term: &CertTerm,
    figure: &CertFigure,
    test: Test,
) -> bool
    requires { AreMetBefore (OneTermNumbersMeet (scale_of c.now.v) term.now figure.now) test }
    ensures exact { (events : List Event) → IsReached book.now events c.now.line
        → AreMetBefore (SingleMeets events c.now.v c.now.line c.now.time term.now figure.now) test
        → (IsTrue result ↔ SingleMeets events c.now.v c.now.line c.now.time term.now figure.now test) }
    ensures numbers { IsTrue result → OneTermNumbersMeet (scale_of c.now.v) term.now figure.now test }
{
    match test {
        Test::Place => is_tick_at(book, c.line, c.time),
        Test::Terms => is_declared(book, term.expiry),
        Test::Square | Test::IndexEnds => single_figure_meets(c.v, term, figure, test),
        _ => single_term_meets(book, c.v, c.time, term, test),
    }
}

/// Whether the one term meets a test of one term, with 30 days and a rate of zero at the tests of these.
fn single_term_meets(book: &PlainBook, version: u32, time: u16, term: &CertTerm, test: Test) -> bool
    requires { AreNumbersMet (scale_of version) term.now test }
    ensures exact { (events : List Event) (line : ℕ) → IsAtTick book.now events line time
        → (IsTrue result ↔ (IsSingleBasis term.now test × TermMeetsAt events version line time term.now test)) }
    ensures numbers { IsTrue result → NumbersMeet (scale_of version) term.now test }
{
    has_single_basis(term, test) && term_meets(book, version, time, term, test)
}

fn has_single_basis(term: &CertTerm, test: Test) -> bool
    ensures { IsTrue result ↔ IsSingleBasis term.now test }
{
    match test {
        Test::Minutes => term.minutes == THIRTY_DAYS,
        Test::Rate => term.rate == 0,
        Test::Place
        | Test::Terms
        | Test::TaylorTerms
        | Test::Exponential
        | Test::ClosestPair
        | Test::Forward
        | Test::Level
        | Test::Excess
        | Test::Strip
        | Test::Contributions
        | Test::Total
        | Test::Variance
        | Test::Square
        | Test::IndexEnds => true,
    }
}
