//! The tests of a certificate of kind `k0`.

ghost use Rattle.std.specs.Prelude.{◌≡◌, pos, ◌↔◌, IsTrue, List, Some};
ghost use Rattle.vx_feed.specs.declared.events.Event.{Event};
ghost use Rattle.vx_claims.specs.TermTests.{IsLevelOfEnds};
ghost use Rattle.vx_claims.specs.Accepts.{scale_of, zero_rate_forward, K0Meets};
ghost use Rattle.vx_check.specs.Reached.{IsReached};
ghost use Rattle.vx_check.specs.Answers.{AreMetBefore};

use crate::book::PlainBook;
use crate::tick::{is_declared, is_tick_at};
use vx_cert::{Certificate, Pair};
use vx_claims::Test;
use vx_clock::Expiry;
use vx_symbol::StrikeRow;
use vx_tests::forward::zero_rate_forward;
use vx_tests::level::is_level_of_ends;
use vx_tests::pair::is_closest;
use vx_tests::scale::scale_of;

/// Whether a certificate of kind `k0` meets a test, where it meets those before.
pub(crate) fn level_meets(
    book: &PlainBook,
    c: &Certificate,
    expiry: Expiry,
    pair: Pair,
    k0: u32,
    test: Test,
) -> bool
    ensures { (events : List Event) → IsReached book.now events c.now.line
        → AreMetBefore (K0Meets events c.now.v c.now.line c.now.time expiry pair k0) test
        → (IsTrue result ↔ K0Meets events c.now.v c.now.line c.now.time expiry pair k0 test) }
{
    match test {
        Test::Place => is_tick_at(book, c.line, c.time),
        Test::Terms => is_declared(book, expiry),
        Test::Rate => is_zero(book.rate(expiry)),
        Test::ClosestPair => is_closest(book.rows(expiry), pair),
        Test::Level => is_zero_rate_level(c.v, book.rows(expiry), pair, k0),
        Test::Minutes
        | Test::TaylorTerms
        | Test::Exponential
        | Test::Forward
        | Test::Excess
        | Test::Strip
        | Test::Contributions
        | Test::Total
        | Test::Variance
        | Test::Square
        | Test::IndexEnds => true,
    }
}

fn is_zero(rate: Option<i32>) -> bool
    ensures { IsTrue result ↔ (rate ≡ Some (pos 0)) }
{
    rate == Some(0)
}

/// The level is that of the pair's forward at rate zero.
fn is_zero_rate_level(version: u32, rows: &[StrikeRow], pair: Pair, k0: u32) -> bool
    ensures { IsTrue result ↔ IsLevelOfEnds (scale_of version) rows.now (zero_rate_forward (scale_of version) pair) k0 }
{
    let scale = scale_of(version);
    is_level_of_ends(scale, rows, zero_rate_forward(scale, pair), k0)
}
