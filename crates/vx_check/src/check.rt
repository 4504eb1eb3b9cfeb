//! The answer to a certificate of any kind.

ghost use Rattle.std.specs.Prelude.{◌≡◌, ◌≤◌, ◌↔◌, IsTrue, List, length};
ghost use Rattle.vx_feed.specs.declared.events.Event.{Event};
ghost use Rattle.vx_feed.specs.Order.{AreLawful};
ghost use Rattle.vx_claims.specs.Accepts.{scale_of, IsVersion, Meets};
ghost use Rattle.vx_claims.specs.Means.{Means};
ghost use Rattle.vx_check.specs.declared.verdict.Verdict.TheVariants.{Yes};
ghost use Rattle.vx_check.specs.StandsFor.{PlainStandsFor};
ghost use Rattle.vx_check.specs.Reached.{IsReached};
ghost use Rattle.vx_check.specs.Answers.{AreMetBefore, IsAnswerOver};
ghost use Rattle.vx_check.specs.Numbers.{BodyNumbersMeet};

use crate::book::PlainBook;
use crate::index::index_meets;
use crate::level::level_meets;
use crate::single::single_meets;
use crate::soq::soq_meets;
use crate::verdict::Verdict;
use vx_cert::{CertBody, Certificate};
use vx_claims::Test;
use vx_clock::limits::{INDEX_DAYS, INDEX_WINDOW};
use vx_tests::order::{TEST_COUNT, numbered};

/// Tests a certificate over the events pushed so far, which reach its feed line at most. Kind `index` is
/// tested for 30 days within a window of 7.
pub fn check_cert(book: &PlainBook, c: &Certificate) -> Verdict
    ensures answer { (pushed : List Event) → PlainStandsFor book.now pushed → AreLawful pushed
        → length pushed ≤ c.now.line → IsAnswerOver pushed c.now result }
    ensures sound { (pushed : List Event) → PlainStandsFor book.now pushed → AreLawful pushed
        → length pushed ≤ c.now.line → IsVersion c.now.v → result ≡ Yes → Means pushed c.now }
{
    for number in 1..TEST_COUNT + 1 {
        if !cert_meets(book, c, numbered(number)) {
            return Verdict::No(number);
        }
    }
    Verdict::Yes
}

/// Whether a certificate meets a test, where it meets those before.
fn cert_meets(book: &PlainBook, c: &Certificate, test: Test) -> bool
    requires { AreMetBefore (BodyNumbersMeet (scale_of c.now.v) c.now.body) test }
    ensures exact { (events : List Event) → IsReached book.now events c.now.line → AreLawful events
        → AreMetBefore (Meets events c.now) test → (IsTrue result ↔ Meets events c.now test) }
    ensures numbers { IsTrue result → BodyNumbersMeet (scale_of c.now.v) c.now.body test }
{
    match &c.body {
        CertBody::K0 { expiry, pair, k0 } => level_meets(book, c, *expiry, *pair, *k0, test),
        CertBody::Single { term, figure } => single_meets(book, c, term, figure, test),
        CertBody::Index { .. } => index_meets(book, c, INDEX_DAYS, INDEX_WINDOW, test),
        CertBody::Soq { term, figure } => soq_meets(book, c, term, figure, test),
    }
}
