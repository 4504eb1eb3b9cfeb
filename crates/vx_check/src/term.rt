//! The tests of one term of a certificate.

ghost use Rattle.std.specs.Prelude.{◌≤◌, ◌↔◌, IsTrue, List, length};
ghost use Rattle.vx_feed.specs.declared.events.Event.{Event};
ghost use Rattle.vx_claims.specs.Accepts.{scale_of, TermMeetsAt};
ghost use Rattle.vx_tests.specs.Terms.{AreNumbersMet, NumbersMeet};
ghost use Rattle.vx_check.specs.Reached.{IsReached};
ghost use Rattle.vx_check.specs.StandsFor.{PlainStandsFor};
ghost use Rattle.vx_check.specs.Answers.{IsVerdictFrom};

use crate::book::PlainBook;
use crate::tick::{is_tick_at, term_meets};
use crate::verdict::Verdict;
use vx_cert::CertTerm;
use vx_claims::Test;
use vx_tests::order::numbered;

/// Tests one term of kind `index` at the tick of a feed line, from one test to another, both by their
/// numbers: yes, or the first of them that fails. Where the book's last event is no such tick each test
/// fails. By the range of `first` every range is tested before a later test relies on it.
pub fn check_term(
    book: &PlainBook,
    v: u32,
    line: u64,
    time: u16,
    t: &CertTerm,
    first: u32,
    last: u32,
) -> Verdict
    requires least { 3 ≤ first }
    requires most { first ≤ 6 }
    requires order { first ≤ last }
    requires last { last ≤ 14 }
    ensures { (events : List Event) → PlainStandsFor book.now events → length events ≤ line
        → IsVerdictFrom first last (TermMeetsAt events v line time t.now) result }
{
    for number in first..last + 1 {
        if !term_meets_at(book, v, line, time, t, numbered(number)) {
            return Verdict::No(number);
        }
    }
    Verdict::Yes
}

/// Whether a term meets a test at the tick of a feed line, which must be the book's last event.
fn term_meets_at(
    book: &PlainBook,
    version: u32,
    line: u64,
    time: u16,
    term: &CertTerm,
    test: Test,
) -> bool
    requires { AreNumbersMet (scale_of version) term.now test }
    ensures exact { (events : List Event) → IsReached book.now events line
        → (IsTrue result ↔ TermMeetsAt events version line time term.now test) }
    ensures numbers { IsTrue result → NumbersMeet (scale_of version) term.now test }
{
    is_tick_at(book, line, time) && term_meets(book, version, time, term, test)
}
