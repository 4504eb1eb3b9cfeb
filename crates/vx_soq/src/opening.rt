//! The opening figure of a book.

ghost use Rattle.std.specs.Prelude.{◌≡◌, List, Some, IfOk};
ghost use Rattle.std.specs.List.{position};
ghost use Rattle.vx_claims.specs.declared.limits.TheConstants.{SCALE};
ghost use Rattle.vx_claims.specs.Seen.{opening_expiry};
ghost use Rattle.vx_feed.specs.declared.events.Event.{Event};
ghost use Rattle.vx_feed.specs.Order.{AreLawful};
ghost use Rattle.vx_feed.specs.Same.{is_same_expiry};
ghost use Rattle.vx_book.specs.StandsFor.{BookStandsFor, BookStandsForSome};
ghost use Rattle.vx_term.specs.Answer.{OnRun};
ghost use Rattle.vx_term.specs.Steps.{IsRunInRange};
ghost use Rattle.vx_soq.specs.Complete.{PublishesWhereClear, RefusesWhereClear};
ghost use Rattle.vx_soq.specs.Figures.{IsOpeningFigure, IsAnswerByTerm, certificate_of_run};
ghost use Rattle.vx_soq.specs.Lawful.{IsLawfulOpening};
ghost use Rattle.vx_soq.specs.Openings.{IsOpeningAnswer};
ghost use Rattle.vx_soq.specs.TermPlace.{FindsTerm};
ghost use Rattle.vx_soq.specs.Written.{IsWritable};

use crate::answer::{Figure, OpeningAnswer, SoqReason};
use std::alloc::Global;
use vx_book::{Book, Opened};
use vx_bounds::Decision;
use vx_cert::limits::VERSION_MAX;
use vx_cert::{CertBody, CertFigure, Certificate};
use vx_certify::{certify_figure, certify_term, decide_index};
use vx_claims::limits::SCALE;
use vx_clock::limits::INDEX_DAYS;
use vx_clock::{DayNo, Expiry, Root};
use vx_formula::limits::THIRTY_DAYS;
use vx_num::NoMemory;
use vx_term::{TermAnswer, TermRun, single, term_variance};

/// The answer to the opening of the events that a book stands for. Its one term is the `SPX` expiry 30
/// days after the trade date, always at 43,200 minutes, with the prices of the opening: an opening trade
/// before a quote. After Cboe's special opening quotation; which trade and which quote count, and the
/// order of the refusals, are this project's own.
///
/// The book stands for some list of events. Where those are lawful, the answer is lawful: a figure that
/// alone is the formula's exact value rounded, with two ends at most 200 millionths of a point apart
/// around it and an accepted certificate of kind `soq` that names the opening's line and time; the first
/// refusal that holds; or undecided, with ends around the exact value, those of a forward at most three
/// units of `10^-12` point apart. What is clear of every boundary is answered with a figure, or with the
/// first refusal that holds.
///
/// # Errors
///
/// `NoMemory`, for the term's strip or for the certificate.
pub fn opening_figure(alloc: Global, book: &Book) -> Result<OpeningAnswer, NoMemory>
    requires { BookStandsForSome book.now }
    ensures answer { (events : List Event) → BookStandsFor book.now events → IfOk result (IsOpeningAnswer events) }
    ensures lawful { (events : List Event) → BookStandsFor book.now events → AreLawful events
        → IfOk result (IsLawfulOpening events) }
    ensures published { (events : List Event) → BookStandsFor book.now events → AreLawful events
        → IfOk result (PublishesWhereClear events) }
    ensures refused { (events : List Event) → BookStandsFor book.now events → AreLawful events
        → IfOk result (RefusesWhereClear events) }
    ensures writable { (events : List Event) → BookStandsFor book.now events → AreLawful events
        → IfOk result IsWritable }
{
    let Some(opened) = book.opening_at() else {
        return Ok(OpeningAnswer::Refused(SoqReason::NoOpening));
    };
    let Some(place) = term_place(book, opened) else {
        return Ok(OpeningAnswer::Refused(SoqReason::NoTerm));
    };
    let term = book.opening_term(place);
    let answer = term_variance::<SCALE>(alloc, &term, THIRTY_DAYS)?;
    answer_of_term(alloc, opened, &answer)
}

/// Where the opening's term stands in the book's order of declaration, if it was declared before the
/// opening.
fn term_place(book: &Book, opened: Opened) -> Option<usize>
    requires stands { BookStandsForSome book.now }
    requires opened { book.now.opened ≡ Some opened }
    ensures { (events : List Event) → BookStandsFor book.now events → FindsTerm events result }
{
    let day = book.day()?;
    let declared = book.expiries();
    place_of_term(day, &declared[..opened.expiries])
}

/// Where the opening's term on a trade date stands among expiries.
fn place_of_term(day: DayNo, expiries: &[Expiry]) -> Option<usize>
    ensures { result ≡ position (is_same_expiry (opening_expiry day)) expiries.now }
{
    expiries
        .iter()
        .position(|expiry| is_opening_expiry(day, *expiry))
}

/// The expiry is the `SPX` one 30 days after a day.
fn is_opening_expiry(day: DayNo, expiry: Expiry) -> bool
    ensures { result ≡ is_same_expiry (opening_expiry day) expiry }
{
    let settlement = i64::from(day.0) + i64::from(INDEX_DAYS);
    Root::Spx == expiry.root && settlement == i64::from(expiry.date.0)
}

/// The answer to an opening, from the answer for its term.
fn answer_of_term(
    alloc: Global,
    opened: Opened,
    answer: &TermAnswer<SCALE>,
) -> Result<OpeningAnswer, NoMemory>
    requires { OnRun SCALE (IsRunInRange SCALE) answer.now }
    ensures { IfOk result (IsAnswerByTerm opened.line opened.time answer.now) }
{
    match answer {
        TermAnswer::Run(run) => answer_of_run(alloc, opened, run),
        TermAnswer::Refused(refusal) => Ok(OpeningAnswer::Refused(SoqReason::Term(*refusal))),
        TermAnswer::UndecidedForward { strike, lo, hi } => Ok(OpeningAnswer::UndecidedForward {
            strike: *strike,
            lo: *lo,
            hi: *hi,
        }),
    }
}

/// The same with the term's run: what the square of the index says of its figure.
fn answer_of_run(
    alloc: Global,
    opened: Opened,
    run: &TermRun<SCALE>,
) -> Result<OpeningAnswer, NoMemory>
    requires { IsRunInRange SCALE run.now }
    ensures { IfOk result (IsOpeningFigure opened.line opened.time run.now) }
{
    let square = single(&run.w);
    let index = decide_index(&square);
    let (lo, hi) = (index.lo, index.hi);
    match index.decision {
        Decision::Straddle => Ok(OpeningAnswer::UndecidedCents { lo, hi }),
        Decision::Negative => Ok(OpeningAnswer::Refused(SoqReason::NegativeVariance)),
        Decision::Cents(cents) => {
            let figure = certify_figure(&square, lo, hi, cents);
            let certificate = certify_opening(alloc, opened, run, figure)?;
            Ok(OpeningAnswer::Published(Figure {
                cents,
                lo,
                hi,
                certificate,
            }))
        }
    }
}

/// The certificate of a figure of the term's run.
fn certify_opening(
    alloc: Global,
    opened: Opened,
    run: &TermRun<SCALE>,
    figure: CertFigure,
) -> Result<Certificate, NoMemory>
    ensures { IfOk result (λ c. c ≡ certificate_of_run opened.line opened.time run.now figure) }
{
    let term = certify_term(alloc, run)?;
    Ok(Certificate {
        v: VERSION_MAX,
        line: opened.line,
        time: opened.time,
        body: CertBody::Soq { term, figure },
    })
}
