//! The opening figure of small feeds.
ghost use Rattle.std.specs.Prelude.{List, IfOk, OnOk};
ghost use Rattle.vx_feed.specs.declared.events.Event.{Event};
ghost use Rattle.vx_feed.specs.Noted as noted;
ghost use Rattle.vx_book.specs.StandsFor.{BookStandsFor};

use crate::{OpeningAnswer, SoqReason, opening_figure};
use std::alloc::Global;
use std::test::Fail;
use vx_book::Book;
use vx_feed::{Order, read_event};
use vx_term::TermRefusal;

const HEADER: [&str; 1] = ["H,1,2014-09-17"];

// The term 30 days ahead at rate zero, its six series, and the prices of all of them but the put of 1900.
const TERM: [&str; 11] = [
    "E,SPX,2014-10-17",
    "R,SPX,2014-10-17,0",
    "S,SPX   141017C01900000",
    "S,SPX   141017P01900000",
    "S,SPX   141017C02000000",
    "S,SPX   141017P02000000",
    "S,SPX   141017C02100000",
    "S,SPX   141017P02100000",
    "T,08:30,SPX   141017C02000000,50.00",
    "Q,08:30,SPX   141017P02000000,50.00,50.00",
    "Q,08:30,SPX   141017C02100000,10.00,10.00",
];

// What is answered where the put of 1900 stands at 10.00: the figure in cents, and its ends.
const FIGURE: (u64, i64, i64) = (2066, 20_657_919, 20_657_920);

// Takes up lines in both.
fn take_lines(alloc: Global, lines: &[&str], seen: &mut Order, book: &mut Book) -> Result<(), Fail>
    requires { (events : List Event) × noted.StandsFor seen.old events × BookStandsFor book.old events }
    ensures { OnOk result ((events : List Event) × noted.StandsFor seen.new events × BookStandsFor book.new events) }
{
    for line in lines {
        let event = read_event(alloc, line.as_bytes(), seen)?;
        seen.note(&event)?;
        book.apply(&event)?;
    }
    Ok(())
}

// The answer to the opening of these lines.
fn answer_to(
    alloc: Global,
    first: &[&str],
    listed: &[&str],
    last: &[&str],
) -> Result<OpeningAnswer, Fail> {
    let mut seen = Order::new(alloc)?;
    let mut book = Book::new(alloc)?;
    take_lines(alloc, first, &mut seen, &mut book)?;
    take_lines(alloc, listed, &mut seen, &mut book)?;
    take_lines(alloc, last, &mut seen, &mut book)?;
    Ok(opening_figure(alloc, &book)?)
}

// The figure with its ends, or why there is none; an undecided answer has neither.
fn told(answer: &OpeningAnswer) -> Result<(u64, i64, i64), Option<SoqReason>> {
    match answer {
        OpeningAnswer::Published(figure) => Ok((figure.cents, figure.lo, figure.hi)),
        OpeningAnswer::Refused(reason) => Err(Some(*reason)),
        _ => Err(None),
    }
}

#[test]
fn first_trades_open(rt: HostRuntime) -> Result<(), Fail> {
    let alloc = rt.alloc();
    let traded = answer_to(
        alloc,
        &HEADER,
        &TERM,
        &[
            "T,08:30,SPX   141017P01900000,10.00",
            "T,08:30,SPX   141017P01900000,12.00",
            "Z,08:30",
        ],
    )?;
    assert_eq!(rt; told(&traded), Ok(FIGURE));
    let traded_later = answer_to(
        alloc,
        &HEADER,
        &TERM,
        &[
            "Q,08:30,SPX   141017P01900000,10.00,10.00",
            "Z,08:30",
            "T,08:31,SPX   141017P01900000,12.00",
            "Q,08:31,SPX   141017C02100000,20.00,20.00",
            "R,SPX,2014-10-17,1",
        ],
    )?;
    assert_eq!(rt; told(&traded_later), Ok(FIGURE));
    Ok(())
}

#[test]
fn trade_makes_a_strike_with_a_zero_bid_live(rt: HostRuntime) -> Result<(), Fail> {
    let alloc = rt.alloc();
    let quoted = answer_to(
        alloc,
        &HEADER,
        &TERM,
        &["Q,08:30,SPX   141017P01900000,0,20.00", "Z,08:30"],
    )?;
    let no_put = SoqReason::Term(TermRefusal::NoPut);
    assert_eq!(rt; told(&quoted), Err(Some(no_put)));
    let traded = answer_to(
        alloc,
        &HEADER,
        &TERM,
        &[
            "Q,08:30,SPX   141017P01900000,0,20.00",
            "T,08:30,SPX   141017P01900000,10.00",
            "Z,08:30",
        ],
    )?;
    assert_eq!(rt; told(&traded), Ok(FIGURE));
    Ok(())
}

#[test]
fn opening_and_its_term_are_asked_for(rt: HostRuntime) -> Result<(), Fail> {
    let alloc = rt.alloc();
    let unopened = answer_to(alloc, &HEADER, &TERM, &["V,08:30"])?;
    assert_eq!(rt; told(&unopened), Err(Some(SoqReason::NoOpening)));
    let termless = answer_to(alloc, &HEADER, &[], &["Z,08:30"])?;
    assert_eq!(rt; told(&termless), Err(Some(SoqReason::NoTerm)));
    let declared_later = answer_to(alloc, &HEADER, &["Z,08:30"], &["E,SPX,2014-10-17"])?;
    assert_eq!(rt; told(&declared_later), Err(Some(SoqReason::NoTerm)));
    let weekly_alone = answer_to(alloc, &HEADER, &["E,SPXW,2014-10-17"], &["Z,08:30"])?;
    assert_eq!(rt; told(&weekly_alone), Err(Some(SoqReason::NoTerm)));
    Ok(())
}

#[test]
fn weekly_on_the_same_day_is_not_taken(rt: HostRuntime) -> Result<(), Fail> {
    let both = answer_to(
        rt.alloc(),
        &["H,1,2014-09-17", "E,SPXW,2014-10-17"],
        &TERM,
        &["T,08:30,SPX   141017P01900000,10.00", "Z,08:30"],
    )?;
    assert_eq!(rt; told(&both), Ok(FIGURE));
    Ok(())
}
