//! A day of events, taken up line by line.
ghost use Rattle.std.specs.Prelude.{List, IfOk, OnOk};
ghost use Rattle.vx_feed.specs.declared.events.Event.{Event};
ghost use Rattle.vx_feed.specs.Noted as noted;
ghost use Rattle.vx_book.specs.StandsFor.{BookStandsFor, BookStandsForSome};

use crate::{Book, Opened};
use std::alloc::Global;
use std::test::Fail;
use vx_clock::{DayNo, Expiry, Root};
use vx_feed::{Order, read_event};
use vx_symbol::{Price, StrikeRow, TermView};

const OCTOBER: Expiry = Expiry {
    root: Root::Spx,
    date: DayNo(16_360),
};

const WEEKLY: Expiry = Expiry {
    root: Root::Spxw,
    date: DayNo(16_367),
};

// The put of 2000 is listed before its call, the call of 1900 before its put, and 2000 before 1900. A
// quote comes before its series is listed, one while its strike has no row, and a crossed one; trades
// come before and after the opening, and a rate, a quote and an expiry after it.
const DAY: [&str; 20] = [
    "H,1,2014-09-17",
    "E,SPX,2014-10-17",
    "R,SPX,2014-10-17,0.01",
    "S,SPX   141017P02000000",
    "Q,08:30,SPX   141017P02000000,0.10,0.12",
    "Q,08:30,SPX   141017C02000000,0.07,0.07",
    "S,SPX   141017C02000000",
    "S,SPX   141017C01900000",
    "S,SPX   141017P01900000",
    "Q,08:30,SPX   141017C02000000,0.20,0.24",
    "Q,08:30,SPX   141017C01900000,0.30,0.34",
    "Q,08:30,SPX   141017P01900000,0.03,0.05",
    "Q,08:30,SPX   141017P01900000,0.09,0.08",
    "T,08:30,SPX   141017P02000000,0.40",
    "T,08:30,SPX   141017P02000000,0.41",
    "Z,08:30",
    "E,SPXW,2014-10-24",
    "R,SPX,2014-10-17,0.02",
    "T,08:31,SPX   141017C02000000,0.50",
    "Q,08:31,SPX   141017C02000000,0.01,0.02",
];

// Takes up a line in both.
fn take_line(alloc: Global, line: &str, seen: &mut Order, book: &mut Book) -> Result<(), Fail>
    requires { (events : List Event) × noted.StandsFor seen.old events × BookStandsFor book.old events }
    ensures { OnOk result ((events : List Event) × noted.StandsFor seen.new events × BookStandsFor book.new events) }
{
    let event = read_event(alloc, line.as_bytes(), seen)?;
    seen.note(&event)?;
    book.apply(&event)?;
    Ok(())
}

// The book after the first lines of the day.
fn book_after(alloc: Global, count: usize) -> Result<Book, Fail>
    ensures { IfOk result BookStandsForSome }
{
    let mut seen = Order::new(alloc)?;
    let mut book = Book::new(alloc)?;
    for line in DAY.iter().take(count) {
        take_line(alloc, line, &mut seen, &mut book)?;
    }
    Ok(book)
}

fn term(book: &Book, place: usize) -> Option<TermView<'_>>
    requires { BookStandsForSome book.now }
{
    if place < book.expiries().len() {
        return Some(book.term(place));
    }
    None
}

fn opening_term(book: &Book, place: usize) -> Option<TermView<'_>>
    requires { BookStandsForSome book.now }
{
    if book.opening_at().is_some() && place < book.expiries().len() {
        return Some(book.opening_term(place));
    }
    None
}

fn price(half: u32) -> Price {
    Price {
        there: half > 0,
        live: half > 0,
        half,
    }
}

fn row(strike: u32, put: u32, call: u32) -> StrikeRow {
    StrikeRow {
        strike,
        put: price(put),
        call: price(call),
    }
}

fn shows(term: Option<TermView<'_>>, rate: Option<i32>, rows: &[StrikeRow]) -> bool {
    match term {
        Some(term) => term.rate == rate && term.rows == rows,
        None => false,
    }
}

#[test]
fn keeps_what_the_day_says(rt: HostRuntime) -> Result<(), Fail> {
    let book = book_after(rt.alloc(), 20)?;
    assert_eq!(rt; book.lines(), 20);
    assert_eq!(rt; book.day(), Some(DayNo(16_330)));
    assert_eq!(rt; book.expiries(), [OCTOBER, WEEKLY].as_slice());
    let rows = [row(1_900_000, 0, 64), row(2_000_000, 22, 3)];
    assert!(rt; shows(term(&book, 0), Some(20_000), &rows));
    assert!(rt; shows(term(&book, 1), None, &[]));
    let opened = Opened {
        line: 16,
        time: 510,
        expiries: 1,
    };
    assert_eq!(rt; book.opening_at(), Some(opened));
    let rows = [row(1_900_000, 0, 64), row(2_000_000, 80, 44)];
    assert!(rt; shows(opening_term(&book, 0), Some(10_000), &rows));
    assert!(rt; shows(opening_term(&book, 1), None, &[]));
    Ok(())
}

#[test]
fn gives_a_row_to_a_strike_with_both_sides(rt: HostRuntime) -> Result<(), Fail> {
    let book = book_after(rt.alloc(), 6)?;
    assert!(rt; shows(term(&book, 0), Some(10_000), &[]));
    let book = book_after(rt.alloc(), 7)?;
    assert!(rt; shows(term(&book, 0), Some(10_000), &[row(2_000_000, 22, 0)]));
    assert_eq!(rt; book.opening_at(), None);
    Ok(())
}
