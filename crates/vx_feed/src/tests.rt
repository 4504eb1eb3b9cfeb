//! Sample feeds, lines at the limits, and a line for each fault.

ghost use Rattle.std.specs.Prelude.{OnOk, IfOk};
ghost use Rattle.vx_feed.specs.Noted.{StandsForSome};

use crate::{Event, FeedFault, KnownSymbols, Order, event_of_fields, read_event};
use std::alloc::Global;
use std::test::Fail;
use vx_fields::{FieldTable, LineBlock, why_unsplit};

const FEED_A: [&str; 15] = [
    "H,1,2014-09-17",
    "E,SPX,2014-10-17",
    "R,SPX,2014-10-17,0",
    "S,SPX   141017C01900000",
    "S,SPX   141017P01900000",
    "S,SPX   141017C02000000",
    "S,SPX   141017P02000000",
    "S,SPX   141017C02100000",
    "S,SPX   141017P02100000",
    "Q,08:30,SPX   141017P01900000,10.00,10.00",
    "Q,08:30,SPX   141017C02000000,50.00,50.00",
    "Q,08:30,SPX   141017P02000000,50.00,50.00",
    "Q,08:30,SPX   141017C02100000,10.00,10.00",
    "V,08:30",
    "END,13",
];

const FEED_B: [&str; 27] = [
    "H,1,2014-09-17",
    "E,SPX,2014-10-17",
    "E,SPXW,2014-10-24",
    "R,SPX,2014-10-17,0",
    "R,SPXW,2014-10-24,0",
    "S,SPX   141017C01900000",
    "S,SPX   141017P01900000",
    "S,SPX   141017C02000000",
    "S,SPX   141017P02000000",
    "S,SPX   141017C02100000",
    "S,SPX   141017P02100000",
    "S,SPXW  141024C01900000",
    "S,SPXW  141024P01900000",
    "S,SPXW  141024C02000000",
    "S,SPXW  141024P02000000",
    "S,SPXW  141024C02100000",
    "S,SPXW  141024P02100000",
    "Q,08:30,SPX   141017P01900000,10.00,10.00",
    "Q,08:30,SPX   141017C02000000,50.00,50.00",
    "Q,08:30,SPX   141017P02000000,50.00,50.00",
    "Q,08:30,SPX   141017C02100000,10.00,10.00",
    "Q,08:30,SPXW  141024P01900000,10.00,10.00",
    "Q,08:30,SPXW  141024C02000000,50.00,50.00",
    "Q,08:30,SPXW  141024P02000000,50.00,50.00",
    "Q,08:30,SPXW  141024C02100000,10.00,10.00",
    "V,08:30",
    "END,25",
];

const FEED_D: [&str; 16] = [
    "H,1,2014-09-17",
    "E,SPX,2014-10-17",
    "R,SPX,2014-10-17,0",
    "S,SPX   141017C01900000",
    "S,SPX   141017P01900000",
    "S,SPX   141017C02000000",
    "S,SPX   141017P02000000",
    "S,SPX   141017C02100000",
    "S,SPX   141017P02100000",
    "T,08:30,SPX   141017P01900000,10.00",
    "T,08:30,SPX   141017C02000000,50.00",
    "Q,08:30,SPX   141017P02000000,50.00,50.00",
    "Q,08:30,SPX   141017C02100000,10.00,10.00",
    "T,08:30,SPX   141017P01900000,12.00",
    "Z,08:30",
    "END,14",
];

// How many lines of the first sample feed come before, a line after them, and its fault.
const FAULTS: [(usize, &str, FeedFault); 29] = [
    (1, "V,08:30\"", FeedFault::Byte),
    (1, "V,08:3é", FeedFault::Byte),
    (1, "", FeedFault::Kind),
    (1, "X,08:30", FeedFault::Kind),
    (1, "V", FeedFault::Fields),
    (1, "V,08:30,", FeedFault::Fields),
    (0, "H,2,2014-09-17", FeedFault::Field(2)),
    (0, "H,1,2014-09-31", FeedFault::Field(3)),
    (1, "V,24:00", FeedFault::Field(2)),
    (1, "V,8:30", FeedFault::Field(2)),
    (2, "R,SPX,2014-10-17,-5.000001", FeedFault::Field(4)),
    (2, "R,SPX,2014-10-17,25.000001", FeedFault::Field(4)),
    (3, "S,SPX  141017C01900000", FeedFault::Field(2)),
    (3, "S,SPX   141317C01900000", FeedFault::Field(2)),
    (
        9,
        "Q,08:30,SPX   141017C01900000,1.001,2.00",
        FeedFault::Field(4),
    ),
    (
        9,
        "Q,08:30,SPX   141017C01900000,50000.01,50000.01",
        FeedFault::Field(4),
    ),
    (9, "T,08:30,SPX   141017C01900000,0.00", FeedFault::Field(4)),
    (0, "E,SPX,2014-10-17", FeedFault::NotFirst),
    (1, "H,1,2014-09-17", FeedFault::NotFirst),
    (15, "H,1,2014-09-17", FeedFault::NotFirst),
    (15, "V,08:30", FeedFault::AfterEnd),
    (
        13,
        "Q,08:29,SPX   141017C02100000,1.00,1.00",
        FeedFault::TimeBack,
    ),
    (2, "E,SPX,2014-10-17", FeedFault::DuplicateExpiry),
    (4, "S,SPX   141017C01900000", FeedFault::DuplicateSeries),
    (3, "R,SPX,2014-10-24,0", FeedFault::UndeclaredExpiry),
    (3, "S,SPXW  141017C01900000", FeedFault::UndeclaredExpiry),
    (14, "END,12", FeedFault::EndCount),
    (1, "E,SPX,2014-09-17", FeedFault::TimeRange),
    (1, "E,SPX,2015-03-17", FeedFault::TimeRange),
];

// The same of lines that are lawful there.
const LAWFUL: [(usize, &str); 9] = [
    (2, "R,SPX,2014-10-17,-0"),
    (2, "R,SPX,2014-10-17,-5.000000"),
    (2, "R,SPX,2014-10-17,25"),
    (9, "Q,23:59,SPX   141017C01900000,50000,050000.00"),
    (9, "T,00:00,SPX   141017C01900000,0.01"),
    (1, "E,SPX,2014-09-18"),
    (1, "E,SPX,2015-03-16"),
    (1, "END,0"),
    (1, "Q,08:30,SPX   141017C01900000,2.00,1.00"),
];

// Lines that name series again: in the same order, in another, and with a bad symbol between.
const SERIES_AGAIN: [&str; 16] = [
    "Q,08:30,SPX   141017C01900000,1.00,2.00",
    "Q,08:30,SPX   141017P01900000,3.00,4.00",
    "Q,08:30,SPX   141017C02000000,5.00,6.00",
    "Q,08:31,SPX   141017C01900000,1.00,2.00",
    "Q,08:31,SPX   141017P01900000,3.00,4.00",
    "Q,08:31,SPX   141017C02000000,5.00,6.00",
    "Q,08:32,SPX   141017P01900000,3.00,4.00",
    "Q,08:32,SPX   141017C02000000,5.00,6.00",
    "T,08:32,SPX   141017C01900000,1.50",
    "S,SPX   141017C02200000",
    "Q,08:33,SPX   141017C01900000,1.00,2.00",
    "Q,08:33,SPX   141017P0190000,3.00,4.00",
    "Q,08:33,SPX   141017X01900000,3.00,4.00",
    "Q,08:33,SPX   141017P01900000,3.00,4.00",
    "Q,08:33,SPX   141017C02000001,5.00,6.00",
    "Q,08:33,SPX   141017C02000000,5.00,6.00",
];

// A feed that declares one expiry too many.
const SEVENTEEN_EXPIRIES: [&str; 18] = [
    "H,1,2014-09-17",
    "E,SPX,2014-10-10",
    "E,SPXW,2014-10-10",
    "E,SPX,2014-10-11",
    "E,SPXW,2014-10-11",
    "E,SPX,2014-10-12",
    "E,SPXW,2014-10-12",
    "E,SPX,2014-10-13",
    "E,SPXW,2014-10-13",
    "E,SPX,2014-10-14",
    "E,SPXW,2014-10-14",
    "E,SPX,2014-10-15",
    "E,SPXW,2014-10-15",
    "E,SPX,2014-10-16",
    "E,SPXW,2014-10-16",
    "E,SPX,2014-10-17",
    "E,SPXW,2014-10-17",
    "E,SPX,2014-10-20",
];

// Reads a line and notes its event, or gives its fault.
fn read_line(alloc: Global, line: &str, seen: &mut Order) -> Result<Option<FeedFault>, Fail>
    requires { StandsForSome seen.old }
    ensures { OnOk result (StandsForSome seen.new) }
{
    match read_event(alloc, line.as_bytes(), seen) {
        Ok(event) => {
            seen.note(&event)?;
            Ok(None)
        }
        Err(fault) => Ok(Some(fault)),
    }
}

// Reads the lines in turn, and gives the fault of the first bad one.
fn first_fault(alloc: Global, lines: &[&str]) -> Result<Option<FeedFault>, Fail> {
    let mut seen = Order::new(alloc)?;
    for line in lines {
        let fault = read_line(alloc, line, &mut seen)?;
        if fault.is_some() {
            return Ok(fault);
        }
    }
    Ok(None)
}

// The order after the first lines of the first sample feed.
fn order_after(alloc: Global, count: usize) -> Result<Order, Fail>
    ensures { IfOk result StandsForSome }
{
    let mut seen = Order::new(alloc)?;
    for line in FEED_A.iter().take(count) {
        read_line(alloc, line, &mut seen)?;
    }
    Ok(seen)
}

// The event of a line, where symbols of earlier lines may be known.
fn read_knowing(
    alloc: Global,
    line: &str,
    seen: &Order,
    known: &mut KnownSymbols,
) -> Result<Event, FeedFault> {
    if let Some(why) = why_unsplit(line.as_bytes()) {
        return Err(FeedFault::from(why));
    }
    let mut block = LineBlock::new(alloc);
    block.push(line.as_bytes())?;
    let mut table = FieldTable::new(alloc);
    table.fill(&block)?;
    event_of_fields(&table.line(0), seen, known)
}

#[test]
fn sample_feeds_are_lawful(rt: HostRuntime) -> Result<(), Fail> {
    assert_eq!(rt; first_fault(rt.alloc(), &FEED_A)?, None);
    assert_eq!(rt; first_fault(rt.alloc(), &FEED_B)?, None);
    assert_eq!(rt; first_fault(rt.alloc(), &FEED_D)?, None);
    Ok(())
}

#[test]
fn each_fault_comes_for_its_cause(rt: HostRuntime) -> Result<(), Fail> {
    for (count, line, fault) in FAULTS.iter() {
        let mut seen = order_after(rt.alloc(), *count)?;
        assert_eq!(rt; read_line(rt.alloc(), line, &mut seen)?, Some(*fault));
    }
    Ok(())
}

#[test]
fn lines_at_the_limits_are_lawful(rt: HostRuntime) -> Result<(), Fail> {
    for (count, line) in LAWFUL.iter() {
        let mut seen = order_after(rt.alloc(), *count)?;
        assert_eq!(rt; read_line(rt.alloc(), line, &mut seen)?, None);
    }
    Ok(())
}

#[test]
fn a_second_opening_is_refused(rt: HostRuntime) -> Result<(), Fail> {
    let lines = ["H,1,2014-09-17", "Z,08:30", "Z,08:30"];
    assert_eq!(rt;
        first_fault(rt.alloc(), &lines)?,
        Some(FeedFault::SecondOpening)
    );
    Ok(())
}

#[test]
fn a_seventeenth_expiry_is_refused(rt: HostRuntime) -> Result<(), Fail> {
    assert_eq!(rt;
        first_fault(rt.alloc(), &SEVENTEEN_EXPIRIES)?,
        Some(FeedFault::TooMany)
    );
    assert_eq!(rt; first_fault(rt.alloc(), &SEVENTEEN_EXPIRIES[..17])?, None);
    Ok(())
}

#[test]
fn a_rate_is_read_with_its_sign(rt: HostRuntime) -> Result<(), Fail> {
    let seen = order_after(rt.alloc(), 2)?;
    match read_event(rt.alloc(), b"R,SPX,2014-10-17,-0.0305", &seen)? {
        Event::Rate { rate, .. } => assert_eq!(rt; rate, -30_500),
        _ => assert!(rt; false),
    }
    Ok(())
}

#[test]
fn known_symbols_change_no_answer(rt: HostRuntime) -> Result<(), Fail> {
    let seen = order_after(rt.alloc(), 9)?;
    let mut known = KnownSymbols::new(rt.alloc());
    for line in SERIES_AGAIN.iter() {
        let alone = read_event(rt.alloc(), line.as_bytes(), &seen);
        assert_eq!(rt; read_knowing(rt.alloc(), line, &seen, &mut known), alone);
    }
    Ok(())
}
