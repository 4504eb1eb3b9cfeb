//! What the book keeps of an opening, over a short feed.

use crate::PlainBook;
use std::alloc::Global;
use std::test::Fail;
use vx_clock::{DayNo, Expiry, Root};
use vx_feed::Event;
use vx_num::NoMemory;
use vx_symbol::{Side, Symbol};

const OCTOBER: Expiry = Expiry {
    root: Root::Spx,
    date: DayNo(16_360),
};

const NOVEMBER: Expiry = Expiry {
    root: Root::Spx,
    date: DayNo(16_395),
};

fn series(side: Side) -> Symbol {
    Symbol {
        root: OCTOBER.root,
        date: OCTOBER.date,
        side,
        strike: 2_000_000,
    }
}

fn trade(side: Side, price: u32) -> Event {
    Event::Trade {
        time: 510,
        symbol: series(side),
        price,
    }
}

fn rate(rate: i32) -> Event {
    Event::Rate {
        expiry: OCTOBER,
        rate,
    }
}

// The opening at line 9, after two trades of the call and one of the put before it was listed.
fn opened(alloc: Global) -> Result<PlainBook, NoMemory> {
    let events = [
        Event::Header { day: DayNo(16_330) },
        Event::Expiry(OCTOBER),
        rate(100),
        Event::Series(series(Side::Call)),
        trade(Side::Put, 4_000),
        Event::Series(series(Side::Put)),
        trade(Side::Call, 4_900),
        trade(Side::Call, 5_100),
        Event::Opening { time: 510 },
        Event::Expiry(NOVEMBER),
        rate(200),
        trade(Side::Put, 4_500),
    ];
    let mut book = PlainBook::new(alloc)?;
    for event in events {
        book.push(event)?;
    }
    Ok(book)
}

#[test]
fn keeps_what_stood_at_the_opening(rt: HostRuntime) -> Result<(), Fail> {
    let Ok(book) = opened(rt.alloc()) else {
        return Err(Fail::from("no memory"));
    };
    let Some(opening) = book.opening() else {
        return Err(Fail::from("no opening"));
    };
    assert_eq!(rt; opening.line, 9);
    assert_eq!(rt; opening.time, 510);
    assert_eq!(rt; opening.expiries, 1);
    let Some(term) = &opening.term else {
        return Err(Fail::from("no term"));
    };
    assert_eq!(rt; term.rate, Some(100));
    assert_eq!(rt; term.rows().len(), 1);
    assert!(rt; term.rows()[0].call.live);
    assert_eq!(rt; term.rows()[0].call.half, 9_800);
    assert!(rt; !term.rows()[0].put.there);
    Ok(())
}
