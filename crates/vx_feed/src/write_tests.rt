//! One line of each kind, as it is written.

use crate::{Event, write_event};
use std::test::Fail;
use vx_clock::{DayNo, Expiry, Root};
use vx_symbol::{Side, Symbol};

const STANDARD: Expiry = Expiry {
    root: Root::Spx,
    date: DayNo(16_360),
};

const WEEKLY: Expiry = Expiry {
    root: Root::Spxw,
    date: DayNo(16_367),
};

const PUT_1900: Symbol = Symbol {
    root: Root::Spx,
    date: DayNo(16_360),
    side: Side::Put,
    strike: 1_900_000,
};

const CALL_2000: Symbol = Symbol {
    root: Root::Spxw,
    date: DayNo(16_367),
    side: Side::Call,
    strike: 2_000_500,
};

const LINES: &str = "\
    H,1,2014-09-17\nE,SPX,2014-10-17\nE,SPXW,2014-10-24\n\
    R,SPX,2014-10-17,0.030500\nR,SPXW,2014-10-24,-5.000000\nR,SPX,2014-10-17,0.000000\n\
    S,SPX   141017P01900000\nQ,08:30,SPX   141017P01900000,0.00,50000.00\n\
    Q,08:30,SPXW  141024C02000500,9.99,10.05\nT,09:05,SPX   141017P01900000,0.01\n\
    V,00:00\nZ,23:59\nEND,10000000\n";

#[test]
fn each_kind_is_written(rt: HostRuntime) -> Result<(), Fail> {
    let mut out = Vec::new(rt.alloc());
    for event in [
        Event::Header { day: DayNo(16_330) },
        Event::Expiry(STANDARD),
        Event::Expiry(WEEKLY),
        Event::Rate {
            expiry: STANDARD,
            rate: 30_500,
        },
        Event::Rate {
            expiry: WEEKLY,
            rate: -5_000_000,
        },
        Event::Rate {
            expiry: STANDARD,
            rate: 0,
        },
        Event::Series(PUT_1900),
        Event::Quote {
            time: 510,
            symbol: PUT_1900,
            bid: 0,
            ask: 5_000_000,
        },
        Event::Quote {
            time: 510,
            symbol: CALL_2000,
            bid: 999,
            ask: 1_005,
        },
        Event::Trade {
            time: 545,
            symbol: PUT_1900,
            price: 1,
        },
        Event::Tick { time: 0 },
        Event::Opening { time: 1_439 },
        Event::End { count: 10_000_000 },
    ] {
        write_event(rt.alloc(), &event, &mut out)?;
    }
    assert_eq!(rt; out.as_slice(), LINES.as_bytes());
    Ok(())
}
