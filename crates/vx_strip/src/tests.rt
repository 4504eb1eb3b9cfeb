//! Strips at worked rows, and each cause for which there is none.

ghost use Rattle.std.specs.Prelude.{◌<◌, length};
ghost use Rattle.vx_symbol.specs.Rows.{AreLawfulRows};

use crate::{Strip, StripRefusal, StripRow, select};
use std::alloc::Global;
use std::test::Fail;
use vx_clock::{DayNo, Expiry, Root};
use vx_symbol::{Price, StrikeRow, TermView};

// The prices of 1.00, 0.50, 0.40 and 0.30, bid and ask alike, a zero bid, and none.
const POINT: Price = Price {
    there: true,
    live: true,
    half: 200,
};

const FIFTY: Price = Price {
    there: true,
    live: true,
    half: 100,
};

const FORTY: Price = Price {
    there: true,
    live: true,
    half: 80,
};

const THIRTY: Price = Price {
    there: true,
    live: true,
    half: 60,
};

const ZERO_BID: Price = Price {
    there: true,
    live: false,
    half: 5,
};

const NONE: Price = Price {
    there: false,
    live: false,
    half: 0,
};

// Strikes 1940 to 2010 with the level 2000 at place 6.
const ZERO_BIDS: [StrikeRow; 8] = [
    StrikeRow {
        strike: 1_940_000,
        put: THIRTY,
        call: NONE,
    },
    StrikeRow {
        strike: 1_950_000,
        put: ZERO_BID,
        call: NONE,
    },
    StrikeRow {
        strike: 1_960_000,
        put: ZERO_BID,
        call: NONE,
    },
    StrikeRow {
        strike: 1_970_000,
        put: FIFTY,
        call: NONE,
    },
    StrikeRow {
        strike: 1_980_000,
        put: ZERO_BID,
        call: NONE,
    },
    StrikeRow {
        strike: 1_990_000,
        put: POINT,
        call: NONE,
    },
    StrikeRow {
        strike: 2_000_000,
        put: POINT,
        call: POINT,
    },
    StrikeRow {
        strike: 2_010_000,
        put: NONE,
        call: POINT,
    },
];
// The same with a bid at 1950.
const LOW_BID: [StrikeRow; 8] = [
    StrikeRow {
        strike: 1_940_000,
        put: THIRTY,
        call: NONE,
    },
    StrikeRow {
        strike: 1_950_000,
        put: FORTY,
        call: NONE,
    },
    StrikeRow {
        strike: 1_960_000,
        put: ZERO_BID,
        call: NONE,
    },
    StrikeRow {
        strike: 1_970_000,
        put: FIFTY,
        call: NONE,
    },
    StrikeRow {
        strike: 1_980_000,
        put: ZERO_BID,
        call: NONE,
    },
    StrikeRow {
        strike: 1_990_000,
        put: POINT,
        call: NONE,
    },
    StrikeRow {
        strike: 2_000_000,
        put: POINT,
        call: POINT,
    },
    StrikeRow {
        strike: 2_010_000,
        put: NONE,
        call: POINT,
    },
];

fn selected_at(alloc: Global, rows: &[StrikeRow], k0: usize) -> Result<Strip, StripRefusal>
    requires lawful { AreLawfulRows rows.now }
    requires listed { k0 < length rows.now }
{
    let term = TermView {
        expiry: Expiry {
            root: Root::Spx,
            date: DayNo(16_360),
        },
        rate: None,
        rows,
    };
    select(alloc, &term, k0)
}

fn row(strike: u32, d: u32, q4: u32) -> StripRow {
    StripRow { strike, d, q4 }
}

#[test]
fn zero_bids_end_the_strip(rt: HostRuntime) -> Result<(), Fail> {
    let strip = selected_at(rt.alloc(), &ZERO_BIDS, 6)?;
    assert_eq!(rt;
        strip.rows.items(),
        [
            row(1_970_000, 40_000, 200),
            row(1_990_000, 30_000, 400),
            row(2_000_000, 20_000, 400),
            row(2_010_000, 20_000, 400),
        ]
        .as_slice()
    );
    let strip = selected_at(rt.alloc(), &LOW_BID, 6)?;
    assert_eq!(rt;
        strip.rows.items(),
        [
            row(1_940_000, 20_000, 120),
            row(1_950_000, 30_000, 160),
            row(1_970_000, 40_000, 200),
            row(1_990_000, 30_000, 400),
            row(2_000_000, 20_000, 400),
            row(2_010_000, 20_000, 400),
        ]
        .as_slice()
    );
    Ok(())
}

fn refusal_at(alloc: Global, rows: &[StrikeRow], k0: usize) -> Option<StripRefusal>
    requires lawful { AreLawfulRows rows.now }
    requires listed { k0 < length rows.now }
{
    selected_at(alloc, rows, k0).err()
}

// A level that lacks a price, one with no put below it, and one with no call above it.
#[test]
fn refusals_have_their_cause(rt: HostRuntime) {
    assert_eq!(rt;
        refusal_at(rt.alloc(), &ZERO_BIDS, 5),
        Some(StripRefusal::NoMoney)
    );
    assert_eq!(rt;
        refusal_at(rt.alloc(), &ZERO_BIDS[6..], 0),
        Some(StripRefusal::NoPut)
    );
    assert_eq!(rt;
        refusal_at(rt.alloc(), &ZERO_BIDS[..7], 6),
        Some(StripRefusal::NoCall)
    );
}
