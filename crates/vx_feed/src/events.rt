//! The events of a feed: what each of its lines says.

use vx_clock::{DayNo, Expiry};
use vx_symbol::Symbol;

/// What one line of a feed says.
///
/// Times are minutes of the day, prices cents of a point, rates hundred-millionths per year.
#[derive(Clone, Copy, Debug, PartialEq, Eq)]
pub enum Event {
    /// The first line: the trade date.
    Header {
        day: DayNo,
    },
    /// An expiry is declared.
    Expiry(Expiry),
    /// The rate of an expiry from here on.
    Rate {
        expiry: Expiry,
        rate: i32,
    },
    /// A series is listed.
    Series(Symbol),
    /// A quote of a series; one with `bid` above `ask`, or with `ask` 0, takes the standing quote away.
    Quote {
        time: u16,
        symbol: Symbol,
        bid: u32,
        ask: u32,
    },
    /// A trade of a series.
    Trade {
        time: u16,
        symbol: Symbol,
        price: u32,
    },
    /// The index is asked for.
    Tick {
        time: u16,
    },
    /// The opening is taken.
    Opening {
        time: u16,
    },
    /// The last line: how many lines stand between the header and it.
    End {
        count: u32,
    },
}
