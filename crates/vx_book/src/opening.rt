//! The opening: what stood when it was taken.

ghost use Rattle.std.specs.Prelude.{◌≡◌, IfOk, IfSome};
ghost use Rattle.vx_feed.specs.Ranges.{IsPrice};
ghost use Rattle.vx_feed.specs.Listed.{series_at};
ghost use Rattle.vx_feed.specs.Opening as spec;
ghost use Rattle.vx_book.specs.Series.{AreTradesInRange, kept_trade};
ghost use Rattle.vx_book.specs.Opening.{IsOpeningOf, row_with_trades, rows_with_trades};

use crate::series;
use crate::series::Series;
use crate::table::Table;
use indexmap::IndexMap;
use std::alloc::Global;
use vx_clock::Expiry;
use vx_num::NoMemory;
use vx_symbol::{Price, Side, StrikeRow, Symbol};

/// Where and when the opening was taken.
#[derive(Clone, Copy, Debug, PartialEq, Eq)]
pub struct Opened {
    /// The line of the opening, from 1.
    pub line: u64,
    /// Its minute of the day.
    pub time: u16,
    /// How many expiries were declared before it: those are the first so many in order of declaration.
    pub expiries: usize,
}

/// What stood for one expiry at the opening.
#[derive(Debug, Drop)]
pub struct OpeningTerm {
    /// In 10^-8 per year.
    pub rate: Option<i32>,
    rows: Vec<StrikeRow>,
}

impl OpeningTerm {
    /// What a table shows at the opening: opening trades first, else what its quotes show.
    pub fn of(
        alloc: Global,
        series: &IndexMap<Symbol, Series>,
        expiry: Expiry,
        table: &Table,
    ) -> Result<OpeningTerm, NoMemory>
        requires { AreTradesInRange series.now }
        ensures { IfOk result (IsOpeningOf (kept_trade series.now) expiry table.now) }
    {
        Ok(OpeningTerm {
            rate: table.rate,
            rows: opening_rows(alloc, series, expiry, table.rows())?,
        })
    }

    /// The rows, in rising order of strike.
    pub fn rows(&self) -> &[StrikeRow]
        ensures { result.now ≡ self.now.rows.items }
    {
        self.rows.as_slice()
    }
}

fn opening_rows(
    alloc: Global,
    series: &IndexMap<Symbol, Series>,
    expiry: Expiry,
    rows: &[StrikeRow],
) -> Result<Vec<StrikeRow>, NoMemory>
    requires { AreTradesInRange series.now }
    ensures { IfOk result (λ opening. opening.items ≡ rows_with_trades (kept_trade series.now) expiry rows.now) }
{
    let mut opening = Vec::with_capacity(alloc, rows.len())?;
    for row in rows {
        opening.push(opening_row(series, expiry, row))?;
    }
    Ok(opening)
}

/// A row with the prices of the opening trades of its series, where they have any.
fn opening_row(series: &IndexMap<Symbol, Series>, expiry: Expiry, row: &StrikeRow) -> StrikeRow
    requires { AreTradesInRange series.now }
    ensures { result ≡ row_with_trades (kept_trade series.now) expiry row.now }
{
    StrikeRow {
        strike: row.strike,
        put: traded_price(trade_of(series, expiry, Side::Put, row.strike), row.put),
        call: traded_price(trade_of(series, expiry, Side::Call, row.strike), row.call),
    }
}

/// The price of a series by its opening trade, or by its quote where it has none.
fn traded_price(trade: Option<u32>, quoted: Price) -> Price
    requires { IfSome trade IsPrice }
    ensures { result ≡ spec.traded_price trade quoted }
{
    match trade {
        Some(price) => Price {
            there: true,
            live: true,
            half: 2 * price,
        },
        None => quoted,
    }
}

/// The opening trade of a series.
fn trade_of(
    series: &IndexMap<Symbol, Series>,
    expiry: Expiry,
    side: Side,
    strike: u32,
) -> Option<u32>
    ensures { result ≡ kept_trade series.now (series_at expiry side strike) }
{
    let symbol = Symbol {
        root: expiry.root,
        date: expiry.date,
        side,
        strike,
    };
    series::find(series, &symbol)?.traded
}
