//! The opening: what stood when it was taken.

ghost use Rattle.std.specs.Prelude.{◌≡◌, IfOk};
ghost use Rattle.vx_check.specs.Trades.{AreRowsAtOpening};
ghost use Rattle.vx_check.specs.Opening.{ShowsTerm};

use crate::trades;
use crate::trades::FirstTrades;
use std::alloc::Global;
use vx_num::NoMemory;
use vx_symbol::StrikeRow;

/// The opening, as its line found it.
#[derive(Debug, Drop)]
pub struct Opening {
    /// The number of its line, from 1.
    pub line: u64,
    /// Its minute of the day.
    pub time: u16,
    /// How many expiries were declared before it: the first so many in order of declaration.
    pub expiries: usize,
    /// The term of the `SPX` expiry 30 days after the trade date, where it was declared before.
    pub term: Option<OpeningTerm>,
}

/// What stood for an expiry at the opening.
#[derive(Debug, Drop)]
pub struct OpeningTerm {
    /// The standing rate, in 10^-8 per year.
    pub rate: Option<i32>,
    rows: Vec<StrikeRow>,
}

impl OpeningTerm {
    /// What an expiry shows at an opening that is taken now, by its rate, the first trades of its
    /// series and its rows.
    pub(crate) fn of(
        alloc: Global,
        rate: Option<i32>,
        trades: &[FirstTrades],
        rows: &[StrikeRow],
    ) -> Result<OpeningTerm, NoMemory>
        ensures { IfOk result (ShowsTerm rate trades.now rows.now) }
    {
        Ok(OpeningTerm {
            rate,
            rows: opening_rows(alloc, trades, rows)?,
        })
    }

    /// The listed strikes in rising order with their opening prices: a series that had traded at twice the price of its
    /// first trade, and any other as its quote said.
    pub fn rows(&self) -> &[StrikeRow]
        ensures { result.now ≡ self.now.rows.items }
    {
        self.rows.as_slice()
    }
}

/// The rows with the prices of first trades, where their series have any.
fn opening_rows(
    alloc: Global,
    trades: &[FirstTrades],
    rows: &[StrikeRow],
) -> Result<Vec<StrikeRow>, NoMemory>
    ensures { IfOk result (λ opening. AreRowsAtOpening trades.now rows.now opening.items) }
{
    let mut opening = Vec::with_capacity(alloc, rows.len())?;
    for row in rows {
        opening.push(trades::row_at_opening(trades, row))?;
    }
    Ok(opening)
}
