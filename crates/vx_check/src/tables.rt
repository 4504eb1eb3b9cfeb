//! The tables of all expiries, one for each.

ghost use Rattle.std.specs.Prelude.{◌≡◌, ◌<◌, length, IfOk, IfSome, OnOk, OnErr, option_map, find};
ghost use Rattle.std.specs.List.{position};
ghost use Rattle.vx_feed.specs.Listed.{expiry_of};
ghost use Rattle.vx_feed.specs.Same.{is_same_expiry};
ghost use Rattle.vx_claims.specs.Seen.{opening_expiry};
ghost use Rattle.vx_check.specs.Tables.{AreBoth, IsFirstPlace, ListsIn, SetsRate, QuotesIn, TradesIn, ChangesTable, SameTables};
ghost use Rattle.vx_check.specs.Opening.{IsTermOfTable, opening_table};
ghost use Rattle.vx_check.specs.Kept.{is_table_of};

use crate::opening::OpeningTerm;
use crate::prices;
use crate::table::Table;
use std::alloc::Global;
use vx_clock::limits::INDEX_DAYS;
use vx_clock::{DayNo, Expiry, Root};
use vx_num::NoMemory;
use vx_symbol::Symbol;

/// Where the table of an expiry stands, if it has one.
fn place_of(tables: &[Table], expiry: Expiry) -> Option<usize>
    ensures within { IfSome result (λ place. place < length tables.now) }
    ensures first { IsFirstPlace (is_table_of expiry) tables.now result }
{
    position_of(tables, expiry)
}

fn position_of(tables: &[Table], expiry: Expiry) -> Option<usize>
    ensures { result ≡ position (is_table_of expiry) tables.now }
{
    tables.iter().position(|table| expiry == table.expiry)
}

/// Lists a series in the table of its expiry.
pub fn list(tables: &mut [Table], symbol: &Symbol) -> Result<(), NoMemory>
    ensures listed { OnOk result (ListsIn symbol.now tables.old tables.new) }
    ensures refused { OnErr result (SameTables tables.old tables.new) }
{
    match place_of(tables, expiry_of(symbol)) {
        Some(place) => tables[place].list(symbol.side, symbol.strike),
        None => Ok(()),
    }
}

/// Sets the rate of an expiry, in 10^-8 per year.
pub fn set_rate(tables: &mut [Table], expiry: Expiry, rate: i32)
    ensures { ChangesTable expiry (SetsRate rate) tables.old tables.new }
{
    if let Some(place) = place_of(tables, expiry) {
        tables[place].rate = Some(rate);
    }
}

/// Sets the price of a series to what a quote shows.
pub fn quote(tables: &mut [Table], symbol: &Symbol, bid: u32, ask: u32)
    ensures { QuotesIn symbol.now bid ask tables.old tables.new }
{
    if let Some(place) = place_of(tables, expiry_of(symbol)) {
        tables[place].set_price(symbol.side, symbol.strike, prices::quoted(bid, ask));
    }
}

/// Keeps a trade of a series, if it is the first since the series was listed.
pub fn trade(tables: &mut [Table], symbol: &Symbol, cents: u32) -> Result<(), NoMemory>
    ensures traded { OnOk result (TradesIn symbol.now cents tables.old tables.new) }
    ensures refused { OnErr result (SameTables tables.old tables.new) }
{
    match place_of(tables, expiry_of(symbol)) {
        Some(place) => tables[place].trade(symbol.side, symbol.strike, prices::traded(cents)),
        None => Ok(()),
    }
}

/// The table of an expiry, if it has one.
pub fn find_table(tables: &[Table], expiry: Expiry) -> Option<&Table>
    ensures { option_map (λ table. table.now) result ≡ find (is_table_of expiry) tables.now }
{
    tables.iter().find(|table| expiry == table.expiry)
}

fn expiry_of(symbol: &Symbol) -> Expiry
    ensures { result ≡ expiry_of symbol.now }
{
    Expiry {
        root: symbol.root,
        date: symbol.date,
    }
}

/// The term of an opening that is taken now: that of the `SPX` expiry 30 days after the trade date,
/// where it has a table.
pub fn opening_term(
    alloc: Global,
    tables: &[Table],
    day: Option<DayNo>,
) -> Result<Option<OpeningTerm>, NoMemory>
    ensures { IfOk result (AreBoth IsTermOfTable (opening_table day tables.now)) }
{
    match find_opening_table(tables, day) {
        Some(table) => Ok(Some(table.opening_term(alloc)?)),
        None => Ok(None),
    }
}

fn find_opening_table(tables: &[Table], day: Option<DayNo>) -> Option<&Table>
    ensures { option_map (λ table. table.now) result ≡ opening_table day tables.now }
{
    match day {
        Some(day) => find_opening_table_of(tables, day),
        None => None,
    }
}

fn find_opening_table_of(tables: &[Table], day: DayNo) -> Option<&Table>
    ensures { option_map (λ table. table.now) result ≡ find (is_table_of (opening_expiry day)) tables.now }
{
    tables
        .iter()
        .find(|table| is_opening_expiry(table.expiry, day))
}

/// The expiry is the `SPX` one 30 days after the trade date.
fn is_opening_expiry(expiry: Expiry, day: DayNo) -> bool
    ensures { result ≡ is_same_expiry (opening_expiry day) expiry }
{
    expiry.root == Root::Spx && i64::from(expiry.date.0) == i64::from(day.0) + i64::from(INDEX_DAYS)
}
