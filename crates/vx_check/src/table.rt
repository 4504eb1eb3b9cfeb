//! The series of one expiry, in rising order of strike.

ghost use Rattle.std.specs.Prelude.{◌≡◌, ◌≤◌, ◌↔◌, IsTrue, length, None, IfOk, OnOk, OnErr};
ghost use Rattle.vx_feed.specs.Same.{is_same_side};
ghost use Rattle.vx_check.specs.Rising.{Rises, HasKeyAt, IsPlaceOfKey, IsPlaceFrom, IsPlaceWithin, item_at};
ghost use Rattle.vx_check.specs.Tables.{row_strike, half_strike, joined, row_with_price, half_with_price, is_listed_in_table};
ghost use Rattle.vx_check.specs.Tables.{AreRising, IsEmptyTable, IsTableKept, ListsInTable, PutsRow, SetsHalfPrice};
ghost use Rattle.vx_check.specs.Tables.{SetsPriceInTable, SetsTradeInTable};
ghost use Rattle.vx_check.specs.Trades.{is_listed_in};
ghost use Rattle.vx_check.specs.Opening.{IsTermOfTable};

use crate::opening::OpeningTerm;
use crate::prices::NO_PRICE;
use crate::trades;
use crate::trades::FirstTrades;
use std::alloc::Global;
use vx_clock::Expiry;
use vx_num::NoMemory;
use vx_symbol::{Price, Side, StrikeRow};

/// The series of one expiry. A strike stands in `rows` where both its series are listed, in `halves`
/// where one is, and in `trades` where one traded before the opening.
#[derive(Debug, Drop)]
pub struct Table {
    pub expiry: Expiry,
    pub rate: Option<i32>,
    rows: Vec<StrikeRow>,
    halves: Vec<Half>,
    trades: Vec<FirstTrades>,
    /// Where a price of a row was last set: a quote is mostly of this strike or of one beside it. It
    /// says nothing of the table.
    last: usize,
}

/// A strike of which one side is listed.
#[derive(Clone, Copy, Debug)]
pub struct Half {
    strike: u32,
    side: Side,
    price: Price,
}

impl Table {
    pub fn new(alloc: Global, expiry: Expiry) -> Table
        ensures { IsEmptyTable expiry result }
    {
        Table {
            expiry,
            rate: None,
            rows: Vec::new(alloc),
            halves: Vec::new(alloc),
            trades: Vec::new(alloc),
            last: 0,
        }
    }

    /// The listed strikes, in rising order.
    pub fn rows(&self) -> &[StrikeRow]
        ensures { result.now ≡ self.now.rows.items }
    {
        self.rows.as_slice()
    }

    /// Lists a series that is not listed yet. After a refusal nothing has changed.
    pub fn list(&mut self, side: Side, strike: u32) -> Result<(), NoMemory>
        ensures listed { OnOk result (ListsInTable side strike self.old self.new) }
        ensures refused { OnErr result (IsTableKept self.old self.new) }
    {
        match place_of_half(self.halves.as_slice(), strike) {
            Ok(place) => {
                let row = joined(self.halves[place], side);
                insert_row(&mut self.rows, row)?;
                self.halves.remove(place);
                Ok(())
            }
            Err(place) => {
                let half = Half {
                    strike,
                    side,
                    price: NO_PRICE,
                };
                Ok(self.halves.insert(place, half)?)
            }
        }
    }

    /// Sets the price of a series; one that is not listed has none.
    pub fn set_price(&mut self, side: Side, strike: u32, price: Price)
        ensures { SetsPriceInTable side strike price self.old self.new }
    {
        match place_near(self.rows.as_slice(), strike, self.last) {
            Ok(place) => {
                self.rows[place] = row_with_price(self.rows[place], side, price);
                self.last = place;
            }
            Err(_) => set_half(&mut self.halves, side, strike, price),
        }
    }

    /// Keeps the price of a trade, if it is the first of its series; a series that is not listed has
    /// none. After a refusal nothing has changed.
    pub fn trade(&mut self, side: Side, strike: u32, price: Price) -> Result<(), NoMemory>
        ensures traded { OnOk result (SetsTradeInTable side strike price self.old self.new) }
        ensures refused { OnErr result (IsTableKept self.old self.new) }
    {
        if self.is_listed(side, strike) {
            trades::keep_first(&mut self.trades, side, strike, price)
        } else {
            Ok(())
        }
    }

    fn is_listed(&self, side: Side, strike: u32) -> bool
        ensures { AreRising self.now → result ≡ is_listed_in_table side strike self.now }
    {
        match place_of_row(self.rows.as_slice(), strike) {
            Ok(_) => true,
            Err(_) => is_listed_alone(self.halves.as_slice(), side, strike),
        }
    }

    /// What the table shows at an opening that is taken now.
    pub fn opening_term(&self, alloc: Global) -> Result<OpeningTerm, NoMemory>
        ensures { IfOk result (IsTermOfTable self.now) }
    {
        OpeningTerm::of(
            alloc,
            self.rate,
            self.trades.as_slice(),
            self.rows.as_slice(),
        )
    }
}

/// Whether this side of a strike is listed, and the other is not.
fn is_listed_alone(halves: &[Half], side: Side, strike: u32) -> bool
    ensures { Rises half_strike halves.now → result ≡ is_listed_in side None (item_at half_strike strike halves.now) }
{
    match place_of_half(halves, strike) {
        Ok(place) => is_of_side(halves[place], side),
        Err(_) => false,
    }
}

fn is_of_side(half: Half, side: Side) -> bool
    ensures { result ≡ is_same_side half.side side }
{
    half.side == side
}

/// The place of a strike's row, or where it would stand. It is looked for at the last place and on both
/// sides of it, and only then among all rows.
fn place_near(rows: &[StrikeRow], strike: u32, last: usize) -> Result<usize, usize>
    ensures within { IsPlaceWithin rows.now result }
    ensures place { IsPlaceOfKey row_strike strike rows.now result }
{
    let next = last.saturating_add(1);
    let before = last.saturating_sub(1);
    if has_strike(rows, last, strike) {
        Ok(last)
    } else if has_strike(rows, next, strike) {
        Ok(next)
    } else if has_strike(rows, before, strike) {
        Ok(before)
    } else {
        place_of_row(rows, strike)
    }
}

/// Whether there is a row at a place, and it is the strike's.
fn has_strike(rows: &[StrikeRow], place: usize, strike: u32) -> bool
    ensures { IsTrue result ↔ HasKeyAt row_strike strike place rows.now }
{
    place < rows.len() && rows[place].strike == strike
}

/// The place of a strike's row, or where it would stand.
fn place_of_row(rows: &[StrikeRow], strike: u32) -> Result<usize, usize>
    ensures within { IsPlaceWithin rows.now result }
    ensures place { IsPlaceOfKey row_strike strike rows.now result }
{
    let place = first_row_from(rows, strike);
    if has_strike(rows, place, strike) {
        Ok(place)
    } else {
        Err(place)
    }
}

/// The place of the first row at a strike or above it.
fn first_row_from(rows: &[StrikeRow], strike: u32) -> usize
    ensures within { result ≤ length rows.now }
    ensures first { IsPlaceFrom row_strike strike rows.now result }
{
    rows.partition_point(|row| row.strike < strike)
}

/// The place of a strike of which one side is listed, or where it would stand.
fn place_of_half(halves: &[Half], strike: u32) -> Result<usize, usize>
    ensures within { IsPlaceWithin halves.now result }
    ensures place { IsPlaceOfKey half_strike strike halves.now result }
{
    let place = first_half_from(halves, strike);
    if place < halves.len() && halves[place].strike == strike {
        Ok(place)
    } else {
        Err(place)
    }
}

/// The place of the first half at a strike or above it.
fn first_half_from(halves: &[Half], strike: u32) -> usize
    ensures within { result ≤ length halves.now }
    ensures first { IsPlaceFrom half_strike strike halves.now result }
{
    halves.partition_point(|half| half.strike < strike)
}

/// The row of a strike of which the other side is listed now.
fn joined(half: Half, side: Side) -> StrikeRow
    ensures { result ≡ joined half side }
{
    match side {
        Side::Put => StrikeRow {
            strike: half.strike,
            put: NO_PRICE,
            call: half.price,
        },
        Side::Call => StrikeRow {
            strike: half.strike,
            put: half.price,
            call: NO_PRICE,
        },
    }
}

fn insert_row(rows: &mut Vec<StrikeRow>, row: StrikeRow) -> Result<(), NoMemory>
    ensures inserted { OnOk result (PutsRow row rows.old.items rows.new.items) }
    ensures refused { OnErr result (rows.new.items ≡ rows.old.items) }
{
    match place_of_row(rows.as_slice(), row.strike) {
        Ok(place) => {
            rows[place] = row;
            Ok(())
        }
        Err(place) => Ok(rows.insert(place, row)?),
    }
}

/// A row with the price of one side.
fn row_with_price(row: StrikeRow, side: Side, price: Price) -> StrikeRow
    ensures { result ≡ row_with_price side price row }
{
    match side {
        Side::Put => StrikeRow { put: price, ..row },
        Side::Call => StrikeRow { call: price, ..row },
    }
}

/// A strike's only side, with a price if it is this side.
fn half_with_price(half: Half, side: Side, price: Price) -> Half
    ensures { result ≡ half_with_price side price half }
{
    if is_of_side(half, side) {
        Half { price, ..half }
    } else {
        half
    }
}

fn set_half(halves: &mut Vec<Half>, side: Side, strike: u32, price: Price)
    ensures { SetsHalfPrice side strike price halves.old.items halves.new.items }
{
    if let Ok(place) = place_of_half(halves.as_slice(), strike) {
        halves[place] = half_with_price(halves[place], side, price);
    }
}
