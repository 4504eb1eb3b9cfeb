//! The rows of one expiry.

ghost use Rattle.std.specs.Prelude.{◌≡◌, ◌<◌, [], map, length, IfOk, OnErr, IsSome, None};
ghost use Rattle.std.specs.List.{All};
ghost use Rattle.vx_symbol.specs.Rows.{IsLawfulPrice, StrikesRise};
ghost use Rattle.vx_feed.specs.Ranges.{IsPrice};
ghost use Rattle.vx_feed.specs.NextRows.{row_without};
ghost use Rattle.vx_book.specs.Tables as spec;
ghost use Rattle.vx_book.specs.Tables.{AddsRow, ArePlaces, IsPlaceFor, IsSameTable, SetsPrice, row_with, strike_of_row};
ghost use Rattle.vx_feed.specs.Listed.{price_of};

use std::alloc::Global;
use vx_num::NoMemory;
use vx_symbol::{Price, Side, StrikeRow};

/// The price of a series that has none.
pub const NO_PRICE: Price = Price {
    there: false,
    live: false,
    half: 0,
};

/// What stands for one expiry: its rate, and a row for each strike that has both sides.
#[derive(Debug, Drop)]
pub struct Table {
    /// In 10^-8 per year.
    pub rate: Option<i32>,
    // In rising order of strike.
    rows: Vec<StrikeRow>,
    // Where the row of each number stands.
    places: Vec<usize>,
}

impl Table {
    /// The table of an expiry of which nothing stands yet.
    pub fn new(alloc: Global) -> Table
        ensures rate { result.rate ≡ None }
        ensures rows { result.rows.items ≡ [] }
        ensures places { result.places.items ≡ [] }
    {
        Table {
            rate: None,
            rows: Vec::new(alloc),
            places: Vec::new(alloc),
        }
    }

    /// The rows, in rising order of strike.
    pub fn rows(&self) -> &[StrikeRow]
        ensures { result.now ≡ self.now.rows.items }
    {
        self.rows.as_slice()
    }

    /// Puts the row of a strike that has none in its place, and answers its number. After a refusal
    /// nothing has changed.
    pub fn add_row(&mut self, row: StrikeRow) -> Result<usize, NoMemory>
        requires rising { StrikesRise self.old.rows.items }
        requires placed { ArePlaces self.old.rows.items self.old.places.items }
        ensures added { IfOk result (AddsRow row self.old self.new) }
        ensures refused { OnErr result (IsSameTable self.old self.new) }
    {
        let place = place_for(&self.rows, row.strike);
        self.places.reserve(1)?;
        self.rows.insert(place, row)?;
        let number = self.places.len();
        make_room(&mut self.places, place);
        self.places.push(place)?;
        Ok(number)
    }

    /// Sets the price on one side of the row of a number.
    pub fn set_price(&mut self, number: usize, side: Side, price: Price)
        requires rising { StrikesRise self.old.rows.items }
        requires has_row { IsSome (strike_of_row self.old number) }
        ensures { SetsPrice number side price self.old self.new }
    {
        let place = self.places[number];
        self.rows[place] = with_price(self.rows[place], side, price);
    }
}

/// How many rows stand at or below a strike.
fn place_for(rows: &[StrikeRow], strike: u32) -> usize
    requires { StrikesRise rows.now }
    ensures { IsPlaceFor strike rows.now result }
{
    rows.partition_point(|row| row.strike <= strike)
}

/// Moves the places at this one and above it up by one.
fn make_room(places: &mut [usize], from: usize)
    requires { All (λ place. place < usize.MAX) places.old }
    ensures { places.new ≡ map (spec.moved_up from) places.old }
{
    for place in places.iter_mut() {
        *place = moved_up(*place, from);
    }
}

/// Where a place stands after a row more at another.
fn moved_up(place: usize, from: usize) -> usize
    requires { place < usize.MAX }
    ensures { result ≡ spec.moved_up from place }
{
    if place >= from { place + 1 } else { place }
}

/// A row with this price on one side.
fn with_price(row: StrikeRow, side: Side, price: Price) -> StrikeRow
    ensures { result ≡ row_with side price row }
{
    match side {
        Side::Put => StrikeRow { put: price, ..row },
        Side::Call => StrikeRow { call: price, ..row },
    }
}

/// The price that a quote shows: there where it stands, live where its bid is at least a cent.
pub fn quoted(bid: u32, ask: u32) -> Price
    requires bid { IsPrice bid }
    requires ask { IsPrice ask }
    ensures value { result ≡ price_of bid ask }
    ensures lawful { IsLawfulPrice result }
{
    if ask < 1 || bid > ask {
        return NO_PRICE;
    }
    Price {
        there: true,
        live: bid >= 1,
        half: bid + ask,
    }
}

/// The row of a strike one side of which is listed now, with the price of the other.
pub fn completed(side: Side, strike: u32, other: Price) -> StrikeRow
    ensures { result ≡ row_without side strike other }
{
    match side {
        Side::Put => StrikeRow {
            strike,
            put: NO_PRICE,
            call: other,
        },
        Side::Call => StrikeRow {
            strike,
            put: other,
            call: NO_PRICE,
        },
    }
}
