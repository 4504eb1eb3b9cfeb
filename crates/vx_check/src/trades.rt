//! The first trades of one expiry's series, in rising order of strike.

ghost use Rattle.std.specs.Prelude.{◌≡◌, ◌≤◌, length, OnOk, OnErr, Some};
ghost use Rattle.std.specs.Option.{option_or};
ghost use Rattle.vx_check.specs.Rising.{Rises, IsPlaceOfKey, IsPlaceFrom, IsPlaceWithin};
ghost use Rattle.vx_check.specs.Trades.{KeepsTrade, no_trades, price_at_opening, row_at_opening, trades_strike, traded_at, traded_on, with_trade};

use vx_num::NoMemory;
use vx_symbol::{Price, Side, StrikeRow};

/// The prices of a strike's first trades, one a side: there and live, at twice the cents of the trade.
#[derive(Clone, Copy, Debug)]
pub struct FirstTrades {
    strike: u32,
    put: Option<Price>,
    call: Option<Price>,
}

/// Keeps a trade of a series, unless one is kept. After a refusal nothing has changed.
pub fn keep_first(
    trades: &mut Vec<FirstTrades>,
    side: Side,
    strike: u32,
    price: Price,
) -> Result<(), NoMemory>
    ensures kept { OnOk result (KeepsTrade side strike price trades.old.items trades.new.items) }
    ensures refused { OnErr result (trades.new.items ≡ trades.old.items) }
{
    match place_of_trades(trades.as_slice(), strike) {
        Ok(place) => {
            trades[place] = with_trade(trades[place], side, price);
            Ok(())
        }
        Err(place) => {
            let first = with_trade(no_trades(strike), side, price);
            Ok(trades.insert(place, first)?)
        }
    }
}

/// A row at the opening: of each side the price of its first trade, or else the price that it has.
pub fn row_at_opening(trades: &[FirstTrades], row: &StrikeRow) -> StrikeRow
    ensures { Rises trades_strike trades.now → result ≡ row_at_opening trades.now row.now }
{
    StrikeRow {
        strike: row.strike,
        put: price_at_opening(traded_at(trades, Side::Put, row.strike), row.put),
        call: price_at_opening(traded_at(trades, Side::Call, row.strike), row.call),
    }
}

fn price_at_opening(traded: Option<Price>, quoted: Price) -> Price
    ensures { result ≡ price_at_opening traded quoted }
{
    match traded {
        Some(price) => price,
        None => quoted,
    }
}

/// The price of the first trade of a series, if it traded.
fn traded_at(trades: &[FirstTrades], side: Side, strike: u32) -> Option<Price>
    ensures { Rises trades_strike trades.now → result ≡ traded_at side strike trades.now }
{
    match place_of_trades(trades, strike) {
        Ok(place) => traded_on(trades[place], side),
        Err(_) => None,
    }
}

fn traded_on(trades: FirstTrades, side: Side) -> Option<Price>
    ensures { result ≡ traded_on side trades }
{
    match side {
        Side::Put => trades.put,
        Side::Call => trades.call,
    }
}

fn no_trades(strike: u32) -> FirstTrades
    ensures { result ≡ no_trades strike }
{
    FirstTrades {
        strike,
        put: None,
        call: None,
    }
}

/// A strike's trades with one more on a side, where it is the first.
fn with_trade(trades: FirstTrades, side: Side, price: Price) -> FirstTrades
    ensures { result ≡ with_trade side price trades }
{
    match side {
        Side::Put => FirstTrades {
            put: first_of(trades.put, price),
            ..trades
        },
        Side::Call => FirstTrades {
            call: first_of(trades.call, price),
            ..trades
        },
    }
}

fn first_of(earlier: Option<Price>, price: Price) -> Option<Price>
    ensures { result ≡ option_or earlier (Some price) }
{
    match earlier {
        Some(first) => Some(first),
        None => Some(price),
    }
}

/// The place of a strike that has trades, or where it would stand.
fn place_of_trades(trades: &[FirstTrades], strike: u32) -> Result<usize, usize>
    ensures within { IsPlaceWithin trades.now result }
    ensures place { IsPlaceOfKey trades_strike strike trades.now result }
{
    let place = first_trades_from(trades, strike);
    if place < trades.len() && trades[place].strike == strike {
        Ok(place)
    } else {
        Err(place)
    }
}

/// The place of the first trades at a strike or above it.
fn first_trades_from(trades: &[FirstTrades], strike: u32) -> usize
    ensures within { result ≤ length trades.now }
    ensures first { IsPlaceFrom trades_strike strike trades.now result }
{
    trades.partition_point(|trades| trades.strike < strike)
}
