//! The quotes of one series, and of the call and the put at one strike.

ghost use Rattle.std.specs.Prelude.{◌≡◌, ℕ, ◌+◌, ◌<◌, ◌≤◌};
ghost use Rattle.vx_clock.specs.Day.{IsDayInRange};
ghost use Rattle.vx_symbol.specs.Symbol.{IsSymbolInRange};
ghost use Rattle.vx_feed.specs.declared.events.Event.TheVariants as event;
ghost use Rattle.vx_make.specs.declared.limits.TheConstants.{STRIKES};
ghost use Rattle.vx_make.specs.Drawing.{next_state};
ghost use Rattle.vx_make.specs.Quotes as spec;

use crate::drawing::draw;
use crate::limits::{
    BID_DRAW_MIDDLE, BID_DRAWS, CENTRE_MAX, CENTRE_MIN, CENTRES, SPREAD_MIN, SPREADS, STATES,
    STRIKE_FIRST, STRIKE_LAST, STRIKE_STEP, TIME_VALUE_LOSS, TIME_VALUE_MAX,
};
use vx_clock::Expiry;
use vx_symbol::limits::PRICE_MAX;
use vx_symbol::{Side, Symbol};

/// What is bid and asked for a series, in cents.
#[derive(Clone, Copy, Drop)]
pub(crate) struct Prices {
    pub(crate) bid: u32,
    pub(crate) ask: u32,
}

/// A series of an expiry by the place of its strike, from 0.
pub(crate) fn series_at(expiry: Expiry, side: Side, place: u32) -> Symbol
    requires place { place < STRIKES }
    requires day { IsDayInRange expiry.date }
    ensures value { result ≡ spec.sample_series_at expiry side place }
    ensures strike { result.strike ≤ STRIKE_LAST }
    ensures in_range { IsSymbolInRange result }
{
    Symbol {
        root: expiry.root,
        date: expiry.date,
        side,
        strike: STRIKE_FIRST + STRIKE_STEP * place,
    }
}

fn intrinsic_value(centre: u32, series: Symbol) -> u32
    requires centre { centre ≤ CENTRE_MAX }
    requires strike { series.strike ≤ STRIKE_LAST }
    ensures value { result ≡ spec.intrinsic_value centre series }
    ensures most { result ≤ STRIKE_LAST }
{
    let strike = series.strike / 10;
    match series.side {
        Side::Call => centre.saturating_sub(strike),
        Side::Put => strike.saturating_sub(centre),
    }
}

fn time_value(centre: u32, series: Symbol) -> u32
    ensures value { result ≡ spec.time_value centre series }
    ensures most { result ≤ TIME_VALUE_MAX }
{
    let strike = series.strike / 10;
    TIME_VALUE_MAX.saturating_sub(strike.abs_diff(centre) / TIME_VALUE_LOSS)
}

/// The centre of a tick's prices, in cents.
pub(crate) fn draw_centre(state: &mut u32) -> u32
    requires { state.old < STATES }
    ensures step { state.new ≡ next_state state.old }
    ensures states { state.new < STATES }
    ensures value { result ≡ spec.drawn_centre state.new }
    ensures most { result ≤ CENTRE_MAX }
{
    CENTRE_MIN + draw(state, CENTRES)
}

#[tactic(auto, unfolding(crate::specs::Quotes::drawn_bid))]
fn draw_bid(centre: u32, series: Symbol, state: &mut u32) -> u32
    requires centre { centre ≤ CENTRE_MAX }
    requires strike { series.strike ≤ STRIKE_LAST }
    requires states { state.old < STATES }
    ensures step { state.new ≡ next_state state.old }
    ensures states { state.new < STATES }
    ensures value { result ≡ spec.drawn_bid centre series state.new }
    ensures most { result ≤ STRIKE_LAST + TIME_VALUE_MAX + BID_DRAWS }
{
    let drawn = draw(state, BID_DRAWS);
    let time_value = time_value(centre, series);
    intrinsic_value(centre, series) + (time_value + drawn).saturating_sub(BID_DRAW_MIDDLE)
}

#[tactic(auto, unfolding(crate::specs::Quotes::drawn_ask))]
fn draw_ask(bid: u32, state: &mut u32) -> u32
    requires bid { bid ≤ STRIKE_LAST + TIME_VALUE_MAX + BID_DRAWS }
    requires states { state.old < STATES }
    ensures step { state.new ≡ next_state state.old }
    ensures states { state.new < STATES }
    ensures value { result ≡ spec.drawn_ask bid state.new }
    ensures most { result ≤ bid + SPREAD_MIN + SPREADS }
{
    bid + SPREAD_MIN + draw(state, SPREADS)
}

#[tactic(auto, unfolding(crate::specs::Quotes::drawn_quote))]
/// The prices of a series about a centre.
pub(crate) fn draw_prices(centre: u32, series: Symbol, state: &mut u32) -> Prices
    requires centre { centre ≤ CENTRE_MAX }
    requires strike { series.strike ≤ STRIKE_LAST }
    requires states { state.old < STATES }
    ensures step { state.new ≡ next_state (next_state state.old) }
    ensures states { state.new < STATES }
    ensures value { (time : ℕ) → event.Quote time series result.bid result.ask
        ≡ spec.drawn_quote time centre series state.old }
    ensures bid { result.bid ≤ PRICE_MAX }
    ensures ask { result.ask ≤ PRICE_MAX }
{
    let bid = draw_bid(centre, series, state);
    let ask = draw_ask(bid, state);
    Prices { bid, ask }
}
