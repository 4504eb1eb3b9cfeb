//! The lines of a sample feed.

ghost use Rattle.std.specs.Prelude.{◌≡◌, ◌+◌, ◌*◌, ◌<◌, ◌≤◌, ◌++◌, ◌∷◌, OnOk, IfOk, vec_capacity, vec_len};
ghost use Rattle.vx_clock.specs.Day.{IsDayInRange};
ghost use Rattle.vx_feed.specs.Ranges.{IsMinute};
ghost use Rattle.vx_feed.specs.declared.events.Event.TheVariants as event;
ghost use Rattle.vx_feed.specs.Written.{event_text, text_of_events};
ghost use Rattle.vx_make.specs.Drawing.{state_after};
ghost use Rattle.vx_make.specs.Feed as spec;
ghost use Rattle.vx_make.specs.Quotes.{expiry_quotes, strike_quotes};

use crate::limits::{
    CENTRE_MAX, FIRST_MINUTE, STANDARD_DAY, STANDARD_RATE, STATES, STRIKES, TERM_LINES, TICK_LINES,
    TICKS_MAX, TRADE_DAY, WEEKLY_DAY, WEEKLY_RATE,
};
use crate::line::{LINE_ROOM, put_quote, put_tick_line};
use crate::quotes::{draw_centre, draw_prices, series_at};
use std::alloc::Global;
use vx_clock::{DayNo, Expiry, Root};
use vx_feed::{Event, write_event};
use vx_num::NoMemory;
use vx_symbol::{Side, write_symbol};

/// The place of the side in a symbol.
const SIDE_PLACE: usize = 12;

/// The room that the lines of a tick take at most, since none is longer than that of a quote.
pub(crate) const TICK_ROOM: usize = LINE_ROOM * TICK_LINES as usize;

fn standard_term() -> Expiry
    ensures term { result ≡ spec.standard_term }
    ensures in_range { IsDayInRange result.date }
{
    Expiry {
        root: Root::Spx,
        date: DayNo(STANDARD_DAY),
    }
}

fn weekly_term() -> Expiry
    ensures term { result ≡ spec.weekly_term }
    ensures in_range { IsDayInRange result.date }
{
    Expiry {
        root: Root::Spxw,
        date: DayNo(WEEKLY_DAY),
    }
}

// The header, and the terms with their rates.
fn put_terms(alloc: Global, out: &mut Vec<u8>) -> Result<(), NoMemory>
    ensures { OnOk result (out.new.items ≡ out.old.items ++ text_of_events (spec.header ∷ spec.declared_terms)) }
{
    let day = DayNo(TRADE_DAY);
    write_event(alloc, &Event::Header { day }, out)?;
    write_event(alloc, &Event::Expiry(standard_term()), out)?;
    write_event(alloc, &Event::Expiry(weekly_term()), out)?;
    let standard_rate = Event::Rate {
        expiry: standard_term(),
        rate: STANDARD_RATE,
    };
    write_event(alloc, &standard_rate, out)?;
    let weekly_rate = Event::Rate {
        expiry: weekly_term(),
        rate: WEEKLY_RATE,
    };
    write_event(alloc, &weekly_rate, out)
}

// The call and the put at a strike are listed.
fn put_strike_series(
    alloc: Global,
    out: &mut Vec<u8>,
    expiry: Expiry,
    place: u32,
) -> Result<(), NoMemory>
    requires place { place < STRIKES }
    requires day { IsDayInRange expiry.date }
    ensures { OnOk result (out.new.items ≡ out.old.items ++ text_of_events (spec.strike_series expiry place)) }
{
    let call = Event::Series(series_at(expiry, Side::Call, place));
    write_event(alloc, &call, out)?;
    let put = Event::Series(series_at(expiry, Side::Put, place));
    write_event(alloc, &put, out)
}

// All series of a term are listed.
fn put_series(alloc: Global, out: &mut Vec<u8>, expiry: Expiry) -> Result<(), NoMemory>
    requires { IsDayInRange expiry.date }
    ensures { OnOk result (out.new.items ≡ out.old.items ++ text_of_events (spec.listed_series expiry)) }
{
    for place in 0..STRIKES {
        put_strike_series(alloc, out, expiry, place)?;
    }
    Ok(())
}

// All that stands before the first tick.
pub(crate) fn put_head(alloc: Global, out: &mut Vec<u8>) -> Result<(), NoMemory>
    ensures { OnOk result (out.new.items ≡ out.old.items ++ text_of_events spec.head_events) }
{
    put_terms(alloc, out)?;
    put_series(alloc, out, standard_term())?;
    put_series(alloc, out, weekly_term())
}

// The quotes of the call and the put at a strike, for which there is room.
#[tactic(auto, unfolding(crate::specs::Drawing::state_after))]
fn put_strike_quotes(
    out: &mut Vec<u8>,
    time: u16,
    centre: u32,
    expiry: Expiry,
    place: u32,
    state: &mut u32,
)
    requires centre { centre ≤ CENTRE_MAX }
    requires place { place < STRIKES }
    requires day { IsDayInRange expiry.date }
    requires states { state.old < STATES }
    requires room { vec_len out.old + 2 * LINE_ROOM ≤ vec_capacity out.old }
    ensures written { out.new.items
        ≡ out.old.items ++ text_of_events (strike_quotes time centre expiry place state.old) }
    ensures len { vec_len out.new ≤ vec_len out.old + 2 * LINE_ROOM }
    ensures capacity { vec_capacity out.old ≤ vec_capacity out.new }
    ensures steps { state.new ≡ state_after 4 state.old }
    ensures states { state.new < STATES }
{
    let call = series_at(expiry, Side::Call, place);
    let call_prices = draw_prices(centre, call, state);
    let put = series_at(expiry, Side::Put, place);
    let put_prices = draw_prices(centre, put, state);
    // The put's symbol is the call's but for the side.
    let mut symbol = write_symbol(&call);
    put_quote(out, time, &symbol, call_prices);
    symbol[SIDE_PLACE] = b'P';
    put_quote(out, time, &symbol, put_prices);
}

// The quotes of all series of a term, for which there is room.
fn put_expiry_quotes(out: &mut Vec<u8>, time: u16, centre: u32, expiry: Expiry, state: &mut u32)
    requires centre { centre ≤ CENTRE_MAX }
    requires day { IsDayInRange expiry.date }
    requires states { state.old < STATES }
    requires room { vec_len out.old + 2 * LINE_ROOM * STRIKES ≤ vec_capacity out.old }
    ensures written { out.new.items
        ≡ out.old.items ++ text_of_events (expiry_quotes time centre expiry state.old) }
    ensures len { vec_len out.new ≤ vec_len out.old + 2 * LINE_ROOM * STRIKES }
    ensures capacity { vec_capacity out.old ≤ vec_capacity out.new }
    ensures steps { state.new ≡ state_after (4 * STRIKES) state.old }
    ensures states { state.new < STATES }
{
    for place in 0..STRIKES {
        put_strike_quotes(out, time, centre, expiry, place, state);
    }
}

// The quotes of a tick, and the tick, for which there is room.
pub(crate) fn put_tick(out: &mut Vec<u8>, time: u16, state: &mut u32)
    requires time { IsMinute time }
    requires states { state.old < STATES }
    requires room { vec_len out.old + TICK_ROOM ≤ vec_capacity out.old }
    ensures written { out.new.items ≡ out.old.items ++ text_of_events (spec.tick_events time state.old) }
    ensures len { vec_len out.new ≤ vec_len out.old + TICK_ROOM }
    ensures capacity { vec_capacity out.old ≤ vec_capacity out.new }
    ensures steps { state.new ≡ state_after spec.tick_draws state.old }
    ensures states { state.new < STATES }
{
    let centre = draw_centre(state);
    put_expiry_quotes(out, time, centre, standard_term(), state);
    put_expiry_quotes(out, time, centre, weekly_term(), state);
    put_tick_line(out, time);
}

// All ticks with their quotes, for which there is room.
fn put_ticks(out: &mut Vec<u8>, number: u32, ticks: u32)
    requires states { number < STATES }
    requires most { ticks ≤ TICKS_MAX }
    requires room { vec_len out.old + TICK_ROOM * ticks ≤ vec_capacity out.old }
    ensures { out.new.items ≡ out.old.items ++ text_of_events (spec.ticks_events number ticks) }
{
    let mut state = number;
    for tick in 0..ticks {
        put_tick(out, FIRST_MINUTE + tick as u16, &mut state);
    }
}

// The last line.
pub(crate) fn put_end(alloc: Global, out: &mut Vec<u8>, ticks: u32) -> Result<(), NoMemory>
    requires { ticks ≤ TICKS_MAX }
    ensures { OnOk result (out.new.items
        ≡ out.old.items ++ event_text (event.End (TERM_LINES + TICK_LINES * ticks))) }
{
    let count = TERM_LINES + TICK_LINES * ticks;
    write_event(alloc, &Event::End { count }, out)
}

/// The sample feed of a number below 2^31, with so many ticks, 1 to 390.
///
/// The same number and ticks always give the same feed. It has `806 + 801 * ticks` lines.
///
/// # Errors
///
/// `NoMemory`.
pub fn make_feed(alloc: Global, number: u32, ticks: u32) -> Result<Vec<u8>, NoMemory>
    requires states { number < STATES }
    requires some { 1 ≤ ticks }
    requires most { ticks ≤ TICKS_MAX }
    ensures { IfOk result (λ feed. feed.items ≡ spec.make_text number ticks) }
{
    let mut out = Vec::new(alloc);
    put_head(alloc, &mut out)?;
    // The room of all ticks is taken at once, since no line of theirs is longer than that of a quote.
    out.reserve(TICK_ROOM * ticks as usize)?;
    put_ticks(&mut out, number, ticks);
    put_end(alloc, &mut out, ticks)?;
    Ok(out)
}
