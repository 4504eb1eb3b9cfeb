//! Writing the lines of a feed.

ghost use Rattle.std.specs.Prelude.{◌≡◌, ◌≤◌, List, ◌∷◌, ◌++◌, flat_map, Ok, OnErr, OnOk};
ghost use Rattle.vx_num.specs.Written.{decimal_text};
ghost use Rattle.vx_clock.specs.Clock.{clock_text};
ghost use Rattle.vx_clock.specs.Day.{IsDayInRange};
ghost use Rattle.vx_clock.specs.DayText.{day_text};
ghost use Rattle.vx_symbol.specs.Symbol.{IsSymbolInRange};
ghost use Rattle.vx_symbol.specs.SymbolText.{symbol_text};
ghost use Rattle.vx_fields.specs.Lines.{comma};
ghost use Rattle.vx_feed.specs.declared.events.Event.{Event};
ghost use Rattle.vx_feed.specs.Feed.{event_of_line};
ghost use Rattle.vx_feed.specs.Form.{kind_text};
ghost use Rattle.vx_feed.specs.Order.{IsLawfulNext};
ghost use Rattle.vx_feed.specs.Ranges.{IsEventInRange};
ghost use Rattle.vx_feed.specs.Written.{behind_commas, event_line, event_text, expiry_fields, kind_of_event, price_text, rate_text, value_fields};

use crate::events::Event;
use crate::form::{PRICE_PLACES, RATE_PLACES};
use std::alloc::Global;
use vx_clock::{DayNo, Expiry, Root, write_clock, write_day};
use vx_num::{NoMemory, write_decimal, write_signed};
use vx_symbol::{Symbol, write_symbol};

#[tactic(auto, using(crate::proofs::ReadBack::line_back), unfolding(crate::specs::Written::event_line))]
/// Appends the line of an event with its LF, as [`crate::read_event`] reads it.
///
/// # Errors
///
/// `NoMemory`, and then `out` is unchanged.
pub fn write_event(alloc: Global, e: &Event, out: &mut Vec<u8>) -> Result<(), NoMemory>
    requires { IsEventInRange e.now }
    ensures written { OnOk result (out.new.items ≡ out.old.items ++ event_text e.now) }
    ensures refused { OnErr result (out.new.items ≡ out.old.items) }
    // wherever the event may come next, its line is read as the event
    ensures read_back { (before : List Event) → IsLawfulNext before e.now
        → event_of_line before (event_line e.now) ≡ Ok e.now }
{
    let mut line = Vec::new(alloc);
    put(&mut line, kind_name(e))?;
    put_values(alloc, &mut line, e)?;
    put(&mut line, b"\n")?;
    // The whole line at once, so that a refusal leaves no part of it.
    out.extend_from_slice(&line)?;
    Ok(())
}

fn put(line: &mut Vec<u8>, text: &[u8]) -> Result<(), NoMemory>
    ensures { OnOk result (line.new.items ≡ line.old.items ++ text.now) }
{
    line.extend_from_slice(text)?;
    Ok(())
}

// A field behind the comma before it.
fn put_field(line: &mut Vec<u8>, text: &[u8]) -> Result<(), NoMemory>
    ensures { OnOk result (line.new.items ≡ line.old.items ++ comma ∷ text.now) }
{
    put(line, b",")?;
    put(line, text)
}

// A number of units of which `10^places` make one.
fn put_number(alloc: Global, line: &mut Vec<u8>, value: u32, places: u32) -> Result<(), NoMemory>
    requires { places ≤ 12 }
    ensures { OnOk result (line.new.items ≡ line.old.items ++ comma ∷ decimal_text value places) }
{
    put(line, b",")?;
    write_decimal(alloc, line, u128::from(value), places)
}

fn put_price(alloc: Global, line: &mut Vec<u8>, cents: u32) -> Result<(), NoMemory>
    ensures { OnOk result (line.new.items ≡ line.old.items ++ comma ∷ price_text cents) }
{
    put_number(alloc, line, cents, PRICE_PLACES)
}

fn put_rate(alloc: Global, line: &mut Vec<u8>, rate: i32) -> Result<(), NoMemory>
    ensures { OnOk result (line.new.items ≡ line.old.items ++ comma ∷ rate_text rate) }
{
    put(line, b",")?;
    write_signed(alloc, line, i128::from(rate), RATE_PLACES)
}

fn put_expiry(line: &mut Vec<u8>, expiry: Expiry) -> Result<(), NoMemory>
    requires { IsDayInRange expiry.date }
    ensures { OnOk result (line.new.items ≡ line.old.items ++ behind_commas (expiry_fields expiry)) }
{
    put_field(line, expiry.root.name().as_bytes())?;
    put_day(line, expiry.date)
}

fn put_day(line: &mut Vec<u8>, day: DayNo) -> Result<(), NoMemory>
    requires { IsDayInRange day }
    ensures { OnOk result (line.new.items ≡ line.old.items ++ comma ∷ day_text day) }
{
    put_field(line, &write_day(day))
}

fn put_time(line: &mut Vec<u8>, time: u16) -> Result<(), NoMemory>
    ensures { OnOk result (line.new.items ≡ line.old.items ++ comma ∷ clock_text time) }
{
    put_field(line, &write_clock(time))
}

fn put_symbol(line: &mut Vec<u8>, symbol: &Symbol) -> Result<(), NoMemory>
    requires { IsSymbolInRange symbol.now }
    ensures { OnOk result (line.new.items ≡ line.old.items ++ comma ∷ symbol_text symbol.now) }
{
    put_field(line, &write_symbol(symbol))
}

fn kind_name(e: &Event) -> &'static [u8]
    ensures { result.now ≡ kind_text (kind_of_event e.now) }
{
    match e {
        Event::Header { .. } => b"H",
        Event::Expiry(_) => b"E",
        Event::Rate { .. } => b"R",
        Event::Series(_) => b"S",
        Event::Quote { .. } => b"Q",
        Event::Trade { .. } => b"T",
        Event::Tick { .. } => b"V",
        Event::Opening { .. } => b"Z",
        Event::End { .. } => b"END",
    }
}

// The fields behind the kind.
fn put_values(alloc: Global, line: &mut Vec<u8>, e: &Event) -> Result<(), NoMemory>
    requires { IsEventInRange e.now }
    ensures { OnOk result (line.new.items ≡ line.old.items ++ behind_commas (value_fields e.now)) }
{
    match e {
        Event::Header { day } => {
            put_field(line, b"1")?;
            put_day(line, *day)
        }
        Event::Expiry(expiry) => put_expiry(line, *expiry),
        Event::Rate { expiry, rate } => {
            put_expiry(line, *expiry)?;
            put_rate(alloc, line, *rate)
        }
        Event::Series(symbol) => put_symbol(line, symbol),
        Event::Quote {
            time,
            symbol,
            bid,
            ask,
        } => {
            put_time(line, *time)?;
            put_symbol(line, symbol)?;
            put_price(alloc, line, *bid)?;
            put_price(alloc, line, *ask)
        }
        Event::Trade {
            time,
            symbol,
            price,
        } => {
            put_time(line, *time)?;
            put_symbol(line, symbol)?;
            put_price(alloc, line, *price)
        }
        Event::Tick { time } | Event::Opening { time } => put_time(line, *time),
        Event::End { count } => put_number(alloc, line, *count, 0),
    }
}
