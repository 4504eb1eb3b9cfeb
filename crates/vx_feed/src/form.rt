//! What a line says by itself.

ghost use Rattle.std.specs.Prelude.{◌≡◌, ◌≤◌, Some, length, true, IfOk, IfSome};
ghost use Rattle.vx_clock.specs.Day.{IsDayInRange};
ghost use Rattle.vx_symbol.specs.Rows.{IsRateInRange};
ghost use Rattle.vx_feed.specs.Form as spec;
ghost use Rattle.vx_feed.specs.declared.kinds.Kind.TheVariants as kind;
ghost use Rattle.vx_feed.specs.Ranges.{IsEventInRange, IsPrice};

use crate::events::Event;
use crate::faults::FeedFault;
use crate::kinds::{Kind, kind_of};
use crate::known::KnownSymbols;
use crate::limits::LINES_MAX;
use vx_clock::limits::{RATE_MAX, RATE_MIN};
use vx_clock::{DayNo, Expiry, Root, read_clock, read_day};
use vx_fields::Fields;
use vx_num::{read_decimal, read_signed};
use vx_symbol::limits::PRICE_MAX;

/// The places of a rate in percent per year: one unit is 10^-6 percent.
pub(crate) const RATE_PLACES: u32 = 6;

/// The places of a price in points: one unit is a cent.
pub(crate) const PRICE_PLACES: u32 = 2;

fn read_date(text: &[u8]) -> Option<DayNo>
    ensures value { result ≡ spec.date_of_text text.now }
    ensures in_range { IfSome result IsDayInRange }
{
    read_day(text).ok()
}

// A rate in percent per year, in 10^-8 per year.
fn read_rate(text: &[u8]) -> Option<i32>
    ensures value { result ≡ spec.rate_of_text text.now }
    ensures in_range { IfSome result IsRateInRange }
{
    let units = read_signed(
        text,
        RATE_PLACES,
        RATE_MIN.unsigned_abs(),
        RATE_MAX.unsigned_abs(),
    )?;
    Some(units as i32)
}

// A price in points, in cents.
fn read_price(text: &[u8]) -> Option<u32>
    ensures value { result ≡ spec.price_of_text text.now }
    ensures in_range { IfSome result IsPrice }
{
    let cents = read_decimal(text, PRICE_PLACES, u64::from(PRICE_MAX)).ok()?;
    Some(cents as u32)
}

// The price of a trade, which is a cent at least.
fn read_trade_price(text: &[u8]) -> Option<u32>
    ensures value { result ≡ spec.if_positive (spec.price_of_text text.now) }
    ensures in_range { IfSome result (λ price. (1 ≤ price) × IsPrice price) }
{
    match read_price(text) {
        Some(0) => None,
        price => price,
    }
}

// A count of lines.
fn read_count(text: &[u8]) -> Option<u32>
    ensures value { result ≡ spec.count_of_text text.now }
    ensures in_range { IfSome result (λ count. count ≤ LINES_MAX) }
{
    let count = read_decimal(text, 0, u64::from(LINES_MAX)).ok()?;
    Some(count as u32)
}

// One function for each kind of line: its event, or the first field, from 1, that says nothing.

fn read_header(fields: &Fields<'_>) -> Result<Event, FeedFault>
    requires { length fields.now ≡ 3 }
    ensures value { result ≡ spec.event_of_kind kind.Header fields.now }
    ensures in_range { IfOk result IsEventInRange }
{
    if fields.field(1) != b"1".as_slice() {
        return Err(FeedFault::Field(2));
    }
    let day = read_date(fields.field(2)).ok_or(FeedFault::Field(3))?;
    Ok(Event::Header { day })
}

fn read_expiry(fields: &Fields<'_>) -> Result<Event, FeedFault>
    requires { length fields.now ≡ 3 }
    ensures value { result ≡ spec.event_of_kind kind.Expiry fields.now }
    ensures in_range { IfOk result IsEventInRange }
{
    let root = Root::named(fields.field(1)).ok_or(FeedFault::Field(2))?;
    let date = read_date(fields.field(2)).ok_or(FeedFault::Field(3))?;
    Ok(Event::Expiry(Expiry { root, date }))
}

fn read_rate_line(fields: &Fields<'_>) -> Result<Event, FeedFault>
    requires { length fields.now ≡ 4 }
    ensures value { result ≡ spec.event_of_kind kind.Rate fields.now }
    ensures in_range { IfOk result IsEventInRange }
{
    let root = Root::named(fields.field(1)).ok_or(FeedFault::Field(2))?;
    let date = read_date(fields.field(2)).ok_or(FeedFault::Field(3))?;
    let rate = read_rate(fields.field(3)).ok_or(FeedFault::Field(4))?;
    let expiry = Expiry { root, date };
    Ok(Event::Rate { expiry, rate })
}

fn read_series_line(fields: &Fields<'_>, known: &mut KnownSymbols) -> Result<Event, FeedFault>
    requires { length fields.now ≡ 2 }
    ensures value { result ≡ spec.event_of_kind kind.Series fields.now }
    ensures in_range { IfOk result IsEventInRange }
{
    let symbol = known.read(fields.field(1)).ok_or(FeedFault::Field(2))?;
    Ok(Event::Series(symbol))
}

fn read_quote(fields: &Fields<'_>, known: &mut KnownSymbols) -> Result<Event, FeedFault>
    requires { length fields.now ≡ 5 }
    ensures value { result ≡ spec.event_of_kind kind.Quote fields.now }
    ensures in_range { IfOk result IsEventInRange }
{
    let time = read_clock(fields.field(1)).ok_or(FeedFault::Field(2))?;
    let symbol = known.read(fields.field(2)).ok_or(FeedFault::Field(3))?;
    let bid = read_price(fields.field(3)).ok_or(FeedFault::Field(4))?;
    let ask = read_price(fields.field(4)).ok_or(FeedFault::Field(5))?;
    Ok(Event::Quote {
        time,
        symbol,
        bid,
        ask,
    })
}

fn read_trade(fields: &Fields<'_>, known: &mut KnownSymbols) -> Result<Event, FeedFault>
    requires { length fields.now ≡ 4 }
    ensures value { result ≡ spec.event_of_kind kind.Trade fields.now }
    ensures in_range { IfOk result IsEventInRange }
{
    let time = read_clock(fields.field(1)).ok_or(FeedFault::Field(2))?;
    let symbol = known.read(fields.field(2)).ok_or(FeedFault::Field(3))?;
    let price = read_trade_price(fields.field(3)).ok_or(FeedFault::Field(4))?;
    Ok(Event::Trade {
        time,
        symbol,
        price,
    })
}

fn read_tick(fields: &Fields<'_>, known: &mut KnownSymbols) -> Result<Event, FeedFault>
    requires { length fields.now ≡ 2 }
    ensures value { result ≡ spec.event_of_kind kind.Tick fields.now }
    ensures in_range { IfOk result IsEventInRange }
{
    known.restart();
    let time = read_clock(fields.field(1)).ok_or(FeedFault::Field(2))?;
    Ok(Event::Tick { time })
}

fn read_opening(fields: &Fields<'_>) -> Result<Event, FeedFault>
    requires { length fields.now ≡ 2 }
    ensures value { result ≡ spec.event_of_kind kind.Opening fields.now }
    ensures in_range { IfOk result IsEventInRange }
{
    let time = read_clock(fields.field(1)).ok_or(FeedFault::Field(2))?;
    Ok(Event::Opening { time })
}

fn read_end(fields: &Fields<'_>) -> Result<Event, FeedFault>
    requires { length fields.now ≡ 2 }
    ensures value { result ≡ spec.event_of_kind kind.End fields.now }
    ensures in_range { IfOk result IsEventInRange }
{
    let count = read_count(fields.field(1)).ok_or(FeedFault::Field(2))?;
    Ok(Event::End { count })
}

// Whether a first field names a quote, as nearly every line's does.
fn is_quote(text: &[u8]) -> bool
    ensures { result ≡ true → spec.kind_of_text text.now ≡ Some kind.Quote }
{
    text == b"Q".as_slice()
}

/// The event that a line's fields say, or the first fault of their form.
#[inline(never)]
pub(crate) fn read_form(fields: &Fields<'_>, known: &mut KnownSymbols) -> Result<Event, FeedFault>
    ensures value { result ≡ spec.event_of_fields fields.now }
    ensures in_range { IfOk result IsEventInRange }
{
    if fields.is_empty() {
        return Err(FeedFault::Kind);
    }
    if fields.len() == Kind::Quote.field_count() && is_quote(fields.field(0)) {
        return read_quote(fields, known);
    }
    let kind = kind_of(fields.field(0)).ok_or(FeedFault::Kind)?;
    if fields.len() != kind.field_count() {
        return Err(FeedFault::Fields);
    }
    match kind {
        Kind::Header => read_header(fields),
        Kind::Expiry => read_expiry(fields),
        Kind::Rate => read_rate_line(fields),
        Kind::Series => read_series_line(fields, known),
        Kind::Quote => read_quote(fields, known),
        Kind::Trade => read_trade(fields, known),
        Kind::Tick => read_tick(fields, known),
        Kind::Opening => read_opening(fields),
        Kind::End => read_end(fields),
    }
}
