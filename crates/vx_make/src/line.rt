//! The lines of a tick, each put together in a room of its own and then appended at once, since a sample feed is
//! made of little else and a piece of memory for each would cost more than its digits. They are appended where
//! room for them was taken before, so that none of them can want memory.

ghost use Rattle.std.specs.Prelude.{◌≡◌, ◌+◌, ◌≤◌, ◌∷◌, ◌++◌, drop, length, vec_capacity, vec_len};
ghost use Rattle.vx_clock.specs.Clock.{clock_text};
ghost use Rattle.vx_symbol.specs.SymbolText.{symbol_text};
ghost use Rattle.vx_feed.specs.declared.events.Event.TheVariants as event;
ghost use Rattle.vx_feed.specs.Written.{event_text, price_text};
ghost use Rattle.vx_symbol.specs.declared.symbols.Symbol.{Symbol};

use crate::quotes::Prices;
use vx_clock::write_clock;
use vx_room::{put, put_all, put_decimal, written};
use vx_symbol::limits::{PRICE_MAX, SYMBOL_LEN};

/// The longest line of a tick, a quote's: kind and minute, a symbol, two prices behind commas, and LF.
pub(crate) const LINE_ROOM: usize = 8 + SYMBOL_LEN + 2 * (1 + PRICE_ROOM) + 1;

/// The longest price: five digits of points, a dot and two digits.
const PRICE_ROOM: usize = 8;

// A price behind its comma.
fn put_price(bytes: &mut [u8; LINE_ROOM], end: usize, cents: u32) -> usize
    requires room { 1 + PRICE_ROOM ≤ end }
    requires within { end ≤ LINE_ROOM }
    requires most { cents ≤ PRICE_MAX }
    ensures least { end ≤ result + 1 + PRICE_ROOM }
    ensures within { result ≤ end }
    ensures written { drop result bytes.new ≡ 44 ∷ price_text cents ++ drop end bytes.old }
{
    let comma = put_decimal(bytes, end, u64::from(cents), 2);
    put(bytes, comma, b',')
}

// Kind and minute, with the comma behind them.
fn put_start(bytes: &mut [u8; LINE_ROOM], end: usize, time: u16) -> usize
    requires room { 8 ≤ end }
    requires within { end ≤ LINE_ROOM }
    ensures within { result ≤ end }
    ensures written { drop result bytes.new ≡ 81 ∷ 44 ∷ clock_text time ++ 44 ∷ drop end bytes.old }
{
    let minute = put(bytes, end, b',');
    let comma = put_all(bytes, minute, &write_clock(time));
    let kind = put(bytes, comma, b',');
    put(bytes, kind, b'Q')
}

// Appends a line for which there is room.
fn append(out: &mut Vec<u8>, line: &[u8])
    requires room { vec_len out.old + length line.now ≤ vec_capacity out.old }
    ensures written { out.new.items ≡ out.old.items ++ line.now }
    ensures len { vec_len out.new ≡ vec_len out.old + length line.now }
    ensures capacity { vec_capacity out.old ≤ vec_capacity out.new }
{
    out.extend_from_slice(line).unwrap();
}

/// Appends the line of a quote, for which there is room. The symbol is the text of its series.
pub(crate) fn put_quote(out: &mut Vec<u8>, time: u16, symbol: &[u8; SYMBOL_LEN], prices: Prices)
    requires bid { prices.bid ≤ PRICE_MAX }
    requires ask { prices.ask ≤ PRICE_MAX }
    requires room { vec_len out.old + LINE_ROOM ≤ vec_capacity out.old }
    ensures written { (series : Symbol) → symbol.now ≡ symbol_text series → out.new.items
        ≡ out.old.items ++ event_text (event.Quote time series prices.bid prices.ask) }
    ensures len { vec_len out.new ≤ vec_len out.old + LINE_ROOM }
    ensures capacity { vec_capacity out.old ≤ vec_capacity out.new }
{
    let mut bytes = [0; LINE_ROOM];
    let ask = put(&mut bytes, LINE_ROOM, b'\n');
    let bid = put_price(&mut bytes, ask, prices.ask);
    let named = put_price(&mut bytes, bid, prices.bid);
    let series = put_all(&mut bytes, named, symbol);
    let start = put_start(&mut bytes, series, time);
    append(out, written(&bytes, start));
}

/// Appends the line of a tick itself, for which there is room.
pub(crate) fn put_tick_line(out: &mut Vec<u8>, time: u16)
    requires room { vec_len out.old + LINE_ROOM ≤ vec_capacity out.old }
    ensures written { out.new.items ≡ out.old.items ++ event_text (event.Tick time) }
    ensures len { vec_len out.new ≤ vec_len out.old + LINE_ROOM }
    ensures capacity { vec_capacity out.old ≤ vec_capacity out.new }
{
    let mut bytes = [0; LINE_ROOM];
    let end = put(&mut bytes, LINE_ROOM, b'\n');
    let minute = put_all(&mut bytes, end, &write_clock(time));
    let comma = put(&mut bytes, minute, b',');
    let start = put(&mut bytes, comma, b'V');
    append(out, written(&bytes, start));
}
