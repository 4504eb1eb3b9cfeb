//! What the events of a feed so far say.

ghost use Rattle.std.specs.Prelude.{◌≡◌, ℕ, [], ◌∷◌, ◌++◌, List, IfOk, OnOk, OnErr, option_map};
ghost use Rattle.vx_feed.specs.declared.events.Event.{Event};
ghost use Rattle.vx_feed.specs.Order.{IsLawfulNext, tick_minute};
ghost use Rattle.vx_check.specs.StandsFor.{PlainStandsFor, PlainTakes, IsSameBook};
ghost use Rattle.vx_check.specs.Kept.{kept_rate, kept_rows};

use crate::opening::Opening;
use crate::table::Table;
use crate::tables;
use std::alloc::Global;
use vx_clock::{DayNo, Expiry};
use vx_feed::Event;
use vx_feed::limits::EXPIRIES_MAX;
use vx_num::NoMemory;
use vx_symbol::{StrikeRow, Symbol};

/// What the events of a feed so far say: one table of series, rates, rows and first trades for each
/// expiry, and the opening once it was taken. It stands for the list of events pushed, and keeps none
/// of them.
#[derive(Debug, Drop)]
pub struct PlainBook {
    lines: u64,
    day: Option<DayNo>,
    tick: Option<u16>,
    expiries: Vec<Expiry>,
    // One for each expiry, in the same order.
    tables: Vec<Table>,
    opening: Option<Opening>,
    alloc: Global,
}

impl PlainBook {
    /// The book of no event.
    pub fn new(alloc: Global) -> Result<PlainBook, NoMemory>
        ensures { IfOk result (λ book. PlainStandsFor book []) }
    {
        Ok(PlainBook {
            lines: 0,
            day: None,
            tick: None,
            expiries: Vec::with_capacity(alloc, EXPIRIES_MAX)?,
            tables: Vec::with_capacity(alloc, EXPIRIES_MAX)?,
            opening: None,
            alloc,
        })
    }

    /// Takes the next event. After a refusal the book stands for the events that it stood for before.
    pub fn push(&mut self, e: Event) -> Result<(), NoMemory>
        ensures taken { (events : List Event) → PlainStandsFor self.old events → IsLawfulNext events e
            → OnOk result (PlainStandsFor self.new (events ++ e ∷ [])) }
        ensures refused { (events : List Event) → PlainStandsFor self.old events
            → OnErr result (PlainStandsFor self.new events) }
    {
        self.take(e)?;
        self.tick = tick_minute(e);
        self.lines = self.lines.saturating_add(1);
        Ok(())
    }

    /// Takes what an event says of the trade date, the expiries, their series and the opening.
    fn take(&mut self, e: Event) -> Result<(), NoMemory>
        ensures taken { OnOk result (PlainTakes self.old e self.new) }
        ensures refused { OnErr result (IsSameBook self.old self.new) }
    {
        match e {
            Event::Header { day } => {
                self.day = Some(day);
                Ok(())
            }
            Event::Expiry(expiry) => self.declare(expiry),
            Event::Series(symbol) => tables::list(self.tables.as_mut_slice(), &symbol),
            Event::Rate { expiry, rate } => {
                tables::set_rate(self.tables.as_mut_slice(), expiry, rate);
                Ok(())
            }
            Event::Quote {
                symbol,
                bid,
                ask,
                ..
            } => {
                tables::quote(self.tables.as_mut_slice(), &symbol, bid, ask);
                Ok(())
            }
            Event::Trade { symbol, price, .. } => self.trade(&symbol, price),
            Event::Opening { time } => self.open(time),
            Event::Tick { .. } | Event::End { .. } => Ok(()),
        }
    }

    /// How many events were pushed, and so the number of the last one's line.
    pub fn lines(&self) -> u64
        ensures { result ≡ self.now.lines }
    {
        self.lines
    }

    /// The trade date, once there was a header.
    pub fn day(&self) -> Option<DayNo>
        ensures { result ≡ self.now.day }
    {
        self.day
    }

    /// The minute of the last event where that is a tick, else None.
    pub fn tick(&self) -> Option<u16>
        ensures { result ≡ self.now.tick }
    {
        self.tick
    }

    /// The declared expiries, in order of declaration.
    pub fn expiries(&self) -> &[Expiry]
        ensures { result.now ≡ self.now.expiries.items }
    {
        self.expiries.as_slice()
    }

    /// The standing rate of an expiry, in 10^-8 per year.
    pub fn rate(&self, e: Expiry) -> Option<i32>
        ensures { result ≡ kept_rate e self.now }
    {
        match tables::find_table(&self.tables, e) {
            Some(table) => table.rate,
            None => None,
        }
    }

    /// The listed strikes of an expiry with their prices, in rising order; none where none is listed.
    pub fn rows(&self, e: Expiry) -> &[StrikeRow]
        ensures { result.now ≡ kept_rows e self.now }
    {
        match tables::find_table(&self.tables, e) {
            Some(table) => table.rows(),
            None => &[],
        }
    }

    /// The opening, once it was taken.
    pub fn opening(&self) -> Option<&Opening>
        ensures { option_map (λ opening. opening.now) result ≡ self.now.opening }
    {
        self.opening.as_ref()
    }

    fn declare(&mut self, expiry: Expiry) -> Result<(), NoMemory>
        ensures taken { OnOk result (PlainTakes self.old (Event.Expiry expiry) self.new) }
        ensures refused { OnErr result (IsSameBook self.old self.new) }
    {
        self.tables.push(Table::new(self.alloc, expiry))?;
        if self.expiries.push(expiry).is_err() {
            let _ = self.tables.pop();
            return Err(NoMemory);
        }
        Ok(())
    }

    /// Keeps a trade before the opening, if it is the first of its series; a later one says nothing.
    fn trade(&mut self, symbol: &Symbol, cents: u32) -> Result<(), NoMemory>
        ensures taken { (time : ℕ) → OnOk result (PlainTakes self.old (Event.Trade time symbol.now cents) self.new) }
        ensures refused { OnErr result (IsSameBook self.old self.new) }
    {
        if self.opening.is_some() {
            return Ok(());
        }
        tables::trade(self.tables.as_mut_slice(), symbol, cents)
    }

    /// Takes the opening over what the book keeps.
    fn open(&mut self, time: u16) -> Result<(), NoMemory>
        ensures taken { OnOk result (PlainTakes self.old (Event.Opening time) self.new) }
        ensures refused { OnErr result (IsSameBook self.old self.new) }
    {
        let term = tables::opening_term(self.alloc, &self.tables, self.day)?;
        self.opening = Some(Opening {
            line: self.lines.saturating_add(1),
            time,
            expiries: self.expiries.len(),
            term,
        });
        Ok(())
    }
}

/// The minute of a tick.
fn tick_minute(e: Event) -> Option<u16>
    ensures { result ≡ tick_minute e }
{
    match e {
        Event::Tick { time } => Some(time),
        _ => None,
    }
}
