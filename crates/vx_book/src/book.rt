//! The book of a day's events.

ghost use Rattle.std.specs.Prelude.{◌≡◌, ◌<◌, List, [], ◌∷◌, ◌++◌, length, Some, None, IsSome, IfOk, OnOk, OnErr, slice_get};
ghost use Rattle.std.specs.List.{position};
ghost use Rattle.vx_symbol.specs.Rows.{IsLawfulPrice, IsLawfulTerm};
ghost use Rattle.vx_feed.specs.declared.events.Event.{Event};
ghost use Rattle.vx_feed.specs.Ranges.{IsPrice};
ghost use Rattle.vx_feed.specs.Same.{is_same_expiry};
ghost use Rattle.vx_feed.specs.Listed.{declared_expiries, other_side, trade_date};
ghost use Rattle.vx_book.specs.Opening.{opened_at};
ghost use Rattle.vx_book.specs.Series.{kept};
ghost use Rattle.vx_book.specs.StandsFor.{Applies, IsStandingTerm, IsTermAtOpening, MayApply, BookStandsFor, BookStandsForSome, StandsNext, StandsStill, TakesOpeningOf, TakesQuote, TakesTrade};

use crate::opening::{Opened, OpeningTerm};
use crate::series::{Place, Series};
use crate::table::{NO_PRICE, Table};
use crate::{series, table};
use indexmap::IndexMap;
use std::alloc::Global;
use vx_clock::{DayNo, Expiry};
use vx_feed::Event;
use vx_feed::limits::EXPIRIES_MAX;
use vx_num::NoMemory;
use vx_symbol::{Price, Symbol, TermView};

/// What the events of a feed so far say: the trade date, the expiries with their rates and listed
/// rows, and the opening. It stands for the list of events applied, and keeps none of them. Its memory
/// grows with the series alone.
#[derive(Drop)]
pub struct Book {
    lines: u64,
    day: Option<DayNo>,
    opened: Option<Opened>,
    expiries: Vec<Expiry>,
    // One for each expiry, in the same order.
    tables: Vec<Table>,
    // One for each expiry that was declared before the opening, in the same order.
    opening: Vec<OpeningTerm>,
    series: IndexMap<Symbol, Series>,
    // The place, in order of listing, of the series that was quoted last: the next quote is mostly of the
    // one behind it. It says nothing of the events.
    last: usize,
    alloc: Global,
}

impl Book {
    /// The book of no event.
    pub fn new(alloc: Global) -> Result<Book, NoMemory>
        ensures { IfOk result (λ book. BookStandsFor book []) }
    {
        Ok(Book {
            lines: 0,
            day: None,
            opened: None,
            expiries: Vec::with_capacity(alloc, EXPIRIES_MAX)?,
            tables: Vec::with_capacity(alloc, EXPIRIES_MAX)?,
            opening: Vec::new(alloc),
            series: IndexMap::new(alloc),
            last: 0,
            alloc,
        })
    }

    /// Takes up an event that is lawful next. The book then stands for the events with this one at
    /// their end; after a refusal it stands for those that it stood for before, and can go on.
    pub fn apply(&mut self, e: &Event) -> Result<(), NoMemory>
        requires { MayApply self.old e.now }
        ensures applied { OnOk result (Applies self.old e.now self.new) }
        ensures refused { OnErr result (StandsStill self.old self.new) }
    {
        self.take(e)?;
        self.lines += 1;
        Ok(())
    }

    // Takes up what an event says, and does not count its line.
    fn take(&mut self, e: &Event) -> Result<(), NoMemory>
        requires { MayApply self.old e.now }
        ensures taken { OnOk result (StandsNext self.old e.now self.new) }
        ensures refused { OnErr result (StandsStill self.old self.new) }
    {
        match e {
            Event::Header { day } => {
                self.day = Some(*day);
                Ok(())
            }
            Event::Expiry(expiry) => self.declare(*expiry),
            Event::Rate { expiry, rate } => {
                self.set_rate(*expiry, *rate);
                Ok(())
            }
            Event::Series(symbol) => self.list(symbol),
            Event::Quote {
                symbol,
                bid,
                ask,
                ..
            } => self.quote(symbol, table::quoted(*bid, *ask)),
            Event::Trade { symbol, price, .. } => self.trade(symbol, *price),
            Event::Opening { time } => self.open(*time),
            Event::Tick { .. } | Event::End { .. } => Ok(()),
        }
    }

    fn declare(&mut self, expiry: Expiry) -> Result<(), NoMemory>
        requires { MayApply self.old (Event.Expiry expiry) }
        ensures taken { OnOk result (StandsNext self.old (Event.Expiry expiry) self.new) }
        ensures refused { OnErr result (StandsStill self.old self.new) }
    {
        self.tables.push(Table::new(self.alloc))?;
        if self.expiries.push(expiry).is_err() {
            let _ = self.tables.pop();
            return Err(NoMemory);
        }
        Ok(())
    }

    fn set_rate(&mut self, expiry: Expiry, rate: i32)
        requires { MayApply self.old (Event.Rate expiry rate) }
        ensures { StandsNext self.old (Event.Rate expiry rate) self.new }
    {
        let Some(place) = place_of(&self.expiries, expiry) else {
            unreachable!()
        };
        self.tables[place].rate = Some(rate);
    }

    // Lists a series. Where the other side of its strike is listed, the strike has a row from here on.
    fn list(&mut self, symbol: &Symbol) -> Result<(), NoMemory>
        requires { MayApply self.old (Event.Series symbol.now) }
        ensures taken { OnOk result (StandsNext self.old (Event.Series symbol.now) self.new) }
        ensures refused { OnErr result (StandsStill self.old self.new) }
    {
        let other = series::other_side(symbol);
        match series::find(&self.series, &other) {
            Some(one) => self.complete(symbol, &other, one),
            None => self.list_alone(symbol),
        }
    }

    fn list_alone(&mut self, symbol: &Symbol) -> Result<(), NoMemory>
        requires may { MayApply self.old (Event.Series symbol.now) }
        requires alone { kept self.old.series (other_side symbol.now) ≡ None }
        ensures taken { OnOk result (StandsNext self.old (Event.Series symbol.now) self.new) }
        ensures refused { OnErr result (StandsStill self.old self.new) }
    {
        let Some(expiry) = place_of(&self.expiries, series::expiry_of(symbol)) else {
            unreachable!()
        };
        let alone = Series {
            expiry,
            place: Place::Alone(NO_PRICE),
            traded: None,
        };
        series::set(&mut self.series, symbol, alone)
    }

    // Lists a series whose other side is listed.
    fn complete(&mut self, symbol: &Symbol, other: &Symbol, one: Series) -> Result<(), NoMemory>
        requires may { MayApply self.old (Event.Series symbol.now) }
        requires other { other.now ≡ other_side symbol.now }
        requires one { kept self.old.series other.now ≡ Some one }
        ensures taken { OnOk result (StandsNext self.old (Event.Series symbol.now) self.new) }
        ensures refused { OnErr result (StandsStill self.old self.new) }
    {
        let Place::Alone(price) = one.place else {
            unreachable!()
        };
        self.series.reserve(1)?;
        let row = table::completed(symbol.side, symbol.strike, price);
        let number = self.tables[one.expiry].add_row(row)?;
        let place = Place::Row(number);
        let listed = Series {
            place,
            traded: None,
            ..one
        };
        series::set(&mut self.series, symbol, listed)?;
        series::set(&mut self.series, other, Series { place, ..one })
    }

    // Sets the price of a series; one that is not listed has none.
    fn quote(&mut self, symbol: &Symbol, price: Price) -> Result<(), NoMemory>
        requires stands { BookStandsForSome self.old }
        requires lawful { IsLawfulPrice price }
        ensures taken { OnOk result (TakesQuote self.old symbol.now price self.new) }
        ensures refused { OnErr result (StandsStill self.old self.new) }
    {
        let Some((place, one)) = series::find_near(&self.series, symbol, self.last) else {
            return Ok(());
        };
        self.last = place;
        match one.place {
            Place::Row(number) => {
                self.tables[one.expiry].set_price(number, symbol.side, price);
                Ok(())
            }
            Place::Alone(_) => {
                let place = Place::Alone(price);
                series::set(&mut self.series, symbol, Series { place, ..one })
            }
        }
    }

    // Keeps the first trade of a series before the opening; one that is not listed has none.
    fn trade(&mut self, symbol: &Symbol, price: u32) -> Result<(), NoMemory>
        requires { IsPrice price }
        ensures taken { OnOk result (TakesTrade self.old symbol.now price self.new) }
        ensures refused { OnErr result (StandsStill self.old self.new) }
    {
        if self.opened.is_some() {
            return Ok(());
        }
        let Some(one) = series::find(&self.series, symbol) else {
            return Ok(());
        };
        let traded = one.traded.or(Some(price));
        series::set(&mut self.series, symbol, Series { traded, ..one })
    }

    // Takes the opening.
    fn open(&mut self, time: u16) -> Result<(), NoMemory>
        requires { MayApply self.old (Event.Opening time) }
        ensures taken { OnOk result (StandsNext self.old (Event.Opening time) self.new) }
        ensures refused { OnErr result (StandsStill self.old self.new) }
    {
        self.opening = self.opening_terms()?;
        self.opened = Some(Opened {
            line: self.lines + 1,
            time,
            expiries: self.expiries.len(),
        });
        Ok(())
    }

    fn opening_terms(&self) -> Result<Vec<OpeningTerm>, NoMemory>
        requires { BookStandsForSome self.now }
        ensures { IfOk result (λ terms. TakesOpeningOf self.now terms.items) }
    {
        let mut terms = Vec::with_capacity(self.alloc, self.tables.len())?;
        for i in 0..self.tables.len() {
            let term = OpeningTerm::of(
                self.alloc,
                &self.series,
                self.expiries[i],
                &self.tables[i],
            )?;
            terms.push(term)?;
        }
        Ok(terms)
    }

    /// How many events were applied, and so the number of the last one's line.
    pub fn lines(&self) -> u64
        ensures kept { result ≡ self.now.lines }
        ensures value { (events : List Event) → BookStandsFor self.now events → result ≡ length events }
    {
        self.lines
    }

    /// The trade date, once there was a header.
    pub fn day(&self) -> Option<DayNo>
        ensures kept { result ≡ self.now.day }
        ensures value { (events : List Event) → BookStandsFor self.now events → result ≡ trade_date events }
    {
        self.day
    }

    /// The declared expiries, in order of declaration.
    pub fn expiries(&self) -> &[Expiry]
        ensures kept { result.now ≡ self.now.expiries.items }
        ensures value { (events : List Event) → BookStandsFor self.now events → result.now ≡ declared_expiries events }
    {
        self.expiries.as_slice()
    }

    /// What stands for the expiry at this place in order of declaration, from 0: its rate, and its
    /// listed rows with the prices of their standing quotes.
    pub fn term(&self, i: usize) -> TermView
        requires stands { BookStandsForSome self.now }
        requires within { i < length self.now.expiries.items }
        ensures expiry { slice_get self.now.expiries.items i ≡ Some result.expiry }
        ensures standing { (events : List Event) → BookStandsFor self.now events → IsStandingTerm events result }
        ensures lawful { IsLawfulTerm result }
    {
        TermView {
            expiry: self.expiries[i],
            rate: self.tables[i].rate,
            rows: self.tables[i].rows(),
        }
    }

    /// Where and when the opening was taken, once it was.
    pub fn opening_at(&self) -> Option<Opened>
        ensures kept { result ≡ self.now.opened }
        ensures value { (events : List Event) → BookStandsFor self.now events → result ≡ opened_at events }
    {
        self.opened
    }

    /// What stood for the expiry at this place when the opening was taken: its rate, and its rows with
    /// their opening prices, an opening trade before a quote. There is nothing for an expiry that was
    /// declared later.
    pub fn opening_term(&self, i: usize) -> TermView
        requires stands { BookStandsForSome self.now }
        requires opened { IsSome self.now.opened }
        requires within { i < length self.now.expiries.items }
        ensures expiry { slice_get self.now.expiries.items i ≡ Some result.expiry }
        ensures at_opening { (events : List Event) → BookStandsFor self.now events → IsTermAtOpening events result }
        ensures lawful { IsLawfulTerm result }
    {
        let expiry = self.expiries[i];
        match self.opening.get(i) {
            Some(term) => TermView {
                expiry,
                rate: term.rate,
                rows: term.rows(),
            },
            None => TermView {
                expiry,
                rate: None,
                rows: &[],
            },
        }
    }
}

// Where an expiry stands in order of declaration, if it is declared.
fn place_of(expiries: &[Expiry], expiry: Expiry) -> Option<usize>
    ensures { result ≡ position (is_same_expiry expiry) expiries.now }
{
    expiries.iter().position(|declared| expiry == *declared)
}
