//! Which event may follow the events so far.

ghost use Rattle.std.specs.Prelude.{◌≡◌, ◌<◌, false, [], ◌∷◌, ◌++◌, List, IfOk, OnOk, OnErr, find, option_map};
ghost use Rattle.std.specs.Option.{option_map_or};
ghost use Rattle.std.specs.List.{list_any};
ghost use Rattle.std.specs.HashSet.{contains};
ghost use Rattle.vx_feed.specs.declared.events.Event.{Event};
ghost use Rattle.vx_feed.specs.declared.order.Order.{Order};
ghost use Rattle.vx_feed.specs.Listed as spec;
ghost use Rattle.vx_feed.specs.Order as order;
ghost use Rattle.vx_feed.specs.Same.{is_same_series};
ghost use Rattle.vx_feed.specs.Noted.{CanTake, IsSameOrder, MayNote, StandsFor, Takes, is_new_strike, keeps, kept_strikes, with_one_more};

use crate::events::Event;
use crate::faults::FeedFault;
use crate::limits::{EXPIRIES_MAX, EXPIRY_DAYS_MAX, LINES_MAX, STRIKES_MAX};
use std::alloc::Global;
use std::collections::HashSet;
use vx_clock::{DayNo, Expiry};
use vx_num::NoMemory;
use vx_symbol::{Side, Symbol};

/// A declared expiry, and how many distinct strikes are listed for it.
#[derive(Clone, Copy, Debug)]
pub struct Declared {
    expiry: Expiry,
    strikes: u32,
}

/// What the lines of a feed so far allow next. It stands for the list of events noted.
#[derive(Drop)]
pub struct Order {
    lines: u32,
    day: Option<DayNo>,
    // The greatest time so far, and 0 before there is one.
    latest: u16,
    ended: bool,
    opened: bool,
    expiries: Vec<Declared>,
    series: HashSet<Symbol>,
}

fn expiry_of(symbol: &Symbol) -> Expiry
    ensures { result ≡ spec.expiry_of symbol.now }
{
    Expiry {
        root: symbol.root,
        date: symbol.date,
    }
}

// The series of the same strike on the other side.
fn other_side(symbol: &Symbol) -> Symbol
    ensures { result ≡ spec.other_side symbol.now }
{
    let side = match symbol.side {
        Side::Call => Side::Put,
        Side::Put => Side::Call,
    };
    Symbol { side, ..*symbol }
}

// Whether an expiry is 1 to 180 days after the trade date.
fn is_days_ahead(expiry: &Expiry, day: DayNo) -> bool
    ensures { result ≡ order.is_days_ahead expiry.now day }
{
    let days = i64::from(expiry.date.0) - i64::from(day.0);
    1 <= days && days <= i64::from(EXPIRY_DAYS_MAX)
}

impl Event {
    /// The minute of a quote, a trade, a tick or an opening.
    pub fn time(&self) -> Option<u16>
        ensures { result ≡ order.time_of self.now }
    {
        match self {
            Event::Quote { time, .. }
            | Event::Trade { time, .. }
            | Event::Tick { time }
            | Event::Opening { time } => Some(*time),
            _ => None,
        }
    }
}

// Whether an expiry is among the declared ones.
fn is_among(expiries: &[Declared], expiry: Expiry) -> bool
    ensures { result ≡ list_any (keeps expiry) expiries.now }
{
    expiries.iter().any(|declared| expiry == declared.expiry)
}

// What is kept of an expiry.
fn find_kept(expiries: &[Declared], expiry: Expiry) -> Option<&Declared>
    ensures { option_map (λ declared. declared.now) result ≡ find (keeps expiry) expiries.now }
{
    expiries.iter().find(|declared| expiry == declared.expiry)
}

// How many distinct strikes are listed for an expiry.
fn strikes_kept(expiries: &[Declared], expiry: Expiry) -> u32
    ensures { result ≡ kept_strikes expiry expiries.now }
{
    match find_kept(expiries, expiry) {
        Some(declared) => declared.strikes,
        None => 0,
    }
}

// One strike more for an expiry.
fn add_strike(expiries: &mut [Declared], expiry: Expiry)
    requires { kept_strikes expiry expiries.old < STRIKES_MAX }
    ensures { expiries.new ≡ with_one_more expiry expiries.old }
{
    for declared in expiries.iter_mut() {
        if expiry == declared.expiry {
            declared.strikes += 1;
            return;
        }
    }
}

fn is_header(event: &Event) -> bool
    ensures { result ≡ order.is_header event.now }
{
    matches!(event, Event::Header { .. })
}

// What the order keeps says each of these for every list of events for which it stands.
impl Order {
    /// The order of no event.
    pub fn new(alloc: Global) -> Result<Order, NoMemory>
        ensures { IfOk result (λ order. StandsFor order []) }
    {
        Ok(Order {
            lines: 0,
            day: None,
            latest: 0,
            ended: false,
            opened: false,
            expiries: Vec::with_capacity(alloc, EXPIRIES_MAX)?,
            series: HashSet::new(alloc),
        })
    }

    fn is_declared(&self, expiry: Expiry) -> bool
        ensures { (events : List Event) → StandsFor self.now events → result ≡ spec.is_declared expiry events }
    {
        is_among(&self.expiries, expiry)
    }

    fn is_listed(&self, symbol: &Symbol) -> bool
        ensures kept { result ≡ contains is_same_series self.now.series symbol.now }
        ensures listed { (events : List Event) → StandsFor self.now events → result ≡ spec.is_listed symbol.now events }
    {
        self.series.contains(symbol)
    }

    // The first line is no header, or a later line is one.
    fn is_misplaced(&self, event: &Event) -> bool
        ensures { (events : List Event) → StandsFor self.now events → result ≡ order.is_misplaced events event.now }
    {
        if self.lines == 0 {
            !is_header(event)
        } else {
            is_header(event)
        }
    }

    // The time is less than that of an earlier line.
    fn is_time_back(&self, event: &Event) -> bool
        ensures { (events : List Event) → StandsFor self.now events → result ≡ order.is_time_back events event.now }
    {
        match event.time() {
            Some(time) => time < self.latest,
            None => false,
        }
    }

    // The expiry was declared before.
    fn is_duplicate_expiry(&self, event: &Event) -> bool
        ensures { (events : List Event) → StandsFor self.now events
            → result ≡ order.is_duplicate_expiry events event.now }
    {
        match event {
            Event::Expiry(expiry) => self.is_declared(*expiry),
            _ => false,
        }
    }

    // The series was listed before.
    fn is_duplicate_series(&self, event: &Event) -> bool
        ensures { (events : List Event) → StandsFor self.now events
            → result ≡ order.is_duplicate_series events event.now }
    {
        match event {
            Event::Series(symbol) => self.is_listed(symbol),
            _ => false,
        }
    }

    // The expiry of a rate or of a listed series was not declared before.
    fn is_undeclared(&self, event: &Event) -> bool
        ensures { (events : List Event) → StandsFor self.now events → result ≡ order.is_undeclared events event.now }
    {
        match event {
            Event::Rate { expiry, .. } => !self.is_declared(*expiry),
            Event::Series(symbol) => !self.is_declared(expiry_of(symbol)),
            _ => false,
        }
    }

    // A series at a strike at which no series of its expiry was listed before.
    fn is_new_strike(&self, symbol: &Symbol) -> bool
        ensures { (events : List Event) → StandsFor self.now events → result ≡ is_new_strike events symbol.now }
    {
        !self.is_listed(symbol) && !self.is_listed(&other_side(symbol))
    }

    // The event declares one expiry too many.
    fn has_too_many_expiries(&self, event: &Event) -> bool
        ensures { (events : List Event) → StandsFor self.now events
            → result ≡ order.has_too_many_expiries events event.now }
    {
        match event {
            Event::Expiry(_) => self.expiries.len() >= EXPIRIES_MAX,
            _ => false,
        }
    }

    // The event lists one distinct strike of an expiry too many.
    fn has_too_many_strikes(&self, event: &Event) -> bool
        ensures { (events : List Event) → StandsFor self.now events
            → result ≡ order.has_too_many_strikes events event.now }
    {
        match event {
            Event::Series(symbol) => {
                strikes_kept(&self.expiries, expiry_of(symbol)) as usize >= STRIKES_MAX
                    && self.is_new_strike(symbol)
            }
            _ => false,
        }
    }

    // One expiry, one distinct strike of an expiry, or one line more than a feed may have.
    fn is_too_many(&self, event: &Event) -> bool
        ensures { (events : List Event) → StandsFor self.now events → result ≡ order.is_too_many events event.now }
    {
        self.has_too_many_expiries(event)
            || self.has_too_many_strikes(event)
            || self.lines >= LINES_MAX
    }

    // The END line counts another number of lines between the header and it.
    fn is_other_count(&self, event: &Event) -> bool
        ensures { (events : List Event) → StandsFor self.now events → result ≡ order.is_other_count events event.now }
    {
        match event {
            Event::End { count } => *count != self.lines.saturating_sub(1),
            _ => false,
        }
    }

    // Whether an expiry is 1 to 180 days after the trade date, where there is one.
    fn is_in_days(&self, expiry: &Expiry) -> bool
        ensures { result ≡ option_map_or (order.is_days_ahead expiry.now) self.now.day false }
    {
        match self.day {
            Some(day) => is_days_ahead(expiry, day),
            None => false,
        }
    }

    // An expiry that is not 1 to 180 days after the trade date.
    fn is_out_of_days(&self, event: &Event) -> bool
        ensures { (events : List Event) → StandsFor self.now events → result ≡ order.is_out_of_days events event.now }
    {
        match event {
            Event::Expiry(expiry) => !self.is_in_days(expiry),
            _ => false,
        }
    }

    // An opening after an opening.
    fn is_second_opening(&self, event: &Event) -> bool
        ensures { (events : List Event) → StandsFor self.now events
            → result ≡ order.is_second_opening events event.now }
    {
        match event {
            Event::Opening { .. } => self.opened,
            _ => false,
        }
    }

    // The first fault of a quote, a trade or a tick of this minute after the events so far: what else
    // it says never makes one.
    fn timed_fault(&self, time: u16) -> Option<FeedFault>
        ensures { (events : List Event) → StandsFor self.now events
            → result ≡ order.order_fault events (Event.Tick time) }
    {
        if self.lines == 0 {
            return Some(FeedFault::NotFirst);
        }
        if self.ended {
            return Some(FeedFault::AfterEnd);
        }
        if time < self.latest {
            return Some(FeedFault::TimeBack);
        }
        if self.lines >= LINES_MAX {
            return Some(FeedFault::TooMany);
        }
        None
    }

    // The first fault of an event after the events so far.
    pub(crate) fn fault(&self, event: &Event) -> Option<FeedFault>
        ensures { (events : List Event) → StandsFor self.now events → result ≡ order.order_fault events event.now }
    {
        match event {
            Event::Quote { time, .. } | Event::Trade { time, .. } | Event::Tick { time } => {
                self.timed_fault(*time)
            }
            _ => self.any_fault(event),
        }
    }

    // The same of any event, each cause asked for in its turn.
    fn any_fault(&self, event: &Event) -> Option<FeedFault>
        ensures { (events : List Event) → StandsFor self.now events → result ≡ order.order_fault events event.now }
    {
        if self.is_misplaced(event) {
            Some(FeedFault::NotFirst)
        } else if self.ended {
            Some(FeedFault::AfterEnd)
        } else if self.is_time_back(event) {
            Some(FeedFault::TimeBack)
        } else if self.is_duplicate_expiry(event) {
            Some(FeedFault::DuplicateExpiry)
        } else if self.is_duplicate_series(event) {
            Some(FeedFault::DuplicateSeries)
        } else if self.is_undeclared(event) {
            Some(FeedFault::UndeclaredExpiry)
        } else if self.is_too_many(event) {
            Some(FeedFault::TooMany)
        } else if self.is_other_count(event) {
            Some(FeedFault::EndCount)
        } else if self.is_out_of_days(event) {
            Some(FeedFault::TimeRange)
        } else if self.is_second_opening(event) {
            Some(FeedFault::SecondOpening)
        } else {
            None
        }
    }

    // Takes up the series that is listed, and its strike where that is new.
    fn list(&mut self, symbol: &Symbol) -> Result<(), NoMemory>
        requires { CanTake self.old (Event.Series symbol.now) }
        ensures taken { OnOk result (Takes self.old (Event.Series symbol.now) self.new) }
        ensures refused { OnErr result (IsSameOrder self.old self.new) }
    {
        let has_strike = self.is_listed(&other_side(symbol));
        self.series.insert(*symbol)?;
        if has_strike {
            return Ok(());
        }
        add_strike(&mut self.expiries, expiry_of(symbol));
        Ok(())
    }

    // Takes up the expiry that is declared.
    fn declare(&mut self, expiry: Expiry) -> Result<(), NoMemory>
        ensures taken { OnOk result (Takes self.old (Event.Expiry expiry) self.new) }
        ensures refused { OnErr result (IsSameOrder self.old self.new) }
    {
        let declared = Declared { expiry, strikes: 0 };
        self.expiries.push(declared)?;
        Ok(())
    }

    // Takes up what the event says beside its time.
    fn take(&mut self, event: &Event) -> Result<(), NoMemory>
        requires { CanTake self.old event.now }
        ensures taken { OnOk result (Takes self.old event.now self.new) }
        ensures refused { OnErr result (IsSameOrder self.old self.new) }
    {
        match event {
            Event::Header { day } => {
                self.day = Some(*day);
                Ok(())
            }
            Event::Expiry(expiry) => self.declare(*expiry),
            Event::Series(symbol) => self.list(symbol),
            Event::Opening { .. } => {
                self.opened = true;
                Ok(())
            }
            Event::End { .. } => {
                self.ended = true;
                Ok(())
            }
            _ => Ok(()),
        }
    }

    /// Notes an event that is lawful next: the order then stands for the list with this event at its
    /// end. Where memory is wanting nothing is noted, and it stands for the same list as before.
    pub fn note(&mut self, event: &Event) -> Result<(), NoMemory>
        requires { MayNote self.old event.now }
        ensures noted { (events : List Event) → StandsFor self.old events
            → OnOk result (StandsFor self.new (events ++ event.now ∷ [])) }
        ensures refused { (events : List Event) → StandsFor self.old events → OnErr result (StandsFor self.new events) }
    {
        self.take(event)?;
        self.latest = self.latest.max(event.time().unwrap_or(0));
        self.lines += 1;
        Ok(())
    }
}
