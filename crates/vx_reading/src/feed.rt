//! The feed as a command reads it, line by line, with what takes up its events.

ghost use Rattle.std.specs.Prelude.{◌≡◌};
ghost use Rattle.vx_feed.specs.Order as order;
ghost use Rattle.vx_reading.specs.FeedAhead.{SayEvent, cause_of_rest};

use crate::stop::{FeedCause, FeedStop};
use crate::takes::TakesEvents;
use std::alloc::Global;
use vx_blocks::{Rest, SplitLines};
use vx_desk::{Desk, Slot};
use vx_feed::limits::{LINE_LEN_MAX, LINES_MAX};
use vx_feed::{Event, FeedFault, KnownSymbols, Order, event_of_fields};
use vx_fields::Fields;
use vx_num::NoMemory;

/// The feed, which is read from the slot Feed, with what takes up its events.
///
/// Lines are read ahead and split in blocks, but only lines that are in hand: the device is asked where
/// none is. So a feed that arrives bit by bit is taken up as it arrives.
#[derive(Drop)]
pub struct FeedReader<T: Drop> {
    ahead: SplitLines,
    order: Order,
    known: KnownSymbols,
    taker: T,
    /// How many lines were taken up.
    count: u64,
    /// The last of them is an END line.
    has_end: bool,
}

/// Whether an event is that of an END line.
fn is_end(event: &Event) -> bool
    ensures { result ≡ order.is_end event.now }
{
    matches!(event, Event::End { .. })
}

/// The event of the line of this number, which was split into these fields.
fn event_of(
    fields: &Fields<'_>,
    order: &Order,
    known: &mut KnownSymbols,
    number: u64,
) -> Result<Event, FeedStop>
    ensures { SayEvent fields.now order.now number result }
{
    match event_of_fields(fields, order, known) {
        Ok(event) => Ok(event),
        Err(FeedFault::NoMemory) => Err(FeedStop::NoMemory),
        Err(fault) => Err(FeedStop::BadLine {
            line: number,
            cause: FeedCause::Event(fault),
        }),
    }
}

/// Why the line is bad that comes behind those that were split, if it is known to be.
fn cause_of(rest: Rest) -> Option<FeedCause>
    ensures { result ≡ cause_of_rest rest }
{
    match rest {
        Rest::More | Rest::End => None,
        Rest::Unsplit(why) => Some(FeedCause::Event(FeedFault::from(why))),
        Rest::TooLong => Some(FeedCause::TooLong),
        Rest::NoEol => Some(FeedCause::NoEol),
    }
}

impl<T: TakesEvents> FeedReader<T> {
    ghost use Rattle.std.specs.Prelude.{◌≡◌, ◌<◌, [], true, false, IsTrue, IfErr, IfOk, List, length};
    ghost use Rattle.vx_desk.specs.Told.{ChangesOnly, Told};
    ghost use Rattle.vx_desk.specs.declared.device.Slot.{Slot};
    ghost use Rattle.vx_feed.specs.declared.events.Event.{Event};
    ghost use Rattle.vx_desk.specs.Calls.{IsStep};
    ghost use Rattle.vx_blocks.specs.SplitLines.{HasNext, IsSameText, has_line};
    ghost use Rattle.vx_blocks.specs.Given.{LosesNothing};
    ghost use Rattle.vx_reading.specs.Stops.{IsNoFeedFault, feed_failed_in};
    ghost use Rattle.vx_reading.specs.FeedReading.{EndsAt, HasTakenUp, IsAtStart, IsReading, IsTakerOf, TakesAll};
    ghost use Rattle.vx_reading.specs.FeedReading.{StaysRead, TakesOne, TakesUpTo, is_waiting};
    ghost use Rattle.vx_reading.specs.Takes.{MayTakeUp, TakesUp};

    /// The reader of a feed of which no line was read.
    #[tactic(auto, using(crate::proofs::FeedLemmas::starts))]
    pub fn new(alloc: Global, taker: T) -> Result<FeedReader<T>, NoMemory>
        requires { T.StandsFor taker [] }
        ensures { (told : Slot → Told) → IfOk result (IsAtStart T.StandsFor told) }
    {
        Ok(FeedReader {
            ahead: SplitLines::new(alloc, Slot::Feed, LINE_LEN_MAX)?,
            order: Order::new(alloc)?,
            known: KnownSymbols::new(alloc),
            taker,
            count: 0,
            has_end: false,
        })
    }

    /// What has taken up the events of the lines that were read.
    pub fn taker(&self) -> &T
        ensures { IsTakerOf T.StandsFor self.now result.now }
    {
        &self.taker
    }

    /// Takes up one more event.
    fn push(&mut self, event: Event) -> Result<(), NoMemory>
        requires may { MayTakeUp (HasTakenUp T.StandsFor) self.old event }
        ensures taken { TakesUp (HasTakenUp T.StandsFor) self.old event self.new result }
        ensures ahead { self.new.ahead ≡ self.old.ahead }
    {
        self.order.note(&event)?;
        self.taker.take(event)?;
        self.has_end = is_end(&event);
        self.count += 1;
        Ok(())
    }

    /// Ends the feed, which has no line with this number.
    fn end(&self, number: u64) -> Result<Option<Event>, FeedStop>
        ensures { EndsAt self.now.has_end number result }
    {
        if self.has_end {
            return Ok(None);
        }
        Err(FeedStop::BadLine {
            line: number,
            cause: FeedCause::MissingEnd,
        })
    }

    /// Takes up the event of the next line, which was split.
    fn take_line(&mut self) -> Result<Option<Event>, FeedStop>
        requires reading { (told : Slot → Told) × IsReading T.StandsFor self.old told }
        requires at_hand { self.old.ahead.taken < length self.old.ahead.table }
        ensures takes { (told : Slot → Told) → TakesOne T.StandsFor self.old told self.new told result }
        ensures no_fault { IfErr result IsNoFeedFault }
        ensures lines { self.new.ahead.lines ≡ self.old.ahead.lines }
    {
        let event = event_of(
            &self.ahead.fields(),
            &self.order,
            &mut self.known,
            self.count + 1,
        )?;
        self.ahead.take();
        self.push(event)?;
        Ok(Some(event))
    }

    /// Ends the feed, or stops at its next line, where no line that was split is at hand.
    fn take_rest(&self) -> Result<Option<Event>, FeedStop>
        requires reading { (told : Slot → Told) × IsReading T.StandsFor self.now told }
        requires next { HasNext self.now.ahead }
        requires none { has_line self.now.ahead ≡ false }
        ensures takes { (told : Slot → Told) → TakesOne T.StandsFor self.now told self.now told result }
        ensures no_fault { IfErr result IsNoFeedFault }
    {
        let number = self.count + 1;
        match cause_of(self.ahead.rest()) {
            None => self.end(number),
            Some(cause) => Err(FeedStop::BadLine {
                line: number,
                cause,
            }),
        }
    }

    /// Takes up one more event, or answers `None` at the end of the feed.
    pub fn read_next<D: Desk>(&mut self, desk: &mut D) -> Result<Option<Event>, FeedStop>
        requires reading { IsReading T.StandsFor self.old (D.told desk.old) }
        requires open { IsTrue (D.told desk.old Slot.Feed).is_open }
        ensures reads { TakesOne T.StandsFor self.old (D.told desk.old) self.new (D.told desk.new) result }
        ensures stays_read { StaysRead self.old (D.told desk.old) (D.told desk.new) }
        ensures comes_on { LosesNothing self.old.ahead (D.told desk.old) self.new.ahead (D.told desk.new) }
        ensures same { IsSameText self.old.ahead self.new.ahead }
        ensures in_hand { is_waiting self.old ≡ true → (desk.new ≡ desk.old) × IfErr result IsNoFeedFault }
        ensures step { IsStep (feed_failed_in result) (D.told desk.old) (D.told desk.new) }
        ensures others { ChangesOnly Slot.Feed (D.told desk.old) (D.told desk.new) }
    {
        self.ahead.read_on(desk)?;
        if self.ahead.has_line() {
            self.take_line()
        } else {
            self.take_rest()
        }
    }

    /// Takes up the events of the lines up to this number, or to the end of the feed.
    #[tactic(auto, using(vx_blocks::proofs::GivenLemmas::comes_start))]
    pub fn read_to<D: Desk>(&mut self, desk: &mut D, number: u64) -> Result<(), FeedStop>
        requires reading { IsReading T.StandsFor self.old (D.told desk.old) }
        requires open { IsTrue (D.told desk.old Slot.Feed).is_open }
        ensures reads { TakesUpTo T.StandsFor number self.old (D.told desk.old) self.new (D.told desk.new) result }
        ensures stays_read { StaysRead self.old (D.told desk.old) (D.told desk.new) }
        ensures step { IsStep (feed_failed_in result) (D.told desk.old) (D.told desk.new) }
        ensures others { ChangesOnly Slot.Feed (D.told desk.old) (D.told desk.new) }
    {
        for _ in self.count..number {
            match self.read_next(desk) {
                Ok(Some(_event)) => {}
                Ok(None) => return Ok(()),
                Err(stop) => return Err(stop),
            }
        }
        Ok(())
    }

    /// Takes up the events of all lines that are left.
    #[tactic(auto, using(vx_blocks::proofs::GivenLemmas::comes_start))]
    pub fn read_to_end<D: Desk>(&mut self, desk: &mut D) -> Result<(), FeedStop>
        requires reading { IsReading T.StandsFor self.old (D.told desk.old) }
        requires open { IsTrue (D.told desk.old Slot.Feed).is_open }
        ensures reads { TakesAll T.StandsFor self.old (D.told desk.old) self.new (D.told desk.new) result }
        ensures stays_read { StaysRead self.old (D.told desk.old) (D.told desk.new) }
        ensures step { IsStep (feed_failed_in result) (D.told desk.old) (D.told desk.new) }
        ensures others { ChangesOnly Slot.Feed (D.told desk.old) (D.told desk.new) }
    {
        for _ in self.count..=u64::from(LINES_MAX) {
            match self.read_next(desk) {
                Ok(Some(_event)) => {}
                Ok(None) => return Ok(()),
                Err(stop) => return Err(stop),
            }
        }
        unreachable!()
    }
}
