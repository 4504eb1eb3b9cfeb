//! The way by ticks: the feed is read once, each tick is answered before the next line is read, and the last
//! line is sent behind the feed's end.

ghost use Rattle.std.specs.Prelude.{◌≡◌, [], IsTrue};
ghost use Rattle.vx_desk.specs.Calls.{IsStep};
ghost use Rattle.vx_reading.specs.FeedReading.{feed_told};
ghost use Rattle.vx_drivers.specs.Exits.{exit_calls};
ghost use Rattle.vx_drivers.specs.TickExits.{IsTickExit};
ghost use Rattle.vx_drivers.specs.TickSteps.{HasEndedTicks};

use crate::devices::send_line;
use crate::exit::Exit;
use crate::tick_output::{send_both, write_counts};
use crate::ticks::{AnswersTicks, Tally};
use std::alloc::Global;
use vx_desk::{Desk, Slot};
use vx_feed::limits::LINES_MAX;
use vx_num::NoMemory;
use vx_reading::{FeedReader, TakesEvents};

/// A run between two lines of the feed.
#[derive(Drop)]
pub(crate) struct TickRun<T: Drop> {
    feed: FeedReader<T>,
    /// How many answers were sent, by their kinds.
    published: u64,
    undecided: u64,
    refused: u64,
    /// The two texts of the answer at hand.
    certificate: Vec<u8>,
    line: Vec<u8>,
}

impl<T: AnswersTicks> TickRun<T> {
    ghost use Rattle.std.specs.Prelude.{◌≡◌, ◌<◌, ◌+◌, ◌≤◌, ◌*◌, ◌^◌, [], IsTrue, IfErr, IfOk, OnOk};
    ghost use Rattle.vx_desk.specs.Calls.{IsStep};
    ghost use Rattle.vx_drivers.specs.Exits.{calls_in, exit_calls};
    ghost use Rattle.vx_drivers.specs.TickExits.{IsTickExit};
    ghost use Rattle.vx_drivers.specs.TickSteps.{AnswersLast, EndsTickRun, GoesOneEvent, GoesToFeedEnd, IsNewTicks};
    ghost use Rattle.vx_drivers.specs.TickSteps.{MayAnswer, MayEndTicks, MayGoOnTicks};
    ghost use Rattle.vx_drivers.specs.TickSteps.{TALLY_MAX, answers_counted, events_read};

    /// A run that has read nothing.
    fn new(alloc: Global, taker: T) -> Result<TickRun<T>, NoMemory>
        requires { T.StandsFor taker [] }
        ensures { IfOk result (IsNewTicks T.StandsFor) }
    {
        Ok(TickRun {
            feed: FeedReader::new(alloc, taker)?,
            published: 0,
            undecided: 0,
            refused: 0,
            certificate: Vec::new(alloc),
            line: Vec::new(alloc),
        })
    }

    /// Counts the answers of one more tick.
    fn count(&mut self, tally: Tally)
        requires room { answers_counted self.old < 2 ^ 63 }
        ensures published { self.new.published ≡ self.old.published + tally.published }
        ensures undecided { self.new.undecided ≡ self.old.undecided + tally.undecided }
        ensures refused { self.new.refused ≡ self.old.refused + tally.refused }
        ensures few { answers_counted self.new ≤ answers_counted self.old + TALLY_MAX }
        ensures feed { self.new.feed ≡ self.old.feed }
        ensures certificate { self.new.certificate.items ≡ self.old.certificate.items }
        ensures line { self.new.line.items ≡ self.old.line.items }
    {
        self.published += u64::from(tally.published);
        self.undecided += u64::from(tally.undecided);
        self.refused += u64::from(tally.refused);
    }

    /// Answers the last event that was read, where it is a tick.
    fn answer_last<D: Desk>(&mut self, desk: &mut D) -> Result<(), Exit>
        requires may { MayAnswer T.rules T.StandsFor self.old (D.told desk.old) }
        requires certs { IsTrue (D.told desk.old Slot.Certs).is_open }
        requires out { IsTrue (D.told desk.old Slot.Out).is_open }
        ensures gives { AnswersLast T.rules T.StandsFor self.old (D.told desk.old) self.new (D.told desk.new) result }
        ensures exits { IfErr result IsTickExit }
        ensures step { IsStep (calls_in result) (D.told desk.old) (D.told desk.new) }
        ensures feed { self.new.feed ≡ self.old.feed }
        ensures unread { D.told desk.new Slot.Feed ≡ D.told desk.old Slot.Feed }
        ensures side { D.told desk.new Slot.Side ≡ D.told desk.old Slot.Side }
    {
        self.certificate.clear();
        self.line.clear();
        let tally = match self
            .feed
            .taker()
            .answer(&mut self.certificate, &mut self.line)
        {
            Ok(Some(tally)) => tally,
            Ok(None) => return Ok(()),
            Err(NoMemory) => return Err(Exit::NoMemory),
        };
        self.count(tally);
        send_both(desk, self.certificate.as_slice(), self.line.as_slice())
    }

    /// Reads one more event and answers it, or answers that there is none.
    fn answer_next<D: Desk>(&mut self, desk: &mut D) -> Result<bool, Exit>
        requires may { MayGoOnTicks T.rules T.StandsFor self.old (D.told desk.old) }
        requires feed { IsTrue (D.told desk.old Slot.Feed).is_open }
        requires certs { IsTrue (D.told desk.old Slot.Certs).is_open }
        requires out { IsTrue (D.told desk.old Slot.Out).is_open }
        ensures goes { GoesOneEvent T.rules T.StandsFor self.old (D.told desk.old) self.new (D.told desk.new) result }
        ensures read { IfOk result (λ more. IsTrue more → events_read self.new ≡ events_read self.old + 1) }
        ensures few { OnOk result (events_read self.new ≤ LINES_MAX) }
        ensures exits { IfErr result IsTickExit }
        ensures step { IsStep (calls_in result) (D.told desk.old) (D.told desk.new) }
        ensures side { D.told desk.new Slot.Side ≡ D.told desk.old Slot.Side }
    {
        match self.feed.read_next(desk) {
            Ok(Some(_event)) => {}
            Ok(None) => return Ok(false),
            Err(stop) => return Err(Exit::from(stop)),
        }
        match self.answer_last(desk) {
            Ok(()) => Ok(true),
            Err(exit) => Err(exit),
        }
    }

    /// Reads the feed to its end and answers each event.
    fn answer_all<D: Desk>(&mut self, desk: &mut D) -> Result<(), Exit>
        requires may { MayGoOnTicks T.rules T.StandsFor self.old (D.told desk.old) }
        requires feed { IsTrue (D.told desk.old Slot.Feed).is_open }
        requires certs { IsTrue (D.told desk.old Slot.Certs).is_open }
        requires out { IsTrue (D.told desk.old Slot.Out).is_open }
        ensures all { GoesToFeedEnd T.rules T.StandsFor self.old (D.told desk.old) self.new (D.told desk.new) result }
        ensures exits { IfErr result IsTickExit }
        ensures step { IsStep (calls_in result) (D.told desk.old) (D.told desk.new) }
        ensures side { D.told desk.new Slot.Side ≡ D.told desk.old Slot.Side }
    {
        'events: loop {
            match self.answer_next(desk) {
                Ok(true) => {}
                Ok(false) => return Ok(()),
                Err(exit) => return Err(exit),
            }
        }
    }

    /// Sends the last line.
    fn finish<D: Desk>(&mut self, alloc: Global, desk: &mut D) -> Exit
        requires may { MayEndTicks T.rules T.StandsFor self.old (D.told desk.old) }
        requires out { IsTrue (D.told desk.old Slot.Out).is_open }
        ensures ends { EndsTickRun T.rules T.StandsFor self.old (D.told desk.old) (D.told desk.new) result }
        ensures exits { IsTickExit result }
        ensures step { IsStep (exit_calls result) (D.told desk.old) (D.told desk.new) }
        ensures side { D.told desk.new Slot.Side ≡ D.told desk.old Slot.Side }
    {
        match write_counts(
            alloc,
            &mut self.line,
            self.published,
            self.undecided,
            self.refused,
        ) {
            Ok(()) => {}
            Err(NoMemory) => return Exit::NoMemory,
        }
        match send_line(desk, Slot::Out, self.line.as_slice()) {
            Ok(()) => Exit::Done,
            Err(exit) => exit,
        }
    }
}

/// Answers each tick of a feed by what takes up its events. The feed, the output and the file of
/// certificates are open.
///
/// For each tick its certificate is sent whole before anything of its line, and both before the next line of
/// the feed is read.
pub fn answer_ticks<T: AnswersTicks, D: Desk>(alloc: Global, taker: T, desk: &mut D) -> Exit
    requires taker { T.StandsFor taker [] }
    requires feed { IsTrue (D.told desk.old Slot.Feed).is_open }
    requires certs { IsTrue (D.told desk.old Slot.Certs).is_open }
    requires out { IsTrue (D.told desk.old Slot.Out).is_open }
    ensures ends { HasEndedTicks T.rules (D.told desk.old Slot.Feed).left (feed_told (D.told desk.old))
        (D.told desk.old) (D.told desk.new) result }
    ensures exits { IsTickExit result }
    ensures step { IsStep (exit_calls result) (D.told desk.old) (D.told desk.new) }
    ensures side { D.told desk.new Slot.Side ≡ D.told desk.old Slot.Side }
{
    let mut run = match TickRun::new(alloc, taker) {
        Ok(run) => run,
        Err(NoMemory) => return Exit::NoMemory,
    };
    match run.answer_all(desk) {
        Ok(()) => run.finish(alloc, desk),
        Err(exit) => exit,
    }
}
