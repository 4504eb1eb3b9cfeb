//! The way by positions: the feed is read to its end and its opening answered; then each line of positions is
//! settled before the device is asked for bytes behind it, and the last lines are sent behind the positions' end.
//! What the output says of lines that were split together is sent together.

ghost use Rattle.std.specs.Prelude.{◌≡◌, ◌+◌, ◌≤◌, [], IfErr, IsTrue};
ghost use Rattle.vx_desk.specs.Calls.{IsStep};
ghost use Rattle.vx_reading.specs.FeedReading.{feed_told};
ghost use Rattle.vx_drivers.specs.Exits.{calls_in, exit_calls};
ghost use Rattle.vx_drivers.specs.Held.{held_in};
ghost use Rattle.vx_drivers.specs.PositionExits.{IsPositionExit};
ghost use Rattle.vx_drivers.specs.PositionSteps.{HasEndedPositions, OpensRun, positions_told};

use crate::devices::send_line;
use crate::exit::{Exit, PositionCause};
use crate::limits::{POSITION_LINE_LEN_MAX, POSITION_LINES_MAX};
use crate::position_lines::{bad_behind, read_on};
use crate::positions::{AnswersOpening, SettlesPositions};
use crate::tick_output::send_both;
use std::alloc::Global;
use vx_blocks::SplitLines;
use vx_desk::{Desk, Slot};
use vx_fields::Fields;
use vx_num::NoMemory;
use vx_reading::{FeedReader, TakesEvents};

/// A run between two lines of the positions.
#[derive(Drop)]
pub(crate) struct PositionRun<S: Drop> {
    /// The answer to the opening, and what was settled on it.
    sheet: S,
    /// How many lines were settled.
    count: u64,
    /// The text at hand.
    line: Vec<u8>,
    /// What the output says of the lines that were settled last, and was not sent yet. These lines were split
    /// together, and such have some 65,536 bytes at most, so it stays small.
    unsent: Vec<u8>,
}

/// The position line after so many is bad.
fn bad_line(count: u64, cause: PositionCause) -> Exit
    requires { count ≤ POSITION_LINES_MAX }
    ensures { result ≡ Exit.BadPositions (count + 1) cause }
{
    Exit::BadPositions {
        line: count + 1,
        cause,
    }
}

impl<S: SettlesPositions> PositionRun<S> {
    ghost use Rattle.std.specs.Prelude.{◌≡◌, ◌<◌, ◌+◌, ◌≤◌, ℕ, List, [], None, IsTrue, IfErr, IfOk, OnErr, OnOk};
    ghost use Rattle.vx_blocks.specs.SplitLines.{HasNext, IsSplit};
    ghost use Rattle.vx_drivers.specs.PositionLines.{IsPositionLines};
    ghost use Rattle.vx_desk.specs.Told.{ChangesOnly};
    ghost use Rattle.vx_desk.specs.Calls.{IsStep};
    ghost use Rattle.vx_drivers.specs.Exits.{calls_in, exit_calls};
    ghost use Rattle.vx_drivers.specs.PositionExits.{IsPositionExit};
    ghost use Rattle.vx_drivers.specs.PositionSteps.{EndsAllSent, EndsPositionRun, GoesOnePosition, GoesToLastPosition};
    ghost use Rattle.vx_drivers.specs.PositionSteps.{HasItems, MayEndPositions, MaySettle, ReadsMorePositions};
    ghost use Rattle.vx_drivers.specs.PositionSteps.{SettlesOne};
    ghost use Rattle.vx_drivers.specs.Sending.{SendsOr};

    /// Settles one more line, which was split into its fields, and keeps what the output says of it to be sent.
    fn settle_line(&mut self, fields: &Fields<'_>) -> Result<(), Exit>
        requires items { HasItems S.StandsAt self.old.sheet self.old.count }
        requires few { self.old.count < POSITION_LINES_MAX }
        requires split { (text : List ℕ) × IsSplit text fields.now }
        ensures settles { (text : List ℕ) → IsSplit text fields.now
            → SettlesOne S.rules S.StandsAt self.old text self.new result }
        ensures lines { OnOk result (self.new.count ≡ self.old.count + 1) }
        ensures unsent { OnErr result (self.new.unsent.items ≡ self.old.unsent.items) }
        ensures calls { IfErr result (λ exit. exit_calls exit ≡ None) }
        ensures exits { IfErr result IsPositionExit }
    {
        self.line.clear();
        match self.sheet.settle(self.count, fields, &mut self.line) {
            Ok(None) => {}
            Ok(Some(fault)) => return Err(bad_line(self.count, PositionCause::Fault(fault))),
            Err(NoMemory) => return Err(Exit::NoMemory),
        }
        match self.unsent.extend_from_slice(self.line.as_slice()) {
            Ok(()) => {}
            Err(_) => return Err(Exit::NoMemory),
        }
        self.count += 1;
        Ok(())
    }

    /// Sends what was not sent yet.
    fn send_unsent<D: Desk>(&mut self, desk: &mut D) -> Result<(), Exit>
        requires out { IsTrue (D.told desk.old Slot.Out).is_open }
        ensures sends { SendsOr Slot.Out self.old.unsent.items
            (D.told desk.old Slot.Out) (D.told desk.new Slot.Out) result }
        ensures none { OnOk result (self.new.unsent.items ≡ []) }
        ensures kept { (self.new.sheet ≡ self.old.sheet) × (self.new.count ≡ self.old.count) }
        ensures exits { IfErr result IsPositionExit }
        ensures step { IsStep (calls_in result) (D.told desk.old) (D.told desk.new) }
        ensures others { ChangesOnly Slot.Out (D.told desk.old) (D.told desk.new) }
    {
        match send_line(desk, Slot::Out, self.unsent.as_slice()) {
            Ok(()) => {
                self.unsent.clear();
                Ok(())
            }
            Err(exit) => Err(exit),
        }
    }

    /// Reads the positions on where all lines that were split are taken, once what was not sent yet is sent.
    fn read_more<D: Desk>(&mut self, desk: &mut D, positions: &mut SplitLines) -> Result<(), Exit>
        requires lines { IsPositionLines positions.old }
        requires side { IsTrue (D.told desk.old Slot.Side).is_open }
        requires out { IsTrue (D.told desk.old Slot.Out).is_open }
        ensures reads { ReadsMorePositions S.rules S.StandsAt self.old positions.old (D.told desk.old)
            self.new positions.new (D.told desk.new) result }
        ensures lines { OnOk result (IsPositionLines positions.new) }
        ensures next { OnOk result (HasNext positions.new) }
        ensures count { self.new.count ≡ self.old.count }
        ensures exits { IfErr result IsPositionExit }
        ensures step { IsStep (calls_in result) (D.told desk.old) (D.told desk.new) }
    {
        if positions.has_line() {
            return Ok(());
        }
        match self.send_unsent(desk) {
            Ok(()) => {}
            Err(exit) => return Err(exit),
        }
        read_on(positions, desk)
    }

    /// Sends what was not sent yet, and then ends with this exit.
    fn end_at<D: Desk>(&mut self, desk: &mut D, exit: Exit) -> Exit
        requires calls { exit_calls exit ≡ None }
        requires exits { IsPositionExit exit }
        requires out { IsTrue (D.told desk.old Slot.Out).is_open }
        ensures ends { EndsAllSent self.old.unsent.items
            (D.told desk.old Slot.Out) (D.told desk.new Slot.Out) exit result }
        ensures exits { IsPositionExit result }
        ensures step { IsStep (exit_calls result) (D.told desk.old) (D.told desk.new) }
        ensures others { ChangesOnly Slot.Out (D.told desk.old) (D.told desk.new) }
    {
        if let Err(failed) = self.send_unsent(desk) {
            return failed;
        }
        exit
    }

    /// Settles the next line, or answers that there is none.
    fn settle_next<D: Desk>(
        &mut self,
        desk: &mut D,
        positions: &mut SplitLines,
    ) -> Result<bool, Exit>
        requires may { MaySettle S.rules S.StandsAt self.old positions.old (D.told desk.old) }
        requires lines { IsPositionLines positions.old }
        requires few { self.old.count ≤ POSITION_LINES_MAX }
        requires side { IsTrue (D.told desk.old Slot.Side).is_open }
        requires out { IsTrue (D.told desk.old Slot.Out).is_open }
        ensures goes { GoesOnePosition S.rules S.StandsAt self.old positions.old (D.told desk.old)
            self.new positions.new (D.told desk.new) result }
        ensures reads { OnOk result (IsPositionLines positions.new) }
        ensures lines { IfOk result (λ more. IsTrue more → self.new.count ≡ self.old.count + 1) }
        ensures few { OnOk result (self.new.count ≤ POSITION_LINES_MAX) }
        ensures exits { IfErr result IsPositionExit }
        ensures step { IsStep (calls_in result) (D.told desk.old) (D.told desk.new) }
    {
        match self.read_more(desk, positions) {
            Ok(()) => {}
            Err(exit) => return Err(exit),
        }
        if !positions.has_line() {
            return match bad_behind(positions.rest(), self.count) {
                None => Ok(false),
                Some(cause) => Err(bad_line(self.count, cause)),
            };
        }
        if self.count == POSITION_LINES_MAX {
            return Err(self.end_at(desk, bad_line(self.count, PositionCause::TooMany)));
        }
        match self.settle_line(&positions.fields()) {
            Ok(()) => {
                positions.take();
                Ok(true)
            }
            Err(exit) => Err(self.end_at(desk, exit)),
        }
    }

    /// Settles each line.
    fn settle_all<D: Desk>(&mut self, desk: &mut D, positions: &mut SplitLines) -> Result<(), Exit>
        requires may { MaySettle S.rules S.StandsAt self.old positions.old (D.told desk.old) }
        requires lines { IsPositionLines positions.old }
        requires few { self.old.count ≤ POSITION_LINES_MAX }
        requires side { IsTrue (D.told desk.old Slot.Side).is_open }
        requires out { IsTrue (D.told desk.old Slot.Out).is_open }
        ensures all { GoesToLastPosition S.rules S.StandsAt self.old positions.old (D.told desk.old)
            self.new (D.told desk.new) result }
        ensures exits { IfErr result IsPositionExit }
        ensures step { IsStep (calls_in result) (D.told desk.old) (D.told desk.new) }
    {
        'lines: loop {
            match self.settle_next(desk, positions) {
                Ok(true) => {}
                Ok(false) => return Ok(()),
                Err(exit) => return Err(exit),
            }
        }
    }

    /// Sends the last lines.
    fn finish<D: Desk>(&mut self, desk: &mut D) -> Exit
        requires may { MayEndPositions S.rules S.StandsAt self.old (D.told desk.old) }
        requires out { IsTrue (D.told desk.old Slot.Out).is_open }
        ensures ends { EndsPositionRun S.rules S.StandsAt self.old (D.told desk.old) (D.told desk.new) result }
        ensures exits { IsPositionExit result }
        ensures step { IsStep (exit_calls result) (D.told desk.old) (D.told desk.new) }
    {
        self.line.clear();
        match self.sheet.end(self.count, &mut self.line) {
            Ok(()) => {}
            Err(NoMemory) => return Exit::NoMemory,
        }
        match send_line(desk, Slot::Out, self.line.as_slice()) {
            Ok(()) => Exit::Done,
            Err(exit) => exit,
        }
    }
}

/// Reads a feed to its end, answers its opening, and sends the answer's certificate and then its line.
fn open_run<B: AnswersOpening, D: Desk>(
    alloc: Global,
    book: B,
    desk: &mut D,
) -> Result<PositionRun<B::Sheet>, Exit>
    requires book { B.StandsFor book [] }
    requires feed { IsTrue (D.told desk.old Slot.Feed).is_open }
    requires certs { IsTrue (D.told desk.old Slot.Certs).is_open }
    requires out { IsTrue (D.told desk.old Slot.Out).is_open }
    ensures opens { OpensRun B.Sheet.rules B.Sheet.StandsAt (held_in (D.told desk.old)) (feed_told (D.told desk.old))
        (D.told desk.old) (D.told desk.new) result }
    ensures side { D.told desk.new Slot.Side ≡ D.told desk.old Slot.Side }
    ensures exits { IfErr result IsPositionExit }
    ensures step { IsStep (calls_in result) (D.told desk.old) (D.told desk.new) }
{
    let mut feed = match FeedReader::new(alloc, book) {
        Ok(feed) => feed,
        Err(NoMemory) => return Err(Exit::NoMemory),
    };
    match feed.read_to_end(desk) {
        Ok(()) => {}
        Err(stop) => return Err(Exit::from(stop)),
    }
    let mut certificate = Vec::new(alloc);
    let mut line = Vec::new(alloc);
    let sheet = match feed.taker().answer_opening(&mut certificate, &mut line) {
        Ok(sheet) => sheet,
        Err(NoMemory) => return Err(Exit::NoMemory),
    };
    match send_both(desk, certificate.as_slice(), line.as_slice()) {
        Ok(()) => Ok(PositionRun {
            sheet,
            count: 0,
            line,
            unsent: Vec::new(alloc),
        }),
        Err(exit) => Err(exit),
    }
}

/// Settles each line of a file of positions on the opening of a feed, by what takes up the feed's events. All
/// slots are open.
///
/// Nothing is sent before the feed is read to its end. The opening's certificate is sent whole before
/// anything of its line, and each line of positions is answered before the device is asked for bytes behind it.
/// Lines that came together are answered together.
pub fn settle_positions<B: AnswersOpening, D: Desk>(alloc: Global, book: B, desk: &mut D) -> Exit
    requires book { B.StandsFor book [] }
    requires feed { IsTrue (D.told desk.old Slot.Feed).is_open }
    requires side { IsTrue (D.told desk.old Slot.Side).is_open }
    requires certs { IsTrue (D.told desk.old Slot.Certs).is_open }
    requires out { IsTrue (D.told desk.old Slot.Out).is_open }
    ensures ends { HasEndedPositions B.Sheet.rules (held_in (D.told desk.old)) (feed_told (D.told desk.old))
        (positions_told (D.told desk.old)) (D.told desk.old) (D.told desk.new) result }
    ensures exits { IsPositionExit result }
    ensures step { IsStep (exit_calls result) (D.told desk.old) (D.told desk.new) }
{
    let mut positions = match SplitLines::new(alloc, Slot::Side, POSITION_LINE_LEN_MAX) {
        Ok(positions) => positions,
        Err(NoMemory) => return Exit::NoMemory,
    };
    let mut run = match open_run(alloc, book, desk) {
        Ok(run) => run,
        Err(exit) => return exit,
    };
    match run.settle_all(desk, &mut positions) {
        Ok(()) => run.finish(desk),
        Err(exit) => exit,
    }
}
