//! Lines that were read ahead and split together.

ghost use Rattle.std.specs.Prelude.{◌≡◌, ◌≢◌, MatchBool};

use crate::stop::ReadStop;
use std::alloc::Global;
use vx_desk::{Desk, Line, LineReader, ReadFault, Slot};
use vx_fields::{FieldTable, Fields, LineBlock, Unsplit, plain_lines, why_unsplit};
use vx_num::NoMemory;

/// The most bytes of lines that are split together. A reader of short lines holds fewer, about what a processor keeps
/// at hand, so that all that it holds is split at once and no few lines are left for a block of their own.
const BLOCK_LEN: usize = 131_072;

/// What comes behind the lines that were split.
#[derive(Clone, Copy, Debug, PartialEq, Eq)]
pub enum Rest {
    /// What was not looked at yet.
    More,
    /// The end of the text.
    End,
    /// A line that cannot be split, for this reason. It is the one that was read last.
    Unsplit(Unsplit),
    /// A line with more bytes than one may have.
    TooLong,
    /// A line that no LF ends.
    NoEol,
}

impl Rest {
    fn is_more(self) -> bool
        ensures { MatchBool result (self ≡ Rest.More) (self ≢ Rest.More) }
    {
        matches!(self, Rest::More)
    }
}

/// The lines of a slot, some of them read ahead and split at their commas. They are taken one after another, and the
/// device is asked only where no whole line is in hand: so lines that come bit by bit are taken up as they come.
#[derive(Drop)]
pub struct SplitLines {
    lines: LineReader,
    block: LineBlock,
    table: FieldTable,
    /// How many lines of the table were taken.
    taken: usize,
    rest: Rest,
}

impl SplitLines {
    ghost use Rattle.std.specs.Prelude.{◌≡◌, ◌+◌, ◌<◌, ◌≤◌, ℕ, List, [], true, false, IsTrue, IfErr, IfOk, OnOk, OnErr, Some, length, map, slice_get};
    ghost use Rattle.vx_desk.specs.declared.device.Slot.{Slot};
    ghost use Rattle.vx_desk.specs.Lines.{holds_line};
    ghost use Rattle.vx_fields.specs.Lines.{fields_of_line};
    ghost use Rattle.vx_desk.specs.declared.reader.TheConstants.{LONGEST_LINE};
    ghost use Rattle.vx_desk.specs.Slots.{IsReadingSlot};
    ghost use Rattle.vx_desk.specs.Told.{ChangesOnly, Told};
    ghost use Rattle.vx_desk.specs.Calls.{IsStep};
    ghost use Rattle.vx_blocks.specs.Stops.{IsNoFault, OnFault, OnOkOrFault, failed_in};
    ghost use Rattle.vx_blocks.specs.SplitLines.{AreAhead, HasNext, IsFresh, IsReadingLines, IsSameText, has_line, is_in_hand, lines_coming};
    ghost use Rattle.vx_blocks.specs.Given.{KeepsGiven, LosesNothing, TakesNextLine};
    ghost use Rattle.vx_blocks.specs.Steps.{AddsLast, IsFaulted, KeepsTable, StepsBlock};

    /// The lines of a slot of which nothing was read. Each may have at most `limit` bytes, without its LF.
    pub fn new(alloc: Global, slot: Slot, limit: usize) -> Result<SplitLines, NoMemory>
        requires slot { IsReadingSlot slot }
        requires limit { (1 ≤ limit) × (limit ≤ LONGEST_LINE) }
        ensures { IfOk result (IsFresh slot limit) }
    {
        Ok(SplitLines {
            lines: LineReader::new(alloc, slot, limit)?,
            block: LineBlock::new(alloc),
            table: FieldTable::new(alloc),
            taken: 0,
            rest: Rest::More,
        })
    }

    /// Adds the line that was read to the block, or stops before it where it cannot be split.
    fn add(&mut self, line: &Line) -> Result<(), NoMemory>
        requires reading { IsReadingLines self.old }
        requires more { self.old.rest ≡ Rest.More }
        requires last { self.old.lines.last ≡ Some line.now }
        ensures reading { OnOk result (IsReadingLines self.new) }
        ensures adds { OnOk result (AddsLast self.old self.new) }
        ensures lines { self.new.lines ≡ self.old.lines }
        ensures kept { KeepsTable self.old self.new }
        ensures one { OnOk result (self.new.rest ≡ Rest.More → length self.new.block ≡ length self.old.block + 1) }
    {
        let bytes = self.lines.bytes(line);
        match why_unsplit(bytes) {
            None => self.block.push(bytes),
            Some(why) => {
                self.rest = Rest::Unsplit(why);
                Ok(())
            }
        }
    }

    /// Reads one more line to be split, or finds what comes in its place.
    fn read_line<D: Desk>(&mut self, desk: &mut D) -> Result<(), ReadStop>
        requires reading { IsReadingLines self.old }
        requires more { self.old.rest ≡ Rest.More }
        requires open { IsTrue (D.told desk.old self.old.lines.slot).is_open }
        ensures steps { OnOkOrFault result (StepsBlock self.old (D.told desk.old) self.new (D.told desk.new)) }
        ensures one { OnOk result (self.new.rest ≡ Rest.More → length self.new.block ≡ length self.old.block + 1) }
        ensures fault { OnFault result (IsFaulted self.old self.new) }
        ensures in_hand { holds_line self.old.lines ≡ true → (desk.new ≡ desk.old) × IfErr result IsNoFault }
        ensures comes_on { LosesNothing self.old (D.told desk.old) self.new (D.told desk.new) }
        ensures kept { KeepsTable self.old self.new }
        ensures same { IsSameText self.old self.new }
        ensures step { IsStep (failed_in self.old.lines.slot result) (D.told desk.old) (D.told desk.new) }
        ensures others { ChangesOnly self.old.lines.slot (D.told desk.old) (D.told desk.new) }
    {
        self.rest = match self.lines.next(desk) {
            Ok(Some(line)) => return Ok(self.add(&line)?),
            Ok(None) => Rest::End,
            Err(ReadFault::LineTooLong { .. }) => Rest::TooLong,
            Err(ReadFault::NoEol { .. }) => Rest::NoEol,
            Err(ReadFault::Device) => return Err(ReadStop::Device),
        };
        Ok(())
    }

    /// Adds the whole lines that the reader holds to the block, all at once, up to one that cannot be split.
    fn add_held(&mut self) -> Result<(), NoMemory>
        requires reading { IsReadingLines self.old }
        requires more { self.old.rest ≡ Rest.More }
        ensures steps { (told : Slot → Told) → OnOk result (StepsBlock self.old told self.new told) }
        ensures comes_on { (told : Slot → Told) → LosesNothing self.old told self.new told }
        ensures more { self.new.rest ≡ Rest.More }
        ensures longer { length self.old.block ≤ length self.new.block }
        ensures none { length self.new.block ≡ length self.old.block
            → holds_line self.new.lines ≡ holds_line self.old.lines }
        ensures kept { KeepsTable self.old self.new }
        ensures same { IsSameText self.old self.new }
    {
        let text = plain_lines(self.lines.held_text(BLOCK_LEN));
        let size = text.len();
        let before = self.block.len();
        self.block.push_text(text)?;
        self.lines.pass(size, self.block.len() - before);
        Ok(())
    }

    /// Reads a line to be split, and adds those that came with it.
    fn read_first<D: Desk>(&mut self, desk: &mut D) -> Result<(), ReadStop>
        requires reading { IsReadingLines self.old }
        requires more { self.old.rest ≡ Rest.More }
        requires open { IsTrue (D.told desk.old self.old.lines.slot).is_open }
        ensures steps { OnOkOrFault result (StepsBlock self.old (D.told desk.old) self.new (D.told desk.new)) }
        ensures some { OnOk result (self.new.rest ≡ Rest.More → 0 < length self.new.block) }
        ensures fault { OnFault result (IsFaulted self.old self.new) }
        ensures in_hand { holds_line self.old.lines ≡ true → (desk.new ≡ desk.old) × IfErr result IsNoFault }
        ensures comes_on { LosesNothing self.old (D.told desk.old) self.new (D.told desk.new) }
        ensures kept { KeepsTable self.old self.new }
        ensures same { IsSameText self.old self.new }
        ensures step { IsStep (failed_in self.old.lines.slot result) (D.told desk.old) (D.told desk.new) }
        ensures others { ChangesOnly self.old.lines.slot (D.told desk.old) (D.told desk.new) }
    {
        self.read_line(desk)?;
        if self.rest.is_more() {
            self.add_held()?;
        }
        Ok(())
    }

    /// Fills an empty block with the lines that are in hand. Only where there is none that can be split the device is
    /// asked for one.
    fn fill_block<D: Desk>(&mut self, desk: &mut D) -> Result<(), ReadStop>
        requires reading { IsReadingLines self.old }
        requires more { self.old.rest ≡ Rest.More }
        requires none { self.old.block ≡ [] }
        requires open { IsTrue (D.told desk.old self.old.lines.slot).is_open }
        ensures steps { OnOkOrFault result (StepsBlock self.old (D.told desk.old) self.new (D.told desk.new)) }
        ensures some { OnOk result (self.new.rest ≡ Rest.More → 0 < length self.new.block) }
        ensures fault { OnFault result (IsFaulted self.old self.new) }
        ensures in_hand { holds_line self.old.lines ≡ true → (desk.new ≡ desk.old) × IfErr result IsNoFault }
        ensures comes_on { LosesNothing self.old (D.told desk.old) self.new (D.told desk.new) }
        ensures kept { KeepsTable self.old self.new }
        ensures same { IsSameText self.old self.new }
        ensures step { IsStep (failed_in self.old.lines.slot result) (D.told desk.old) (D.told desk.new) }
        ensures others { ChangesOnly self.old.lines.slot (D.told desk.old) (D.told desk.new) }
    {
        self.add_held()?;
        if !self.block.is_empty() {
            return Ok(());
        }
        self.read_first(desk)
    }

    /// Splits the block that was read, whose lines are then taken from the first on.
    fn split(&mut self) -> Result<(), NoMemory>
        ensures lines { (self.new.lines ≡ self.old.lines) × (self.new.rest ≡ self.old.rest) }
        ensures block { self.new.block ≡ self.old.block }
        ensures first { OnOk result (self.new.taken ≡ 0) }
        ensures fields { OnOk result (self.new.table ≡ map fields_of_line self.old.block) }
    {
        self.taken = 0;
        self.table.fill(&self.block)
    }

    /// Reads on where all lines that were split are taken and there may be more. At a fault of the device no line
    /// that was read is lost, and one may read on.
    ///
    /// # Errors
    ///
    /// `Device` where a read failed, and `NoMemory`.
    pub fn read_on<D: Desk>(&mut self, desk: &mut D) -> Result<(), ReadStop>
        requires ahead { AreAhead self.old }
        requires open { IsTrue (D.told desk.old self.old.lines.slot).is_open }
        ensures ahead { OnOkOrFault result (AreAhead self.new) }
        ensures coming { OnOkOrFault result (lines_coming self.new (D.told desk.new)
            ≡ lines_coming self.old (D.told desk.old)) }
        ensures next { OnOk result (HasNext self.new) }
        ensures fault { OnFault result (is_in_hand self.new ≡ false) }
        ensures in_hand { is_in_hand self.old ≡ true → (desk.new ≡ desk.old) × IfErr result IsNoFault }
        ensures given { KeepsGiven self.old (D.told desk.old) self.new (D.told desk.new) result }
        ensures comes_on { LosesNothing self.old (D.told desk.old) self.new (D.told desk.new) }
        ensures same { IsSameText self.old self.new }
        ensures step { IsStep (failed_in self.old.lines.slot result) (D.told desk.old) (D.told desk.new) }
        ensures others { ChangesOnly self.old.lines.slot (D.told desk.old) (D.told desk.new) }
    {
        if self.has_line() || !self.rest.is_more() {
            return Ok(());
        }
        self.block.clear();
        self.fill_block(desk)?;
        Ok(self.split()?)
    }

    /// Whether a line that was split is at hand.
    pub fn has_line(&self) -> bool
        ensures { result ≡ has_line self.now }
    {
        self.taken < self.table.len()
    }

    /// The fields of the next line.
    pub fn fields(&self) -> Fields<'_>
        requires { self.now.taken < length self.now.table }
        ensures { slice_get self.now.table self.now.taken ≡ Some result }
    {
        self.table.line(self.taken)
    }

    /// Takes the next line.
    #[tactic(auto, using(crate::proofs::TakeLemmas::ahead_next, crate::proofs::TakeLemmas::takes_next))]
    pub fn take(&mut self)
        requires ahead { AreAhead self.old }
        requires at_hand { self.old.taken < length self.old.table }
        ensures taken { self.new ≡ record self.old { taken = self.old.taken + 1 } }
        ensures ahead { AreAhead self.new }
        ensures takes { (fields : List (List ℕ)) → slice_get self.old.table self.old.taken ≡ Some fields
            → TakesNextLine fields self.old self.new }
    {
        let _count = self.table.len();
        self.taken += 1;
    }

    /// What comes behind the lines that were split.
    pub fn rest(&self) -> Rest
        ensures { result ≡ self.now.rest }
    {
        self.rest
    }
}
