//! Cuts what is read from a slot into lines.

ghost use Rattle.std.specs.Prelude.{◌≡◌, ◌+◌, ◌-◌, ◌<◌, ◌≤◌, length, slice_range, take, drop, slice_index};
ghost use Rattle.std.specs.Prelude.{Some, None, Err, true, false, [], ◌∷◌, ◌++◌, IsTrue, IfOk, MatchOption, OnOk, OnErr, ◌↔◌, ◌==◌};
ghost use Rattle.std.specs.List.{list_any};
ghost use Rattle.std.specs.Io.KnownBytes.{IsAtEnd};
ghost use Rattle.vx_desk.specs.Slots.{IsReadingSlot};
ghost use Rattle.vx_desk.specs.Told.{ChangesOnly, ChangesReads, Counts, Reads};
ghost use Rattle.vx_desk.specs.Lines.{HasNoLf, AnswersNext, CountsReads, IsLineOrLong};
ghost use Rattle.vx_desk.specs.Lines.{holds_line, new_reader, to_come, next_number};
ghost use Rattle.vx_desk.specs.Coming.{TakesLine, coming};
ghost use Rattle.vx_desk.specs.Held.{IsHeldText, passed};
ghost use Rattle.vx_desk.specs.Refill.{Refills, IsFirstLf, Cuts, EndsInput};
ghost use Rattle.vx_desk.specs.declared.lines.TheConstants.{LF};

use crate::device::{Desk, Failed, Slot};
use crate::held::count_whole;
use crate::lines::{LF, Line, ReadFault};
use memchr::memchr;
use std::alloc::Global;
use std::marker::Model;
use vx_num::NoMemory;

/// The most bytes that a line of any reader may have, without its LF.
pub const LONGEST_LINE: usize = 1_048_576;

/// The least room for one read, so that a read moves a block and not a line.
const BLOCK: usize = 65_536;

/// Cuts what is read from one slot into lines, however the reads are cut. Its buffer is taken once.
#[derive(Debug, Drop)]
pub struct LineReader {
    buffer: Vec<u8>,
    slot: Slot,
    limit: usize,
    /// Where the bytes of the last line begin. They stand before those that wait.
    kept: usize,
    /// Where the bytes that wait begin.
    start: usize,
    /// Where they end.
    end: usize,
    number: u64,
    is_ended: bool,
    last: Option<Line>,
}

impl Model for LineReader {
    ghost use Rattle.std.specs.Prelude.{◌≡◌, ◌+◌, ◌≤◌, vec_len, slice_range, Some, length};
    ghost use Rattle.vx_desk.specs.declared.reader.TheConstants.{BLOCK, LONGEST_LINE};
    ghost use Rattle.vx_desk.specs.Lines.{ReaderState, bytes_given};
    ghost use Rattle.vx_desk.specs.Refill.{LiesBetween};

    ghost Value = { ReaderState };

    ghost view = { λ r. record {
      slot = r.slot;
      limit = r.limit;
      waiting = slice_range r.buffer.items r.start r.end;
      number = r.number;
      is_ended = r.is_ended;
      last = r.last;
      last_bytes = bytes_given r.last r.kept r.buffer.items;
    } };

    ghost invariant = { λ r. (r.kept ≤ r.start)
        × (r.start ≤ r.end)
        × (r.end ≤ vec_len r.buffer)
        × (r.start ≤ r.kept + r.limit + 1)
        × (r.limit + r.limit + 1 + BLOCK ≤ vec_len r.buffer)
        × (r.limit ≤ LONGEST_LINE)
        × LiesBetween r.kept r.start r.last };
}

impl LineReader {
    /// A reader of one slot whose lines have at most `limit` bytes.
    pub fn new(alloc: Global, slot: Slot, limit: usize) -> Result<LineReader, NoMemory>
        requires { (1 ≤ limit) × (limit ≤ LONGEST_LINE) }
        ensures { IfOk result (λ reader. reader ≡ new_reader slot limit) }
    {
        let buffer = vec![in alloc; 0u8; 2 * limit + 1 + BLOCK]?;
        Ok(LineReader {
            buffer,
            slot,
            limit,
            kept: 0,
            start: 0,
            end: 0,
            number: 0,
            is_ended: false,
            last: None,
        })
    }

    /// The next line of the slot, or `None` at the end of the input or behind a line that was no line.
    /// Where `holds_line` says that one is in hand, the desk is not called; and where a read fails,
    /// none is.
    #[tactic(auto, using(crate::proofs::ComingLemmas::takes_coming, crate::proofs::NextLemmas::ended_holds_none))]
    pub fn next<D: Desk>(&mut self, desk: &mut D) -> Result<Option<Line>, ReadFault>
        requires reading { IsReadingSlot self.old.slot }
        requires open { IsTrue (D.told desk.old self.old.slot).is_open }
        ensures answers { AnswersNext self.old self.new (to_come self.old (D.told desk.old self.old.slot))
            (to_come self.new (D.told desk.new self.old.slot)) result }
        ensures takes { self.old.is_ended ≡ false → TakesLine
            (coming self.old (D.told desk.old)) (coming self.new (D.told desk.new)) self.new result }
        ensures in_hand { holds_line self.old ≡ true → (desk.new ≡ desk.old) × IsLineOrLong result }
        ensures fault { result ≡ Err ReadFault.Device → holds_line self.new ≡ false }
        ensures ended { self.old.is_ended ≡ true → result ≡ Ok None }
        ensures counts { CountsReads result (D.told desk.old self.old.slot).failed_reads
            (D.told desk.new self.old.slot).failed_reads }
        ensures rest { ChangesReads (D.told desk.old self.old.slot) (D.told desk.new self.old.slot) }
        ensures others { ChangesOnly self.old.slot (D.told desk.old) (D.told desk.new) }
        ensures names { D.holds desk.new ≡ D.holds desk.old }
        ensures slot { self.new.slot ≡ self.old.slot }
        ensures limit { self.new.limit ≡ self.old.limit }
    {
        if self.is_over() {
            return Ok(None);
        }
        self.read_line(desk)
    }

    /// The next line of a reader that may give one.
    fn read_line<D: Desk>(&mut self, desk: &mut D) -> Result<Option<Line>, ReadFault>
        requires reading { IsReadingSlot self.old.slot }
        requires open { IsTrue (D.told desk.old self.old.slot).is_open }
        requires ready { self.old.is_ended ≡ false }
        ensures answers { AnswersNext self.old self.new (to_come self.old (D.told desk.old self.old.slot))
            (to_come self.new (D.told desk.new self.old.slot)) result }
        ensures in_hand { holds_line self.old ≡ true → (desk.new ≡ desk.old) × IsLineOrLong result }
        ensures fault { result ≡ Err ReadFault.Device → holds_line self.new ≡ false }
        ensures counts { CountsReads result (D.told desk.old self.old.slot).failed_reads
            (D.told desk.new self.old.slot).failed_reads }
        ensures rest { ChangesReads (D.told desk.old self.old.slot) (D.told desk.new self.old.slot) }
        ensures others { ChangesOnly self.old.slot (D.told desk.old) (D.told desk.new) }
        ensures names { D.holds desk.new ≡ D.holds desk.old }
        ensures slot { self.new.slot ≡ self.old.slot }
        ensures limit { self.new.limit ≡ self.old.limit }
    {
        let mut searched = 0;
        'fill: loop {
            if let Some(length) = self.find_lf(searched) {
                return self.cut(length);
            }
            searched = self.count_waiting();
            if self.is_past_limit() {
                return Err(self.end_too_long());
            }
            match self.refill(desk) {
                Ok(0) => return self.end_input(),
                Ok(_) => {}
                Err(Failed) => return Err(ReadFault::Device),
            }
        }
    }

    /// Whether `next` has its answer in hand: a whole line, or so many bytes that the next line is too
    /// long.
    pub fn holds_line(&self) -> bool
        ensures { result ≡ holds_line self.now }
    {
        !self.is_over() && (self.is_past_limit() || self.has_lf())
    }

    /// The bytes of the last line that `next` gave, also after later calls that gave none.
    pub fn bytes(&self, line: &Line) -> &[u8]
        requires { self.now.last ≡ Some line.now }
        ensures { result.now ≡ self.now.last_bytes }
    {
        let from = self.kept;
        let to = from + (line.end - line.start);
        &self.buffer[from..to]
    }

    /// The whole lines that wait, each with its LF, as one text: those that end within the first `most` bytes, up
    /// to the first that has more bytes than a line may have. Where there is none it is empty.
    pub fn held_text(&self, most: usize) -> &[u8]
        ensures { IsHeldText self.now most result.now }
    {
        let end = self.end.min(self.start.saturating_add(most));
        let length = count_whole(&self.buffer[self.start..end], self.limit);
        &self.buffer[self.start..self.start + length]
    }

    /// Passes over so many bytes that wait, which are so many whole lines. They count as given, and there is no last
    /// line.
    pub fn pass(&mut self, size: usize, lines: usize)
        requires within { size ≤ length self.old.waiting }
        ensures { self.new ≡ passed self.old size lines }
    {
        self.start += size;
        self.kept = self.start;
        self.number = self.number.saturating_add(lines as u64);
        self.last = None;
    }

    fn is_over(&self) -> bool
        ensures { result ≡ self.now.is_ended }
    {
        self.is_ended
    }

    fn count_waiting(&self) -> usize
        ensures { result ≡ length self.now.waiting }
    {
        self.end - self.start
    }

    fn is_past_limit(&self) -> bool
        ensures { IsTrue result ↔ (self.now.limit < length self.now.waiting) }
    {
        self.end - self.start > self.limit
    }

    fn has_lf(&self) -> bool
        ensures { result ≡ list_any (λ byte. byte == LF) self.now.waiting }
    {
        self.find_lf(0).is_some()
    }

    /// Where the first LF of the waiting bytes is. The first `searched` of them have none.
    fn find_lf(&self, searched: usize) -> Option<usize>
        requires within { searched ≤ length self.now.waiting }
        requires passed { HasNoLf (take searched self.now.waiting) }
        ensures { MatchOption result (HasNoLf self.now.waiting) (IsFirstLf self.now.waiting) }
    {
        let from = self.start + searched;
        let at = memchr(LF, &self.buffer[from..self.end])?;
        Some(searched + at)
    }

    /// Gives the waiting bytes up to an LF at `length` as the next line, or finds them too many.
    fn cut(&mut self, length: usize) -> Result<Option<Line>, ReadFault>
        requires found { IsFirstLf self.old.waiting length }
        ensures cuts { Cuts self.old self.new length result }
    {
        if length > self.limit {
            return Err(self.end_too_long());
        }
        let line = Line {
            start: self.start,
            end: self.start + length,
            number: self.number.saturating_add(1),
        };
        self.kept = line.start;
        self.start = line.end + 1;
        self.number = line.number;
        self.last = Some(line);
        Ok(Some(line))
    }

    fn end_too_long(&mut self) -> ReadFault
        ensures fault { result ≡ ReadFault.LineTooLong (next_number self.old.number) }
        ensures ended { self.new ≡ record self.old { is_ended = true } }
    {
        self.is_ended = true;
        ReadFault::LineTooLong {
            number: self.number.saturating_add(1),
        }
    }

    /// Ends the input, which has nothing after the waiting bytes.
    fn end_input(&mut self) -> Result<Option<Line>, ReadFault>
        ensures { EndsInput self.old self.new result }
    {
        if self.start == self.end {
            return Ok(None);
        }
        self.is_ended = true;
        Err(ReadFault::NoEol {
            number: self.number.saturating_add(1),
        })
    }

    /// Reads behind the waiting bytes. Where no room is left there, the last line and they move to the
    /// front first: so a byte moves twice at most, while its line comes and while it is the last.
    fn refill<D: Desk>(&mut self, desk: &mut D) -> Result<usize, Failed>
        requires reading { IsReadingSlot self.old.slot }
        requires open { IsTrue (D.told desk.old self.old.slot).is_open }
        requires within { length self.old.waiting ≤ self.old.limit }
        ensures refills { Refills self.old self.new
            (D.told desk.old self.old.slot) (D.told desk.new self.old.slot) result }
        ensures counts { Counts result (D.told desk.old self.old.slot).failed_reads
            (D.told desk.new self.old.slot).failed_reads }
        ensures rest { ChangesReads (D.told desk.old self.old.slot) (D.told desk.new self.old.slot) }
        ensures others { ChangesOnly self.old.slot (D.told desk.old) (D.told desk.new) }
        ensures names { D.holds desk.new ≡ D.holds desk.old }
    {
        let down = make_room(&mut self.buffer, self.kept, self.end);
        self.kept -= down;
        self.start -= down;
        self.end -= down;
        let outcome = read_behind(desk, self.slot, &mut self.buffer, self.end);
        let count = outcome?;
        self.end += count;
        Ok(count)
    }
}

/// Moves the part of a buffer from `start` to `end` to the front where no room is left behind it, and
/// answers by how many places it moved.
fn make_room(buffer: &mut [u8], start: usize, end: usize) -> usize
    requires ordered { start ≤ end }
    requires within { end ≤ length buffer.old }
    ensures down { result ≤ start }
    ensures part { slice_range buffer.new (start - result) (end - result) ≡ slice_range buffer.old start end }
    ensures room { end - start < length buffer.old → end - result < length buffer.old }
{
    if end < buffer.len() {
        return 0;
    }
    buffer.copy_within(start..end, 0);
    start
}

/// Reads into a buffer from a place on.
fn read_behind<D: Desk>(
    desk: &mut D,
    slot: Slot,
    buffer: &mut [u8],
    place: usize,
) -> Result<usize, Failed>
    requires reading { IsReadingSlot slot }
    requires open { IsTrue (D.told desk.old slot).is_open }
    requires within { place ≤ length buffer.old }
    ensures front { take place buffer.new ≡ take place buffer.old }
    ensures reads { Reads (drop place buffer.new) (D.told desk.old slot) (D.told desk.new slot) result }
    ensures others { ChangesOnly slot (D.told desk.old) (D.told desk.new) }
    ensures names { D.holds desk.new ≡ D.holds desk.old }
{
    desk.read(slot, &mut buffer[place..])
}
