//! The command `drill`: a sample feed is made and replayed in memory, and the answers to its ticks are counted.

ghost use Rattle.std.specs.Prelude.{◌≡◌, ◌++◌, ◌<◌, ◌≤◌, ◌∷◌, IfOk, OnOk};
ghost use Rattle.vx_desk.specs.Told.{ChangesOnly, OutIsOpen};
ghost use Rattle.vx_make.specs.Feed.{make_events};
ghost use Rattle.vx_desk.specs.Calls.{Failures};
ghost use Rattle.vx_feed.specs.Written.{count_text};
ghost use Rattle.vx_drivers.specs.Exits.{exit_calls};
ghost use Rattle.vx_cli.specs.DrillRuns.{AnswersAreFew, CountsText, HasCounted, drill_line, kinds_line};
ghost use Rattle.vx_cli.specs.DrillText.{Drills};
ghost use Rattle.vx_cli.specs.Runs.{DrillsTo, IsMakeExit};

use crate::replay::tick_minute;
use crate::text_desk::TextDesk;
use std::alloc::Global;
use vx_desk::{Desk, Slot, send};
use vx_drivers::text::{push_number, push_text};
use vx_drivers::{Exit, TakesEvents};
use vx_feed::Event;
use vx_make::limits::{STATES, TICKS_MAX};
use vx_make::make_feed;
use vx_num::NoMemory;
use vx_reading::{FeedReader, FeedStop};
use vx_replay::{Replay, TickAnswer};

/// How many lines a feed has, and how many of the answers to its ticks are of each kind.
#[derive(Clone, Copy)]
struct AnswerCounts {
    lines: u64,
    published: u64,
    undecided: u64,
    refused: u64,
}

/// The replay of a feed, with the counts of its lines so far.
#[derive(Drop)]
struct CountedReplay {
    replay: Replay,
    counts: AnswerCounts,
}

impl AnswerCounts {
    ghost use Rattle.std.specs.Prelude.{◌≡◌, ◌+◌, ◌<◌};
    ghost use Rattle.vx_feed.specs.declared.limits.TheConstants.{LINES_MAX};
    ghost use Rattle.vx_cli.specs.DrillRuns.{AnswersAreFew, no_counts, one_of};
    ghost use Rattle.vx_cli.specs.ReplayText.{is_published, is_refused, is_undecided};

    /// The counts before the first line.
    fn none() -> AnswerCounts
        ensures { result ≡ no_counts }
    {
        AnswerCounts {
            lines: 0,
            published: 0,
            undecided: 0,
            refused: 0,
        }
    }

    /// Counts one line more that is no tick.
    fn count_line(&mut self)
        requires room { self.old.lines < LINES_MAX }
        ensures lines { self.new.lines ≡ self.old.lines + 1 }
        ensures published { self.new.published ≡ self.old.published }
        ensures undecided { self.new.undecided ≡ self.old.undecided }
        ensures refused { self.new.refused ≡ self.old.refused }
    {
        self.lines += 1;
    }

    /// Counts one line more, with its answer where it is a tick.
    fn count(&mut self, answer: &Option<TickAnswer>)
        requires room { self.old.lines < LINES_MAX }
        requires few { AnswersAreFew self.old }
        ensures lines { self.new.lines ≡ self.old.lines + 1 }
        ensures published { self.new.published ≡ self.old.published + one_of is_published answer.now }
        ensures undecided { self.new.undecided ≡ self.old.undecided + one_of is_undecided answer.now }
        ensures refused { self.new.refused ≡ self.old.refused + one_of is_refused answer.now }
    {
        self.lines += 1;
        match answer {
            Some(TickAnswer::Published { .. }) => self.published += 1,
            Some(TickAnswer::UndecidedCents { .. }) => self.undecided += 1,
            Some(TickAnswer::UndecidedForward { .. }) => self.undecided += 1,
            Some(TickAnswer::Refused { .. }) => self.refused += 1,
            None => {}
        }
    }
}

impl CountedReplay {
    ghost use Rattle.std.specs.Prelude.{◌≡◌, None};
    ghost use Rattle.vx_reading.specs.Takes.{MayTakeUp, KeepsStanding, TakesUp};
    ghost use Rattle.vx_cli.specs.DrillRuns.{CountsStandFor};
    ghost use Rattle.vx_feed.specs.Order.{tick_minute};

    /// Takes up an event, and counts what it is answered.
    fn step(&mut self, event: Event) -> Result<(), NoMemory>
        requires lawful { MayTakeUp CountsStandFor self.old event }
        ensures taken { TakesUp CountsStandFor self.old event self.new result }
        ensures kept { KeepsStanding CountsStandFor self.old self.new result }
    {
        let answer = self.replay.step(&event)?;
        self.counts.count(&answer);
        Ok(())
    }

    /// Takes up an event that is no tick. An answer is large, and none is made here.
    fn take_up(&mut self, event: Event) -> Result<(), NoMemory>
        requires lawful { MayTakeUp CountsStandFor self.old event }
        requires no_tick { tick_minute event ≡ None }
        ensures taken { TakesUp CountsStandFor self.old event self.new result }
        ensures kept { KeepsStanding CountsStandFor self.old self.new result }
    {
        self.replay.take_up(&event)?;
        self.counts.count_line();
        Ok(())
    }
}

impl TakesEvents for CountedReplay {
    ghost use Rattle.vx_cli.specs.DrillRuns.{CountsStandFor};

    ghost StandsFor = { CountsStandFor };

    fn take(&mut self, event: Event) -> Result<(), NoMemory> {
        match tick_minute(event) {
            Some(_time) => self.step(event),
            None => self.take_up(event),
        }
    }
}

/// Replays a feed's text in memory, which is read line by line as any feed is, and counts the answers to its
/// ticks.
fn count_answers(alloc: Global, text: &[u8]) -> Result<AnswerCounts, FeedStop>
    ensures { CountsText text.now result }
{
    let mut desk = TextDesk::new(text);
    let counting = CountedReplay {
        replay: Replay::new(alloc)?,
        counts: AnswerCounts::none(),
    };
    let mut feed = FeedReader::new(alloc, counting)?;
    match feed.read_to_end(&mut desk) {
        Ok(()) => Ok(feed.taker().counts),
        Err(stop) => Err(stop),
    }
}

/// The want of memory for which a feed was not read on.
fn want_of(stop: FeedStop) -> NoMemory
    requires { stop ≡ FeedStop.NoMemory }
{
    match stop {
        FeedStop::NoMemory => NoMemory,
        FeedStop::BadLine { .. } | FeedStop::Device => unreachable!(),
    }
}

/// Makes the sample feed of a number with so many ticks, and counts the answers to them.
fn count_sample(alloc: Global, number: u32, ticks: u32) -> Result<AnswerCounts, NoMemory>
    requires states { number < STATES }
    requires some { 1 ≤ ticks }
    requires most { ticks ≤ TICKS_MAX }
    ensures { IfOk result (HasCounted (make_events number ticks)) }
{
    let feed = make_feed(alloc, number, ticks)?;
    match count_answers(alloc, feed.as_slice()) {
        Ok(counts) => Ok(counts),
        // A sample feed is lawful, and a text in memory is read without a device.
        Err(stop) => Err(want_of(stop)),
    }
}

/// Appends a comma and a number.
fn push_count(alloc: Global, line: &mut Vec<u8>, number: u64) -> Result<(), NoMemory>
    ensures { OnOk result (line.new.items ≡ line.old.items ++ 44 ∷ count_text number) }
{
    push_text(line, ",")?;
    push_number(alloc, line, number)
}

/// Appends how many answers are of each kind, behind a comma, and the end of the line.
fn push_kinds(alloc: Global, line: &mut Vec<u8>, counts: AnswerCounts) -> Result<(), NoMemory>
    ensures { OnOk result (line.new.items ≡ line.old.items ++ 44 ∷ kinds_line counts) }
{
    push_count(alloc, line, counts.published)?;
    push_count(alloc, line, counts.undecided)?;
    push_count(alloc, line, counts.refused)?;
    push_text(line, "\n")
}

/// Appends the line of the counts.
fn push_counts(alloc: Global, line: &mut Vec<u8>, counts: AnswerCounts) -> Result<(), NoMemory>
    requires { AnswersAreFew counts }
    ensures { OnOk result (line.new.items ≡ line.old.items ++ drill_line counts) }
{
    let answers = counts.published + counts.undecided + counts.refused;
    push_text(line, "DRILL")?;
    push_count(alloc, line, counts.lines)?;
    push_count(alloc, line, answers)?;
    push_kinds(alloc, line, counts)
}

/// Writes the line of `drill`.
fn write_drill(alloc: Global, number: u32, ticks: u32) -> Result<Vec<u8>, NoMemory>
    requires states { number < STATES }
    requires some { 1 ≤ ticks }
    requires most { ticks ≤ TICKS_MAX }
    ensures { IfOk result (λ line. Drills number ticks line.items) }
{
    let counts = count_sample(alloc, number, ticks)?;
    let mut line = Vec::new(alloc);
    push_counts(alloc, &mut line, counts)?;
    Ok(line)
}

/// Makes and replays the sample feed of a number below 2^31, with so many ticks, 1 to 390, and sends how they
/// are answered.
pub(crate) fn drill_sample<D: Desk>(alloc: Global, desk: &mut D, number: u32, ticks: u32) -> Exit
    requires states { number < STATES }
    requires some { 1 ≤ ticks }
    requires most { ticks ≤ TICKS_MAX }
    requires out { OutIsOpen (D.told desk.old) }
    ensures drills { DrillsTo number ticks (D.told desk.old Slot.Out) (D.told desk.new Slot.Out) result }
    ensures others { ChangesOnly Slot.Out (D.told desk.old) (D.told desk.new) }
    ensures failures { Failures (exit_calls result) (D.told desk.old) (D.told desk.new) }
    ensures exits { IsMakeExit result }
{
    let line = match write_drill(alloc, number, ticks) {
        Ok(line) => line,
        Err(NoMemory) => return Exit::NoMemory,
    };
    match send(desk, Slot::Out, line.as_slice()) {
        Ok(()) => Exit::Done,
        Err(_) => Exit::WriteFault { slot: Slot::Out },
    }
}
