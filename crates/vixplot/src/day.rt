//! A day: its ticks in order, and what is told of them.

ghost use Rattle.std.specs.Prelude.{◌≡◌, ◌≤◌, ◌++◌, [], ◌∷◌, false, IfErr, IfNone, IfOk, IfSome, OnErr, OnOk, All, Contains, IsTrue, MatchBool, count_by};
ghost use Rattle.std.proofs.Props.{props};
ghost use Rattle.vixplot.specs.Answers.{IsLineInRange, IsTickInRange, shows_figure, shows_refusal, shows_undecided, mark_of};
ghost use Rattle.vixplot.specs.Days.{AreMarks, IsInTime, IsDayFault, IsNext, IsTickFault, IsTimeBack, counts_of, figures_of, ends_day, ticks_with};

use crate::answer::{Answer, Counts, Line, Tick};
use crate::fault::Fault;
use crate::limits::TICKS_MAX;
use std::alloc::{AllocError, Global};

/// The ticks of a day, in the order of their times.
#[derive(Drop)]
pub struct Day {
    pub ticks: Vec<Tick>,
    pub has_end: bool,
    pub ghost in_range: { All IsTickInRange ticks.items } by { Prim.hlevel props },
}

/// A figure of the day, in hundredths of a point, and its minute.
#[derive(Clone, Copy)]
pub struct Mark {
    pub minute: u16,
    pub cents: u32,
}

/// The first and the last figure, and a lowest and a highest one.
#[derive(Clone, Copy)]
pub struct Marks {
    pub first: Mark,
    pub last: Mark,
    pub low: Mark,
    pub high: Mark,
}

impl Day {
    /// A day with no tick.
    pub fn new(alloc: Global) -> Day
        ensures { result.ticks.items ≡ [] }
    {
        Day {
            ticks: Vec::new(alloc),
            has_end: false,
        }
    }

    /// Takes the next line.
    pub fn take(&mut self, line: Line) -> Result<(), Fault>
        requires range { IsLineInRange line }
        ensures ticks { OnOk result (self.new.ticks.items ≡ ticks_with self.old.ticks.items line) }
        ensures end { OnOk result (self.new.has_end ≡ ends_day line) }
        ensures before { OnOk result (self.old.has_end ≡ false) }
        ensures next { OnOk result (IsNext self.old.ticks.items line) }
        ensures refused { OnErr result (self.new.ticks.items ≡ self.old.ticks.items) }
        ensures kept { OnErr result (self.new.has_end ≡ self.old.has_end) }
        ensures causes { IfErr result (IsDayFault self.old.ticks.items self.old.has_end line) }
    {
        if self.has_end {
            return Err(Fault::AfterEnd);
        }
        match line {
            Line::Tick(tick) => self.push(tick),
            Line::End(counts) => self.end(counts),
        }
    }

    fn push(&mut self, tick: Tick) -> Result<(), Fault>
        requires range { IsTickInRange tick }
        ensures pushed { OnOk result (self.new.ticks.items ≡ self.old.ticks.items ++ tick ∷ []) }
        ensures kept { self.new.has_end ≡ self.old.has_end }
        ensures next { OnOk result (IsNext self.old.ticks.items (Line.Tick tick)) }
        ensures refused { OnErr result (self.new.ticks.items ≡ self.old.ticks.items) }
        ensures causes { IfErr result (IsTickFault self.old.ticks.items tick) }
    {
        if self.ticks.len() >= TICKS_MAX {
            return Err(Fault::TooMany);
        }
        if is_time_back(&self.ticks, tick) {
            return Err(Fault::TimeBack);
        }
        self.ticks.push(tick)?;
        Ok(())
    }

    fn end(&mut self, counts: Counts) -> Result<(), Fault>
        ensures kept { self.new.ticks ≡ self.old.ticks }
        ensures ended { OnOk result (IsTrue self.new.has_end) }
        ensures counted { OnOk result (counts ≡ counts_of self.old.ticks.items) }
        ensures refused { OnErr result (self.new.has_end ≡ self.old.has_end) }
        ensures cause { IfErr result (λ fault. fault ≡ Fault.EndCount) }
        ensures miscounted { OnErr result (¬ (counts ≡ counts_of self.old.ticks.items)) }
    {
        if counts != counts_of(&self.ticks) {
            return Err(Fault::EndCount);
        }
        self.has_end = true;
        Ok(())
    }
}

/// The time of a tick is earlier than that of the last of these.
fn is_time_back(ticks: &[Tick], tick: Tick) -> bool
    ensures { MatchBool result (IsTimeBack ticks.now tick) (IsInTime ticks.now tick) }
{
    match ticks.last() {
        Some(last) => tick.minute < last.minute,
        None => false,
    }
}

/// How many ticks there are, and how they are answered.
pub fn counts_of(ticks: &[Tick]) -> Counts
    ensures { result ≡ counts_of ticks.now }
{
    Counts {
        ticks: ticks.len() as u64,
        published: count_published(ticks),
        undecided: count_undecided(ticks),
        refused: count_refused(ticks),
    }
}

fn count_published(ticks: &[Tick]) -> u64
    ensures { result ≡ count_by (λ tick. shows_figure tick.answer) ticks.now }
{
    ticks
        .iter()
        .filter(|tick| tick.answer.is_published())
        .count() as u64
}

fn count_undecided(ticks: &[Tick]) -> u64
    ensures { result ≡ count_by (λ tick. shows_undecided tick.answer) ticks.now }
{
    ticks
        .iter()
        .filter(|tick| tick.answer.is_undecided())
        .count() as u64
}

fn count_refused(ticks: &[Tick]) -> u64
    ensures { result ≡ count_by (λ tick. shows_refusal tick.answer) ticks.now }
{
    ticks.iter().filter(|tick| tick.answer.is_refused()).count() as u64
}

/// The figures of some ticks, in order.
pub fn figures_of(alloc: Global, ticks: &[Tick]) -> Result<Vec<Mark>, AllocError>
    ensures { IfOk result (λ figures. figures.items ≡ figures_of ticks.now) }
{
    ticks.iter().filter_map(mark_of).collect(alloc)
}

/// The figure of a tick.
fn mark_of(tick: &Tick) -> Option<Mark>
    ensures { result ≡ mark_of tick.now }
{
    match tick.answer {
        Answer::Figure(cents) => Some(Mark {
            minute: tick.minute,
            cents,
        }),
        _ => None,
    }
}

/// The figures to be told, where there is one.
pub fn marks_of(figures: &[Mark]) -> Option<Marks>
    ensures some { IfSome result (AreMarks figures.now) }
    ensures none { IfNone result (figures.now ≡ []) }
{
    Some(Marks {
        first: *figures.first()?,
        last: *figures.last()?,
        low: lowest(figures)?,
        high: highest(figures)?,
    })
}

/// A lowest of some figures.
fn lowest(figures: &[Mark]) -> Option<Mark>
    ensures member { IfSome result (Contains figures.now) }
    ensures lowest { IfSome result (λ low. All (λ mark. low.cents ≤ mark.cents) figures.now) }
    ensures none { IfNone result (figures.now ≡ []) }
{
    figures.iter().copied().min_by_key(|mark| mark.cents)
}

/// A highest of some figures.
fn highest(figures: &[Mark]) -> Option<Mark>
    ensures member { IfSome result (Contains figures.now) }
    ensures highest { IfSome result (λ high. All (λ mark. mark.cents ≤ high.cents) figures.now) }
    ensures none { IfNone result (figures.now ≡ []) }
{
    figures.iter().copied().max_by_key(|mark| mark.cents)
}
