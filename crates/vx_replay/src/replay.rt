//! The replay of a day's feed, one event after another.

ghost use Rattle.std.specs.Prelude.{◌≡◌, ◌≢◌, ℕ, ◌<◌, ◌≤◌, ◌^◌, List, [], ◌∷◌, ◌++◌, Some, None, Ok, IfOk, OnOk, OnErr, slice_get};
ghost use Rattle.vx_feed.specs.declared.events.Event.{Event};
ghost use Rattle.vx_replay.specs.StandsFor.{HasPlace, MayStep, OfEvents, ReplayStandsFor, ReplayStandsStill, Steps as StepsTo};
ghost use Rattle.vx_replay.specs.Stepped.{IsAnswerNext, IsStepAnswer};
ghost use Rattle.vx_replay.specs.StripsAfter.{AreKeptAfter, AreKeptAfterTick};

#[cfg(test)]
mod kept_tests;

use crate::answer::TickAnswer;
use crate::tick::answer_tick;
use std::alloc::Global;
use std::marker::Brand;
use std::sync::ledger::{Blank, Ledger};
use vx_book::Book;
use vx_claims::limits::SCALE;
use vx_clock::Expiry;
use vx_feed::Event;
use vx_feed::limits::EXPIRIES_MAX;
use vx_num::{NoMemory, Steps};
use vx_sum::KeptStrip;

/// What the events of a feed so far say, and one strip for each declared expiry, kept from one tick to
/// the next so that a tick divides only the rows that changed since.
///
/// It stands for a lawful list of events, and keeps none of them.
#[derive(Drop)]
pub struct Replay {
    alloc: Global,
    book: Book,
    // One for each expiry, in order of declaration.
    kept: Vec<KeptStrip<SCALE>>,
}

impl Replay {
    /// The replay of no event.
    pub fn new(alloc: Global) -> Result<Replay, NoMemory>
        ensures { IfOk result (λ replay. ReplayStandsFor replay []) }
    {
        Ok(Replay {
            alloc,
            book: Book::new(alloc)?,
            kept: Vec::with_capacity(alloc, EXPIRIES_MAX)?,
        })
    }

    /// The kept strip of the expiry at this place in order of declaration, from 0. Takes no memory.
    pub fn kept(&self, i: usize) -> &KeptStrip<SCALE>
        requires { HasPlace self.now i }
        ensures { slice_get self.now.kept.items i ≡ Some result.now }
    {
        &self.kept[i]
    }

    /// Takes up an event that is lawful next, and answers a tick. The answer is the tick function's over
    /// the events before the tick, for 30 days and windows of 7: a figure with an accepted certificate,
    /// the first refusal that holds, or what is undecided; there is none just where the event is no tick.
    ///
    /// The replay then stands for the events with this one at their end.
    ///
    /// # Errors
    ///
    /// `NoMemory`: the replay stands for the events that it stood for before, and can go on.
    pub fn step(&mut self, e: &Event) -> Result<Option<TickAnswer>, NoMemory>
        requires { MayStep self.old e.now }
        ensures stands { OnOk result (StepsTo self.old e.now self.new) }
        ensures refused { OnErr result (ReplayStandsStill self.old self.new) }
        ensures answer { OfEvents self.old e.now (λ events. IfOk result (IsStepAnswer events e.now)) }
        ensures kept { (count : ℕ) × OfEvents self.old e.now (λ events.
            AreKeptAfter events e.now self.old.kept.items self.new.kept.items 0 count result) }
    {
        self.step_with::<Brand>(e, Blank::new(1))
    }

    // The same over a ledger for the counter.
    fn step_with<L: Ledger>(
        &mut self,
        e: &Event,
        blank: Blank,
    ) -> Result<Option<TickAnswer>, NoMemory>
        requires may { MayStep self.old e.now }
        requires name { blank.name ≡ L.name }
        requires parts { blank.parts ≡ L.parts }
        requires shares { 0 < L.parts }
        ensures stands { OnOk result (StepsTo self.old e.now self.new) }
        ensures refused { OnErr result (ReplayStandsStill self.old self.new) }
        ensures answer { OfEvents self.old e.now (λ events. IfOk result (IsStepAnswer events e.now)) }
        ensures kept { (count : ℕ) × OfEvents self.old e.now (λ events.
            AreKeptAfter events e.now self.old.kept.items self.new.kept.items 0 count result) }
    {
        let mut steps = Steps::<L>::open(blank);
        self.step_counted(e, &mut steps)
    }

    /// What [`Replay::step`] does and answers, with one step counted for each row that is divided.
    ///
    /// After a figure, undecided cents or a square below zero the kept strips of the two terms hold the
    /// runs' strips and sums, and the count rose by exactly their touched rows. After every other answer
    /// to a tick, and after `NoMemory`, each of the two holds what it held before, or the selected strip
    /// with its sum, and the count rose by at most the touched rows of the selected strips. A declared
    /// expiry has a new strip. All other strips hold what they held. The count is at most `2^62` before.
    pub fn step_counted<L: Ledger>(
        &mut self,
        e: &Event,
        steps: &mut Steps<L>,
    ) -> Result<Option<TickAnswer>, NoMemory>
        requires may { MayStep self.old e.now }
        requires count { steps.old ≤ 2 ^ 62 }
        ensures stands { OnOk result (StepsTo self.old e.now self.new) }
        ensures refused { OnErr result (ReplayStandsStill self.old self.new) }
        ensures answer { OfEvents self.old e.now (λ events. IfOk result (IsStepAnswer events e.now)) }
        ensures kept { OfEvents self.old e.now (λ events.
            AreKeptAfter events e.now self.old.kept.items self.new.kept.items steps.old steps.new result) }
    {
        match *e {
            Event::Tick { time } => {
                let answer = self.tick(time, steps)?;
                Ok(Some(answer))
            }
            _ => {
                self.take_up(e)?;
                Ok(None)
            }
        }
    }

    /// Takes up an event that is lawful next and no tick, so that there is nothing to answer.
    ///
    /// The replay then stands for the events with this one at their end. A declared expiry has a new strip,
    /// all other strips hold what they held, and no row is divided.
    ///
    /// # Errors
    ///
    /// `NoMemory`: the replay stands for the events that it stood for before, its strips hold what they held,
    /// and it can go on.
    pub fn take_up(&mut self, e: &Event) -> Result<(), NoMemory>
        requires may { MayStep self.old e.now }
        requires no_tick { (time : ℕ) → e.now ≢ Event.Tick time }
        ensures stands { OnOk result (StepsTo self.old e.now self.new) }
        ensures refused { OnErr result (ReplayStandsStill self.old self.new) }
        ensures kept { OnOk result ((events : List Event) (count : ℕ)
            → AreKeptAfter events e.now self.old.kept.items self.new.kept.items count count (Ok None)) }
        ensures same { OnErr result (self.new.kept.items ≡ self.old.kept.items) }
    {
        match *e {
            Event::Expiry(expiry) => {
                self.declare(expiry)?;
                Ok(())
            }
            _ => {
                self.book.apply(e)?;
                Ok(())
            }
        }
    }

    // Answers a tick over the events before it, and takes it up.
    fn tick<L: Ledger>(&mut self, time: u16, steps: &mut Steps<L>) -> Result<TickAnswer, NoMemory>
        requires may { MayStep self.old (Event.Tick time) }
        requires count { steps.old ≤ 2 ^ 62 }
        ensures stands { OnOk result (StepsTo self.old (Event.Tick time) self.new) }
        ensures refused { OnErr result (ReplayStandsStill self.old self.new) }
        ensures answer { OfEvents self.old (Event.Tick time) (λ events. IfOk result (IsAnswerNext events time)) }
        ensures kept { OfEvents self.old (Event.Tick time) (λ events.
            AreKeptAfterTick events time self.old.kept.items self.new.kept.items steps.old steps.new result) }
    {
        let kept = self.kept.as_mut_slice();
        let answer = answer_tick(self.alloc, &self.book, kept, time, steps)?;
        self.book.apply(&Event::Tick { time })?;
        Ok(answer)
    }

    // Declares an expiry, with a new strip.
    fn declare(&mut self, expiry: Expiry) -> Result<(), NoMemory>
        requires { MayStep self.old (Event.Expiry expiry) }
        ensures stands { OnOk result (StepsTo self.old (Event.Expiry expiry) self.new) }
        ensures refused { OnErr result (ReplayStandsStill self.old self.new) }
        ensures one_more { OnOk result (self.new.kept.items ≡ self.old.kept.items ++ None ∷ []) }
        ensures same { OnErr result (self.new.kept.items ≡ self.old.kept.items) }
    {
        self.kept.push(KeptStrip::new(self.alloc)?)?;
        match self.book.apply(&Event::Expiry(expiry)) {
            Ok(()) => Ok(()),
            Err(refused) => {
                let _ = self.kept.pop();
                Err(refused)
            }
        }
    }
}
