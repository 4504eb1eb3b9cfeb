//! The command `replay`: the answers to the ticks of a feed, and the certificates of their figures.

ghost use Rattle.std.specs.Prelude.{◌≡◌, IsTrue};
ghost use Rattle.vx_desk.specs.Told.{OnlyOutIsOpen};
ghost use Rattle.vx_desk.specs.Calls.{Failures, IsStep};
ghost use Rattle.vx_drivers.specs.Exits.{exit_calls};
ghost use Rattle.vx_drivers.specs.TickExits.{IsTickExit};
ghost use Rattle.vx_replay.specs.Joinable.{CanBeWritten};
ghost use Rattle.vx_feed.specs.Order.{tick_minute};
ghost use Rattle.vx_cli.specs.Runs.{IsReplayExit, OpensToReplay, ReplaysFile, ReplaysOpen};

use crate::tick_lines::{push_certificate, push_tick, tally_of};
use std::alloc::Global;
use vx_clock::limits::INDEX_DAYS;
use vx_desk::{Desk, Slot};
use vx_drivers::{AnswersTicks, Exit, TakesEvents, Tally, answer_ticks, open_slot};
use vx_feed::Event;
use vx_num::NoMemory;
use vx_replay::{Replay, TickAnswer};

/// What a tick at a minute of the day was answered.
#[derive(Drop)]
struct TimedAnswer {
    time: u16,
    answer: TickAnswer,
    ghost can_be_written: { ∥ CanBeWritten answer ∥₁ },
}

/// The replay of a feed, with what its last event was answered: `None` where it is no tick.
#[derive(Drop)]
struct TickAnswers {
    alloc: Global,
    replay: Replay,
    last: Option<TimedAnswer>,
}

/// The minute of an event that is a tick.
pub(crate) fn tick_minute(event: Event) -> Option<u16>
    ensures { result ≡ tick_minute event }
{
    match event {
        Event::Tick { time } => Some(time),
        _ => None,
    }
}

impl TimedAnswer {
    ghost use Rattle.std.specs.Prelude.{◌++◌, List, [], ◌∷◌, length, option_map};
    ghost use Rattle.vx_feed.specs.declared.events.Event.{Event};
    ghost use Rattle.vx_replay.specs.Stepped.{IsStepAnswer};
    ghost use Rattle.vx_cli.specs.LastAnswer.{GivesTimed};

    /// What an event is answered, with its minute: `None` where it is no tick.
    fn of_event(event: Event, answer: Option<TickAnswer>) -> Option<TimedAnswer>
        requires answer { (events : List Event) × IsStepAnswer events event answer }
        ensures gives { (events : List Event) → IsStepAnswer events event answer
            → GivesTimed (events ++ event ∷ []) result }
    {
        let time = tick_minute(event)?;
        let answer = answer?;
        Some(TimedAnswer { time, answer })
    }
}

impl TickAnswers {
    ghost use Rattle.std.specs.Prelude.{◌≡◌, None};
    ghost use Rattle.vx_reading.specs.Takes.{MayTakeUp, KeepsStanding, TakesUp};
    ghost use Rattle.vx_cli.specs.LastAnswer.{AnswersStandFor};

    /// Takes up an event, and keeps what it is answered.
    fn step(&mut self, event: Event) -> Result<(), NoMemory>
        requires lawful { MayTakeUp AnswersStandFor self.old event }
        ensures taken { TakesUp AnswersStandFor self.old event self.new result }
        ensures kept { KeepsStanding AnswersStandFor self.old self.new result }
    {
        let answer = self.replay.step(&event)?;
        self.last = TimedAnswer::of_event(event, answer);
        Ok(())
    }

    /// Lets go of the last answer.
    fn let_go(&mut self)
        ensures replay { self.new.replay ≡ self.old.replay }
        ensures none { self.new.last ≡ None }
    {
        self.last = None;
    }

    /// Takes up an event that is no tick. An answer is large, and none is made or moved here.
    fn take_up(&mut self, event: Event) -> Result<(), NoMemory>
        requires lawful { MayTakeUp AnswersStandFor self.old event }
        requires no_tick { tick_minute event ≡ None }
        ensures taken { TakesUp AnswersStandFor self.old event self.new result }
        ensures kept { KeepsStanding AnswersStandFor self.old self.new result }
    {
        self.replay.take_up(&event)?;
        if self.last.is_none() {
            return Ok(());
        }
        self.let_go();
        Ok(())
    }
}

impl TakesEvents for TickAnswers {
    ghost use Rattle.vx_cli.specs.LastAnswer.{AnswersStandFor};

    ghost StandsFor = { AnswersStandFor };

    fn take(&mut self, event: Event) -> Result<(), NoMemory> {
        match tick_minute(event) {
            Some(_time) => self.step(event),
            None => self.take_up(event),
        }
    }
}

impl AnswersTicks for TickAnswers {
    ghost use Rattle.vx_cli.specs.ReplayLaws.{gives_one as gives_one_answer};
    ghost use Rattle.vx_cli.specs.ReplayRuns.{replay_rules};
    ghost use Rattle.vx_cli.specs.ReplayText.{Answered};

    ghost Answer = { Answered };

    ghost rules = { replay_rules };

    fn answer(
        &self,
        certificate: &mut Vec<u8>,
        line: &mut Vec<u8>,
    ) -> Result<Option<Tally>, NoMemory> {
        let Some(last) = &self.last else {
            return Ok(None);
        };
        push_certificate(self.alloc, certificate, &last.answer)?;
        push_tick(self.alloc, line, INDEX_DAYS, last.time, &last.answer)?;
        Ok(Some(tally_of(&last.answer)))
    }

    ghost gives_one = { gives_one_answer };
}

/// Answers each tick of the feed, with all files open.
fn replay_open<D: Desk>(alloc: Global, desk: &mut D) -> Exit
    requires feed { IsTrue (D.told desk.old Slot.Feed).is_open }
    requires certs { IsTrue (D.told desk.old Slot.Certs).is_open }
    requires out { IsTrue (D.told desk.old Slot.Out).is_open }
    ensures ends { ReplaysOpen (D.told desk.old) (D.told desk.new) result }
    ensures exits { IsTickExit result }
    ensures step { IsStep (exit_calls result) (D.told desk.old) (D.told desk.new) }
    ensures side { D.told desk.new Slot.Side ≡ D.told desk.old Slot.Side }
{
    match Replay::new(alloc) {
        Ok(replay) => answer_ticks(
            alloc,
            TickAnswers {
                alloc,
                replay,
                last: None,
            },
            desk,
        ),
        Err(NoMemory) => Exit::NoMemory,
    }
}

/// Answers each tick of a feed, and writes the certificates of the figures to a file. The feed is opened, then
/// the file of certificates.
pub(crate) fn replay_files<D: Desk>(alloc: Global, desk: &mut D, feed: &str, certs: &str) -> Exit
    requires closed { OnlyOutIsOpen (D.told desk.old) }
    ensures sends { ReplaysFile feed.now (D.holds desk.old) (D.told desk.old) (D.told desk.new) result }
    ensures exits { IsReplayExit result }
    ensures failures { Failures (exit_calls result) (D.told desk.old) (D.told desk.new) }
    ensures opens { OpensToReplay feed.now certs.now (D.told desk.new) result }
{
    match open_slot(desk, Slot::Feed, feed) {
        Ok(()) => {}
        Err(exit) => return exit,
    }
    match open_slot(desk, Slot::Certs, certs) {
        Ok(()) => {}
        Err(exit) => return exit,
    }
    replay_open(alloc, desk)
}
