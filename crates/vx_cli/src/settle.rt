//! The command `settle`: the opening figure of a feed, and what each position settles to.

ghost use Rattle.std.specs.Prelude.{◌≡◌, ◌*◌, ◌^◌, ◌≤◌, ◌+ℤ◌, nat_abs, option_map, IsTrue};
ghost use Rattle.vx_desk.specs.Told.{OnlyOutIsOpen};
ghost use Rattle.vx_desk.specs.Calls.{Failures, IsStep};
ghost use Rattle.vx_drivers.specs.Exits.{exit_calls};
ghost use Rattle.vx_drivers.specs.PositionExits.{IsPositionExit};
ghost use Rattle.vx_cli.specs.Runs.{IsSettleExit, OpensToSettle, SettlesFiles, SettlesOpen};
ghost use Rattle.vx_cli.specs.SettleText as text;

use crate::settle_lines::{
    push_end, push_opening, push_opening_certificate, push_position, push_total,
};
use std::alloc::Global;
use vx_book::Book;
use vx_desk::{Desk, Slot};
use vx_drivers::limits::POSITION_LINES_MAX;
use vx_drivers::{
    AnswersOpening, Exit, SettlesPositions, TakesEvents, open_slot, settle_positions,
};
use vx_feed::Event;
use vx_fields::Fields;
use vx_num::NoMemory;
use vx_settle::{PositionFault, amount, position_of_fields};
use vx_soq::{OpeningAnswer, opening_figure};

/// The book of a feed's events, whose opening is answered.
#[derive(Drop)]
struct OpeningBook {
    alloc: Global,
    book: Book,
}

/// The opening's figure, where it has one, and the sum of the positions' amounts so far, in cents.
#[derive(Drop)]
struct Settlement {
    alloc: Global,
    figure: Option<u64>,
    total: i128,
}

/// The figure of an answer, in cents, where it has one.
fn figure_of(answer: &OpeningAnswer) -> Option<u64>
    ensures { result ≡ text.figure_of answer.now }
{
    match answer {
        OpeningAnswer::Published(figure) => Some(figure.cents),
        OpeningAnswer::Refused(_)
        | OpeningAnswer::UndecidedForward { .. }
        | OpeningAnswer::UndecidedCents { .. } => None,
    }
}

/// The minute of the opening that a book has taken, where it has.
fn opening_minute(book: &Book) -> Option<u16>
    ensures { result ≡ option_map (λ opened. opened.time) book.now.opened }
{
    Some(book.opening_at()?.time)
}

impl TakesEvents for OpeningBook {
    ghost use Rattle.vx_book.specs.StandsFor.{BookStandsFor};

    ghost StandsFor = { λ taker events. BookStandsFor taker.book events };

    fn take(&mut self, event: Event) -> Result<(), NoMemory> {
        self.book.apply(&event)
    }
}

impl AnswersOpening for OpeningBook {
    type Sheet = Settlement;

    fn answer_opening(
        &self,
        certificate: &mut Vec<u8>,
        line: &mut Vec<u8>,
    ) -> Result<Settlement, NoMemory> {
        let answer = opening_figure(self.alloc, &self.book)?;
        let time = opening_minute(&self.book);
        push_opening_certificate(self.alloc, certificate, &answer)?;
        push_opening(self.alloc, line, time, &answer)?;
        Ok(Settlement {
            alloc: self.alloc,
            figure: figure_of(&answer),
            total: 0,
        })
    }
}

impl SettlesPositions for Settlement {
    ghost use Rattle.vx_cli.specs.SettleLaws.{comes_to_one as line_comes_to_one, none_unsplit as no_position, opening_is_one};
    ghost use Rattle.vx_cli.specs.SettleRuns.{AnsweredOpening, settle_rules};
    ghost use Rattle.vx_cli.specs.SettleSheet.{HasSettledOn};
    ghost use Rattle.std.specs.Prelude.{Option};
    ghost use Rattle.vx_cli.specs.SettleText.{Settled};

    ghost Answer = { AnsweredOpening };

    ghost Item = { Option Settled };

    ghost rules = { settle_rules };

    ghost StandsAt = { HasSettledOn };

    fn settle(
        &mut self,
        count: u64,
        fields: &Fields<'_>,
        line: &mut Vec<u8>,
    ) -> Result<Option<PositionFault>, NoMemory> {
        let position = match position_of_fields(fields) {
            Ok(position) => position,
            Err(fault) => return Ok(Some(fault)),
        };
        let figure = match self.figure {
            Some(figure) => figure,
            None => return Ok(None),
        };
        let amount = amount(figure, &position);
        push_position(line, count + 1, &position, amount)?;
        self.add(amount);
        Ok(None)
    }

    fn end(&self, count: u64, line: &mut Vec<u8>) -> Result<(), NoMemory> {
        if self.figure.is_none() {
            return push_end(self.alloc, line, 0);
        }
        push_total(self.alloc, line, self.total)?;
        push_end(self.alloc, line, count)
    }

    ghost none_unsplit = { no_position };

    ghost opens_one = { opening_is_one };

    ghost comes_to_one = { line_comes_to_one };
}

impl Settlement {
    ghost use Rattle.std.specs.Prelude.{◌≡◌, ◌*◌, ◌^◌, ◌≤◌, ◌+ℤ◌, nat_abs};

    /// Adds the amount of one more position to the sum.
    fn add(&mut self, amount: i128)
        requires few { nat_abs self.old.total ≤ POSITION_LINES_MAX * 2 ^ 56 }
        requires bound { nat_abs amount ≤ 2 ^ 56 }
        ensures total { self.new.total ≡ self.old.total +ℤ amount }
        ensures figure { self.new.figure ≡ self.old.figure }
    {
        self.total += amount;
    }
}

/// Settles each position on the feed's opening, with all files open.
fn settle_open<D: Desk>(alloc: Global, desk: &mut D) -> Exit
    requires feed { IsTrue (D.told desk.old Slot.Feed).is_open }
    requires side { IsTrue (D.told desk.old Slot.Side).is_open }
    requires certs { IsTrue (D.told desk.old Slot.Certs).is_open }
    requires out { IsTrue (D.told desk.old Slot.Out).is_open }
    ensures ends { SettlesOpen (D.told desk.old) (D.told desk.new) result }
    ensures exits { IsPositionExit result }
    ensures step { IsStep (exit_calls result) (D.told desk.old) (D.told desk.new) }
{
    match Book::new(alloc) {
        Ok(book) => settle_positions(alloc, OpeningBook { alloc, book }, desk),
        Err(NoMemory) => Exit::NoMemory,
    }
}

/// Settles each position of a file on the opening of a feed, and writes the certificate of its figure to a
/// file. The feed is opened, then the positions, then the file of certificates.
pub(crate) fn settle_files<D: Desk>(
    alloc: Global,
    desk: &mut D,
    feed: &str,
    positions: &str,
    certs: &str,
) -> Exit
    requires closed { OnlyOutIsOpen (D.told desk.old) }
    ensures sends { SettlesFiles feed.now positions.now (D.holds desk.old) (D.told desk.old) (D.told desk.new) result }
    ensures exits { IsSettleExit result }
    ensures failures { Failures (exit_calls result) (D.told desk.old) (D.told desk.new) }
    ensures opens { OpensToSettle feed.now positions.now certs.now (D.told desk.new) result }
{
    match open_slot(desk, Slot::Feed, feed) {
        Ok(()) => {}
        Err(exit) => return exit,
    }
    match open_slot(desk, Slot::Side, positions) {
        Ok(()) => {}
        Err(exit) => return exit,
    }
    match open_slot(desk, Slot::Certs, certs) {
        Ok(()) => {}
        Err(exit) => return exit,
    }
    settle_open(alloc, desk)
}
