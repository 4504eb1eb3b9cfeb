//! The command `make`: a sample feed.

ghost use Rattle.std.specs.Prelude.{◌<◌, ◌≤◌, IfErr, MatchResult};
ghost use Rattle.vx_desk.specs.Told.{ChangesOnly, OutIsOpen};
ghost use Rattle.vx_desk.specs.Calls.{Failures, IsStep};
ghost use Rattle.vx_make.specs.Feed.{make_text};
ghost use Rattle.vx_drivers.specs.Exits.{calls_in, exit_calls};
ghost use Rattle.vx_drivers.specs.Sending.{Sent};
ghost use Rattle.vx_cli.specs.Runs.{IsMakeExit, Makes};

use std::alloc::Global;
use vx_desk::{Desk, Slot};
use vx_drivers::{Exit, send_line};
use vx_make::SampleFeed;
use vx_make::limits::{STATES, TICKS_MAX};
use vx_num::NoMemory;

/// Sends the sample feed piece by piece, so that no more of it is held than its head, its last line and one tick.
/// All that can want memory is done before the first piece is sent.
fn send_pieces<D: Desk>(alloc: Global, desk: &mut D, number: u32, ticks: u32) -> Result<(), Exit>
    requires states { number < STATES }
    requires some { 1 ≤ ticks }
    requires most { ticks ≤ TICKS_MAX }
    requires out { OutIsOpen (D.told desk.old) }
    ensures makes { MatchResult result
        (λ _. Sent (make_text number ticks) (D.told desk.old Slot.Out) (D.told desk.new Slot.Out))
        (Makes number ticks (D.told desk.old Slot.Out) (D.told desk.new Slot.Out)) }
    ensures others { ChangesOnly Slot.Out (D.told desk.old) (D.told desk.new) }
    ensures step { IsStep (calls_in result) (D.told desk.old) (D.told desk.new) }
    ensures exits { IfErr result IsMakeExit }
{
    let mut feed = match SampleFeed::new(alloc, number, ticks) {
        Ok(feed) => feed,
        Err(NoMemory) => return Err(Exit::NoMemory),
    };
    send_line(desk, Slot::Out, feed.head())?;
    for _ in 0..ticks {
        feed.make_tick();
        send_line(desk, Slot::Out, feed.tick_lines())?;
    }
    send_line(desk, Slot::Out, feed.last_line())
}

/// Sends the sample feed of a number below 2^31, with so many ticks, 1 to 390.
pub(crate) fn send_sample<D: Desk>(alloc: Global, desk: &mut D, number: u32, ticks: u32) -> Exit
    requires states { number < STATES }
    requires some { 1 ≤ ticks }
    requires most { ticks ≤ TICKS_MAX }
    requires out { OutIsOpen (D.told desk.old) }
    ensures makes { Makes number ticks (D.told desk.old Slot.Out) (D.told desk.new Slot.Out) result }
    ensures others { ChangesOnly Slot.Out (D.told desk.old) (D.told desk.new) }
    ensures failures { Failures (exit_calls result) (D.told desk.old) (D.told desk.new) }
    ensures exits { IsMakeExit result }
{
    match send_pieces(alloc, desk, number, ticks) {
        Ok(()) => Exit::Done,
        Err(exit) => exit,
    }
}
