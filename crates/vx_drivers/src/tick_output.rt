//! What a run that answers ticks sends: two texts for each tick, and the last line.

ghost use Rattle.std.specs.Prelude.{◌≡◌, ◌+◌, ◌<◌, ◌^◌, IsTrue, OnOk};
ghost use Rattle.vx_desk.specs.Told.{ChangesOnly};
ghost use Rattle.vx_desk.specs.Calls.{IsStep};
ghost use Rattle.vx_drivers.specs.Exits.{calls_in};
ghost use Rattle.vx_drivers.specs.TickRun.{counts_line};
ghost use Rattle.vx_drivers.specs.TickSteps.{SendsBoth};

use crate::devices::send_line;
use crate::exit::Exit;
use crate::text::{push_number, push_text};
use std::alloc::Global;
use vx_desk::{Desk, Slot};
use vx_num::NoMemory;

/// Sends a text to the file of certificates, and then another to the output. This call alone orders the
/// two: nothing of the second is sent before the first is sent whole.
pub(crate) fn send_both<D: Desk>(desk: &mut D, certificate: &[u8], line: &[u8]) -> Result<(), Exit>
    requires certs { IsTrue (D.told desk.old Slot.Certs).is_open }
    requires out { IsTrue (D.told desk.old Slot.Out).is_open }
    ensures sends { SendsBoth certificate.now line.now (D.told desk.old) (D.told desk.new) result }
    ensures step { IsStep (calls_in result) (D.told desk.old) (D.told desk.new) }
    ensures feed { D.told desk.new Slot.Feed ≡ D.told desk.old Slot.Feed }
    ensures side { D.told desk.new Slot.Side ≡ D.told desk.old Slot.Side }
{
    match send_line(desk, Slot::Certs, certificate) {
        Ok(()) => {}
        Err(exit) => return Err(exit),
    }
    send_line(desk, Slot::Out, line)
}

/// Writes the last line, with how many answers there were, and how many of each kind.
pub(crate) fn write_counts(
    alloc: Global,
    line: &mut Vec<u8>,
    published: u64,
    undecided: u64,
    refused: u64,
) -> Result<(), NoMemory>
    requires { published + undecided + refused < 2 ^ 64 }
    ensures { OnOk result (line.new.items ≡ counts_line published undecided refused) }
{
    line.clear();
    push_text(line, "END,")?;
    push_number(alloc, line, published + undecided + refused)?;
    push_text(line, ",")?;
    push_number(alloc, line, published)?;
    push_text(line, ",")?;
    push_number(alloc, line, undecided)?;
    push_text(line, ",")?;
    push_number(alloc, line, refused)?;
    push_text(line, "\n")
}
