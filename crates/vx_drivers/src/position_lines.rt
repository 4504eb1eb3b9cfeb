//! The lines of positions, which are read ahead so that many are split together.

ghost use Rattle.std.specs.Prelude.{◌≡◌, ◌==◌, true, IfErr, IsTrue, OnOk};
ghost use Rattle.vx_desk.specs.Told.{ChangesOnly};
ghost use Rattle.vx_desk.specs.Calls.{IsStep};
ghost use Rattle.vx_blocks.specs.SplitLines.{HasNext, lines_coming};
ghost use Rattle.vx_drivers.specs.Exits.{calls_in, is_cut};
ghost use Rattle.vx_drivers.specs.PositionExits.{IsPositionExit};
ghost use Rattle.vx_drivers.specs.PositionLines.{IsPositionLines, ReadsPositionsOn};
ghost use Rattle.vx_drivers.specs.PositionLines.{bad_behind as cause_behind, exit_of_read as exit_told};

use crate::exit::{Exit, PositionCause};
use crate::limits::POSITION_LINES_MAX;
use vx_blocks::{ReadStop, Rest, SplitLines};
use vx_desk::{Desk, Slot};
use vx_settle::PositionFault;

/// The exit of a run whose positions are not read on.
fn exit_of_read(stop: ReadStop) -> Exit
    ensures { result ≡ exit_told stop }
{
    match stop {
        ReadStop::Device => Exit::ReadFault { slot: Slot::Side },
        ReadStop::NoMemory => Exit::NoMemory,
    }
}

/// Reads the positions on where all lines that were split are taken and there may be more.
pub(crate) fn read_on<D: Desk>(positions: &mut SplitLines, desk: &mut D) -> Result<(), Exit>
    requires lines { IsPositionLines positions.old }
    requires open { IsTrue (D.told desk.old Slot.Side).is_open }
    ensures lines { OnOk result (IsPositionLines positions.new) }
    ensures coming { OnOk result (lines_coming positions.new (D.told desk.new)
        ≡ lines_coming positions.old (D.told desk.old)) }
    ensures read { ReadsPositionsOn positions.old (D.told desk.old) positions.new (D.told desk.new) result }
    ensures next { OnOk result (HasNext positions.new) }
    ensures cut { IfErr result (λ exit. is_cut exit ≡ true) }
    ensures exits { IfErr result IsPositionExit }
    ensures step { IsStep (calls_in result) (D.told desk.old) (D.told desk.new) }
    ensures others { ChangesOnly Slot.Side (D.told desk.old) (D.told desk.new) }
{
    match positions.read_on(desk) {
        Ok(()) => Ok(()),
        Err(stop) => Err(exit_of_read(stop)),
    }
}

/// Why the line behind those that were split is bad, after so many lines; `None` at the end.
pub(crate) fn bad_behind(rest: Rest, count: u64) -> Option<PositionCause>
    ensures { result ≡ cause_behind rest (count == POSITION_LINES_MAX) }
{
    match rest {
        Rest::Unsplit(why) => {
            if count == POSITION_LINES_MAX {
                Some(PositionCause::TooMany)
            } else {
                Some(PositionCause::Fault(PositionFault::from(why)))
            }
        }
        Rest::TooLong => Some(PositionCause::TooLong),
        Rest::NoEol => Some(PositionCause::NoEol),
        Rest::More | Rest::End => None,
    }
}
