//! The calls of a desk that a run makes itself, each with the exit that its failure is.

ghost use Rattle.std.specs.Prelude.{◌≡◌, IsTrue, OnErr, OnOk, false};
ghost use Rattle.vx_desk.specs.Slots.{IsWritingSlot};
ghost use Rattle.vx_desk.specs.Told.{ChangesOnly, IsOpened, SameContent};
ghost use Rattle.vx_desk.specs.Calls.{Failures, IsStep};
ghost use Rattle.vx_drivers.specs.Exits.{calls_in};
ghost use Rattle.vx_drivers.specs.Sending.{OpensSlot, SendsOr};

use crate::exit::Exit;
use vx_desk::{Desk, Slot, send};

/// Opens a slot with a name.
pub fn open_slot<D: Desk>(desk: &mut D, slot: Slot, name: &str) -> Result<(), Exit>
    requires closed { (D.told desk.old slot).is_open ≡ false }
    ensures opens { OpensSlot slot name.now (D.holds desk.old) (D.told desk.old) (D.told desk.new) result }
    ensures failures { Failures (calls_in result) (D.told desk.old) (D.told desk.new) }
    ensures others { ChangesOnly slot (D.told desk.old) (D.told desk.new) }
    ensures names { D.holds desk.new ≡ D.holds desk.old }
{
    match desk.open(slot, name) {
        Ok(()) => Ok(()),
        Err(_) => Err(Exit::OpenFault { slot }),
    }
}

/// Sends a whole line to a slot that is written.
pub fn send_line<D: Desk>(desk: &mut D, slot: Slot, line: &[u8]) -> Result<(), Exit>
    requires writing { IsWritingSlot slot }
    requires open { IsTrue (D.told desk.old slot).is_open }
    ensures sends { SendsOr slot line.now (D.told desk.old slot) (D.told desk.new slot) result }
    ensures step { IsStep (calls_in result) (D.told desk.old) (D.told desk.new) }
    ensures others { ChangesOnly slot (D.told desk.old) (D.told desk.new) }
{
    match send(desk, slot, line) {
        Ok(()) => Ok(()),
        Err(_) => Err(Exit::WriteFault { slot }),
    }
}
