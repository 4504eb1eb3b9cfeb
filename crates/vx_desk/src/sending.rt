//! Sends all bytes to a slot, however few a write takes.

ghost use Rattle.std.specs.Prelude.{◌≡◌, IsTrue};
ghost use Rattle.vx_desk.specs.Slots.{IsWritingSlot};
ghost use Rattle.vx_desk.specs.Told.{ChangesOnly};
ghost use Rattle.vx_desk.specs.Sending.{Sends};

use crate::device::{Desk, Failed, Slot};
use thiserror::Error;

/// Why not all bytes were sent.
#[derive(Clone, Copy, Debug, PartialEq, Eq, Error)]
pub enum SendFault {
    /// A write failed, and the first `sent` bytes went out before.
    #[error("the device failed after {sent} bytes")]
    Device { sent: usize },
}

/// Sends all bytes to a slot, in as many writes as the desk takes for them. The first write that
/// fails ends it.
pub fn send<D: Desk>(desk: &mut D, slot: Slot, bytes: &[u8]) -> Result<(), SendFault>
    requires writing { IsWritingSlot slot }
    requires open { IsTrue (D.told desk.old slot).is_open }
    ensures sends { Sends bytes.now (D.told desk.old slot) (D.told desk.new slot) result }
    ensures others { ChangesOnly slot (D.told desk.old) (D.told desk.new) }
    ensures names { D.holds desk.new ≡ D.holds desk.old }
{
    let mut sent = 0;
    while sent < bytes.len() {
        match desk.write(slot, &bytes[sent..]) {
            Ok(count) => sent += count,
            Err(Failed) => return Err(SendFault::Device { sent }),
        }
    }
    Ok(())
}
