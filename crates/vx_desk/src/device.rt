//! What a desk of devices does: its slots, and the calls that open, read and write them.

ghost use Rattle.std.specs.Prelude.{◌≡◌, List, ℕ, Option, Bool, false, IsTrue};
ghost use Rattle.vx_desk.specs.Slots.{IsReadingSlot, IsWritingSlot};
ghost use Rattle.vx_desk.specs.Told.{Told, Opens, Reads, Writes, ChangesOnly, OutIsOpen};
ghost use Rattle.vx_desk.specs.declared.device.Slot.{Slot};

/// The four places of a desk. `Feed` and `Side` are read, `Out` and `Certs` are written.
#[derive(Clone, Copy, Debug, PartialEq, Eq)]
pub enum Slot {
    /// The feed.
    Feed,
    /// The certificates that are checked, or the positions that are settled.
    Side,
    /// The output, which is always open.
    Out,
    /// The certificates that are written.
    Certs,
}

/// A call of a desk failed, and the desk's count of such failures rose.
#[derive(Clone, Copy, Debug, PartialEq, Eq)]
pub struct Failed;

/// A desk of devices: slots that are opened with a name, and then read or written piece by piece.
///
/// What a desk tells of its content is optional: a desk over real files tells nothing of it, and a
/// desk in memory tells all.
pub trait Desk {
    /// What is told of each slot: its content, whether it is open, and its counts of failures.
    ghost told: { Self → Slot → Told };

    /// The bytes that a name holds, where the desk tells them.
    ghost holds: { Self → List ℕ → Option (List ℕ) };

    /// Opens a slot that is not open with a name.
    fn open(&mut self, slot: Slot, name: &str) -> Result<(), Failed>
        requires closed { (told self.old slot).is_open ≡ false }
        ensures opens { Opens slot name.now (holds self.old name.now) (told self.old slot) (told self.new slot) result }
        ensures others { ChangesOnly slot (told self.old) (told self.new) }
        ensures names { holds self.new ≡ holds self.old };

    /// Reads the first of the bytes that are left in a slot to the front of `buf`, and answers how
    /// many there were. The answer 0 into a buffer that is not empty means the end of input.
    fn read(&mut self, slot: Slot, buf: &mut [u8]) -> Result<usize, Failed>
        requires reading { IsReadingSlot slot }
        requires open { IsTrue (told self.old slot).is_open }
        ensures reads { Reads buf.new (told self.old slot) (told self.new slot) result }
        ensures others { ChangesOnly slot (told self.old) (told self.new) }
        ensures names { holds self.new ≡ holds self.old };

    /// Sends the first bytes of a piece to a slot, at least one of a piece that is not empty, and
    /// answers how many it took.
    fn write(&mut self, slot: Slot, bytes: &[u8]) -> Result<usize, Failed>
        requires writing { IsWritingSlot slot }
        requires open { IsTrue (told self.old slot).is_open }
        ensures writes { Writes bytes.now (told self.old slot) (told self.new slot) result }
        ensures others { ChangesOnly slot (told self.old) (told self.new) }
        ensures names { holds self.new ≡ holds self.old };

    /// The output is open at every desk.
    ghost out_is_open: { (desk : Self) → OutIsOpen (told desk) };
}
