//! A desk that remembers its last failed call.

ghost use Rattle.std.specs.Prelude.{◌≡◌, false, IsTrue};
ghost use Rattle.vx_desk.specs.Memory.{told_memory, held_by};
ghost use Rattle.vx_desk.specs.Slots.{IsReadingSlot, IsWritingSlot};
ghost use Rattle.vx_desk.specs.Told.{Opens, Reads, Writes, ChangesOnly};

use vx_cli::Exit;
use vx_desk::{Desk, Failed, MemDesk, Slot};

/// A desk in memory that remembers its last failed call, by the exit that a run has to answer for it.
#[derive(Drop)]
pub(crate) struct Watched {
    pub(crate) desk: MemDesk,
    pub(crate) failed: Option<Exit>,
}

impl Desk for Watched {
    ghost use Rattle.std.specs.Prelude.{refl};

    ghost told = { λ w. told_memory w.desk };

    ghost holds = { λ w. held_by w.desk };

    ghost out_is_open = { λ w. refl };

    fn open(&mut self, slot: Slot, name: &str) -> Result<(), Failed>
        requires closed { (told_memory self.old.desk slot).is_open ≡ false }
        ensures opens { Opens slot name.now (held_by self.old.desk name.now)
            (told_memory self.old.desk slot) (told_memory self.new.desk slot) result }
        ensures others { ChangesOnly slot (told_memory self.old.desk) (told_memory self.new.desk) }
        ensures names { held_by self.new.desk ≡ held_by self.old.desk }
    {
        let result = self.desk.open(slot, name);
        if result.is_err() {
            self.failed = Some(Exit::OpenFault { slot });
        }
        result
    }

    fn read(&mut self, slot: Slot, buf: &mut [u8]) -> Result<usize, Failed>
        requires reading { IsReadingSlot slot }
        requires open { IsTrue (told_memory self.old.desk slot).is_open }
        ensures reads { Reads buf.new (told_memory self.old.desk slot) (told_memory self.new.desk slot) result }
        ensures others { ChangesOnly slot (told_memory self.old.desk) (told_memory self.new.desk) }
        ensures names { held_by self.new.desk ≡ held_by self.old.desk }
    {
        let result = self.desk.read(slot, buf);
        if result.is_err() {
            self.failed = Some(Exit::ReadFault { slot });
        }
        result
    }

    fn write(&mut self, slot: Slot, bytes: &[u8]) -> Result<usize, Failed>
        requires writing { IsWritingSlot slot }
        requires open { IsTrue (told_memory self.old.desk slot).is_open }
        ensures writes { Writes bytes.now (told_memory self.old.desk slot) (told_memory self.new.desk slot) result }
        ensures others { ChangesOnly slot (told_memory self.old.desk) (told_memory self.new.desk) }
        ensures names { held_by self.new.desk ≡ held_by self.old.desk }
    {
        let result = self.desk.write(slot, bytes);
        if result.is_err() {
            self.failed = Some(Exit::WriteFault { slot });
        }
        result
    }
}
