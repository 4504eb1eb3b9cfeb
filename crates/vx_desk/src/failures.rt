//! Counts of the calls that failed at a slot.

ghost use Rattle.std.specs.Prelude.{◌≡◌};
ghost use Rattle.vx_desk.specs.Told.{Rose};
ghost use Rattle.vx_desk.specs.Failures.{no_failures, raised};

use crate::device::Failed;

/// How many calls of each kind failed at one slot. A count stops at the greatest `u64`.
#[derive(Clone, Copy, Debug)]
pub(crate) struct Failures {
    pub(crate) opens: u64,
    pub(crate) reads: u64,
    pub(crate) writes: u64,
}

impl Failures {
    pub(crate) fn new() -> Failures
        ensures { result ≡ no_failures }
    {
        Failures {
            opens: 0,
            reads: 0,
            writes: 0,
        }
    }

    pub(crate) fn count_open(&mut self) -> Failed
        ensures counted { self.new ≡ record self.old { opens = raised self.old.opens } }
        ensures rose { Rose self.old.opens self.new.opens }
    {
        self.opens = self.opens.saturating_add(1);
        Failed
    }

    pub(crate) fn count_read(&mut self) -> Failed
        ensures counted { self.new ≡ record self.old { reads = raised self.old.reads } }
        ensures rose { Rose self.old.reads self.new.reads }
    {
        self.reads = self.reads.saturating_add(1);
        Failed
    }

    pub(crate) fn count_write(&mut self) -> Failed
        ensures counted { self.new ≡ record self.old { writes = raised self.old.writes } }
        ensures rose { Rose self.old.writes self.new.writes }
    {
        self.writes = self.writes.saturating_add(1);
        Failed
    }
}
