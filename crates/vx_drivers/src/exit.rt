//! What a run ends in.

ghost use Rattle.std.specs.Prelude.{◌≡◌};

use vx_desk::Slot;
use vx_num::NoMemory;
use vx_reading::{FeedCause, FeedStop};
use vx_settle::PositionFault;

/// Why a run ended.
#[derive(Clone, Copy, Debug, PartialEq, Eq)]
pub enum Exit {
    /// All input was read to its end and all output was sent, and `check` said no to nothing.
    Done,
    /// `check` read and sent all, and said no to so many certificate lines, at least one.
    SaidNo { count: u64 },
    /// The words are no command form; nothing was opened or sent.
    Usage,
    /// The feed's first line that breaks its rules, counted from 1; a missing END is at the line
    /// after the last.
    BadFeed { line: u64, cause: FeedCause },
    /// An open of the slot failed.
    OpenFault { slot: Slot },
    /// A read of the slot failed.
    ReadFault { slot: Slot },
    /// A write to the slot failed.
    WriteFault { slot: Slot },
    /// Memory was refused.
    NoMemory,
    /// The first position line, counted from 1, that breaks the rules of such lines.
    BadPositions { line: u64, cause: PositionCause },
    /// The first certificate line, counted from 1, that is too long, has no LF or is one too many.
    BadCerts { line: u64, cause: LineCause },
}

/// What can be wrong with a line before its content is looked at.
#[derive(Clone, Copy, Debug, PartialEq, Eq)]
pub enum LineCause {
    /// It has more bytes than such a line may have.
    TooLong,
    /// The input ends in it, and no LF ends it.
    NoEol,
    /// There are more lines than there may be.
    TooMany,
}

/// What can be wrong with a position line.
#[derive(Clone, Copy, Debug, PartialEq, Eq)]
pub enum PositionCause {
    /// It is no position. The fault is never `NoMemory`.
    Fault(PositionFault),
    /// It has more bytes than a position line may have.
    TooLong,
    /// The input ends in it, and no LF ends it.
    NoEol,
    /// There are more lines than there may be.
    TooMany,
}

impl Exit {
    ghost use Rattle.vx_drivers.specs.Exits.{status_of};

    /// The status with which the program ends.
    pub fn status(&self) -> u8
        ensures { result ≡ status_of self.now }
    {
        match self {
            Exit::Done => 0,
            Exit::SaidNo { .. } => 1,
            Exit::Usage => 2,
            Exit::BadFeed { .. } => 3,
            Exit::OpenFault { .. } => 4,
            Exit::ReadFault { .. } => 5,
            Exit::WriteFault { .. } => 6,
            Exit::NoMemory => 7,
            Exit::BadPositions { .. } => 8,
            Exit::BadCerts { .. } => 9,
        }
    }
}

impl From<NoMemory> for Exit {
    ghost use Rattle.std.specs.Prelude.{◌≡◌};
    ghost use Rattle.vx_drivers.specs.declared.exit.Exit.TheVariants.{NoMemory};

    ghost from_gives = { λ _ exit. exit ≡ NoMemory };

    fn from(_cause: NoMemory) -> Exit {
        Exit::NoMemory
    }
}

impl From<FeedStop> for Exit {
    ghost use Rattle.std.specs.Prelude.{◌≡◌};
    ghost use Rattle.vx_drivers.specs.Exits.{exit_of_stop};

    ghost from_gives = { λ stop exit. exit ≡ exit_of_stop stop };

    fn from(stop: FeedStop) -> Exit {
        match stop {
            FeedStop::BadLine { line, cause } => Exit::BadFeed { line, cause },
            FeedStop::Device => Exit::ReadFault { slot: Slot::Feed },
            FeedStop::NoMemory => Exit::NoMemory,
        }
    }
}
