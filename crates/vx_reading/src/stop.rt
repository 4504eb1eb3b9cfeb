//! Why a feed is not read on.

use vx_blocks::ReadStop;
use vx_feed::FeedFault;
use vx_num::NoMemory;

/// What can be wrong with a feed line.
#[derive(Clone, Copy, Debug, PartialEq, Eq)]
pub enum FeedCause {
    /// It is no lawful next line. The fault is never `NoMemory`.
    Event(FeedFault),
    /// It has more bytes than a feed line may have.
    TooLong,
    /// The feed ends in it, and no LF ends it.
    NoEol,
    /// The feed ended before it, without an END line.
    MissingEnd,
}

/// Why a feed is not read on.
#[derive(Clone, Copy, Debug, PartialEq, Eq)]
pub enum FeedStop {
    /// The first line that breaks the feed's rules, counted from 1; a missing END is at the line after
    /// the last.
    BadLine { line: u64, cause: FeedCause },
    /// A read of the slot Feed failed.
    Device,
    /// Memory was refused.
    NoMemory,
}

impl From<NoMemory> for FeedStop {
    ghost use Rattle.std.specs.Prelude.{◌≡◌};
    ghost use Rattle.vx_reading.specs.declared.stop.FeedStop.TheVariants.{NoMemory};

    ghost from_gives = { λ _ stop. stop ≡ NoMemory };

    fn from(_cause: NoMemory) -> FeedStop {
        FeedStop::NoMemory
    }
}

impl From<ReadStop> for FeedStop {
    ghost use Rattle.std.specs.Prelude.{◌≡◌};
    ghost use Rattle.vx_reading.specs.Stops.{stop_of};

    ghost from_gives = { λ cause stop. stop ≡ stop_of cause };

    fn from(cause: ReadStop) -> FeedStop {
        match cause {
            ReadStop::Device => FeedStop::Device,
            ReadStop::NoMemory => FeedStop::NoMemory,
        }
    }
}
