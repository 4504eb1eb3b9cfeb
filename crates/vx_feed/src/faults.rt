//! What can go wrong where a line of a feed is read.

use thiserror::Error;
use vx_fields::Unsplit;
use vx_num::NoMemory;

/// Why a line is no lawful next line of a feed.
///
/// Where several causes hold, the first in this order is answered. `NoMemory` has no cause in the line.
#[derive(Clone, Copy, Debug, PartialEq, Eq, Error)]
pub enum FeedFault {
    #[error("no memory")]
    NoMemory,
    /// A byte outside 0x20 to 0x7E, or a double quote.
    #[error("a byte that is not allowed")]
    Byte,
    /// The first field names no kind of line.
    #[error("no kind of line")]
    Kind,
    /// Another number of fields than the kind of line has.
    #[error("another number of fields")]
    Fields,
    /// The first field, counted from 1, that is not of its form or range.
    #[error("field {0} is not of its form or range")]
    Field(u32),
    /// The first line is no header, or a later line is one.
    #[error("the header is the first line and no other")]
    NotFirst,
    /// A line after the END line.
    #[error("a line after the end")]
    AfterEnd,
    /// A time less than that of an earlier line.
    #[error("a time before an earlier one")]
    TimeBack,
    /// An expiry that was declared before.
    #[error("an expiry is declared twice")]
    DuplicateExpiry,
    /// A series that was listed before.
    #[error("a series is listed twice")]
    DuplicateSeries,
    /// A rate or a series whose expiry was not declared before.
    #[error("an expiry that is not declared")]
    UndeclaredExpiry,
    /// More expiries, distinct strikes of an expiry, or lines than a feed may have.
    #[error("too many expiries, strikes or lines")]
    TooMany,
    /// The END line has another count.
    #[error("another count of lines")]
    EndCount,
    /// An expiry that is not 1 to 180 days after the trade date.
    #[error("an expiry too near or too far")]
    TimeRange,
    /// A second opening.
    #[error("a second opening")]
    SecondOpening,
}

impl From<NoMemory> for FeedFault {
    ghost use Rattle.std.specs.Prelude.{◌≡◌};
    ghost use Rattle.vx_feed.specs.declared.faults.FeedFault.TheVariants.{NoMemory as no_memory};

    ghost from_gives = { λ _ fault. fault ≡ no_memory };

    fn from(_refused: NoMemory) -> FeedFault {
        FeedFault::NoMemory
    }
}

impl From<Unsplit> for FeedFault {
    ghost use Rattle.std.specs.Prelude.{◌≡◌};
    ghost use Rattle.vx_feed.specs.Feed.{fault_of_unsplit};

    ghost from_gives = { λ why fault. fault ≡ fault_of_unsplit why };

    fn from(why: Unsplit) -> FeedFault {
        match why {
            Unsplit::Empty => FeedFault::Kind,
            Unsplit::Byte => FeedFault::Byte,
        }
    }
}
