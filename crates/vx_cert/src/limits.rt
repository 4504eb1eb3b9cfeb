//! The ranges of a certificate's fields, each stated here alone where no lower crate has it.

/// Numbers at scale `2^-60`.
pub const VERSION_MIN: u32 = 1;

/// Numbers at scale `2^-62`.
pub const VERSION_MAX: u32 = 2;

/// The last line of a feed.
pub const LINE_MAX: u64 = vx_num::limits::FEED_LINES_MAX as u64;

/// The most days that a field may state, so that any other number of days than the index's is a
/// failed test and no fault of the form.
pub const DAYS_MAX: u32 = 1_000;

/// The greatest figure, 3,200 points, in hundredths of a point.
pub const CENTS_MAX: u64 = vx_num::limits::CENTS_MAX;

/// The Taylor terms of an exponential, the last one for the remainder.
pub const TAYLOR_TERMS: usize = 14;

/// The most rows of a strip.
pub const ROWS_MAX: usize = vx_num::limits::STRIKES_MAX;

/// An end of an interval is below two to this power in absolute value.
pub const END_BITS: u32 = 126;

/// An end of an index is below two to this power in absolute value.
pub const INDEX_END_BITS: u32 = 63;

/// The length in bytes of the longest line that is written, without its LF: of kind `index`, with two
/// strips of `ROWS_MAX` rows and each number as long as its range lets it be.
pub const WRITTEN_LEN_MAX: usize = 326_703;
