//! The limits of a feed, each stated here alone.

/// The most expiries that a feed declares.
pub const EXPIRIES_MAX: usize = 16;

/// The most distinct strikes that a feed lists for one expiry.
pub const STRIKES_MAX: usize = vx_symbol::limits::ROWS_MAX;

/// The most lines of a feed.
pub const LINES_MAX: u32 = vx_num::limits::FEED_LINES_MAX;

/// The most bytes of a feed line, without its LF.
pub const LINE_LEN_MAX: usize = 256;

/// The most days from the trade date to a declared expiry; the fewest is one.
pub const EXPIRY_DAYS_MAX: u32 = 180;
