//! The limits that crates without another common base share, each stated here alone. The other
//! ranges and limits stand in the lowest crate that has their quantity.

/// The most lines of a feed.
pub const FEED_LINES_MAX: u32 = 10_000_000;

/// The most distinct strikes of an expiry, and so the most rows of a term and of a strip.
pub const STRIKES_MAX: usize = 2_000;

/// The greatest figure, 3,200 points, in cents (hundredths of a point).
pub const CENTS_MAX: u64 = 320_000;

/// A cent, a hundredth of a point, in millionths of a point.
pub const CENT: u32 = 10_000;

/// Half a cent, in millionths of a point.
pub const HALF_CENT: u32 = 5_000;

/// The greatest square of the index over 100, in absolute value, that is computed or stated.
pub const SQUARE_MAX: u32 = 1_024;

/// The greatest end of an index, 3,200 points, in millionths of a point.
pub const INDEX_END_MAX: u64 = 3_200_000_000;
