//! The constants of the formula, each stated here alone.

/// The minutes of a year of 365 days.
pub const YEAR_MINUTES: u32 = 525_600;

/// The minutes of 30 days, the time ahead that the index speaks of.
pub const THIRTY_DAYS: u32 = 43_200;

/// A rate of 100 percent a year, in the unit of rates, `10^-8` per year.
pub const RATE_UNITS: u32 = 100_000_000;

/// How many units of `10^-12` point make a thousandth of a point.
pub const FORWARD_UNITS: u32 = 1_000_000_000;

/// An end of a forward is at most `2^27` thousandths of a point in absolute value: `2^(P + 27)` at a
/// scale `P`.
pub const FORWARD_BITS: u32 = 27;

/// The greatest variance times its term's time, in absolute value, that is computed or stated.
pub const VARIANCE_MAX: u32 = 6;

/// The greatest square of the index over 100, in absolute value, that is computed or stated.
pub const SQUARE_MAX: u32 = vx_num::limits::SQUARE_MAX;

/// A cent, a hundredth of an index point, in millionths of a point.
pub const CENT: u32 = vx_num::limits::CENT;

/// Half a cent, in millionths of a point.
pub const HALF_CENT: u32 = vx_num::limits::HALF_CENT;

/// The greatest sum of a strip that is accepted.
pub const STRIP_TOTAL_MAX: u32 = 2;

/// The greatest figure, in cents.
pub const CENTS_MAX: u64 = vx_num::limits::CENTS_MAX;

/// The greatest distance of a figure's two printed ends, in millionths of a point.
pub const INDEX_WIDTH_MAX: u32 = 200;

/// The greatest distance of a forward's two printed ends, in units of `10^-12` point.
pub const FORWARD_WIDTH_MAX: u32 = 3;
