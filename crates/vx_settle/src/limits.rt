//! The ranges of a position, and the contracts' sizes, each stated here alone.

/// The most contracts of a position, of either sign.
pub const QUANTITY_MAX: u32 = 1_000_000;

/// The greatest last price, 1,000 points, in ten-thousandths of a point.
pub const LAST_MAX: u32 = 10_000_000;

/// Dollars a point of the standard contract.
pub const STANDARD_MULTIPLIER: u32 = 1_000;

/// Dollars a point of the mini contract.
pub const MINI_MULTIPLIER: u32 = 100;
