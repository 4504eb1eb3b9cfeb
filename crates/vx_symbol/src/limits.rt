//! The ranges of strikes and prices, each stated here alone.

/// The least strike, 100 points, in thousandths of a point.
pub const STRIKE_MIN: u32 = 100_000;

/// The greatest strike, 50,000 points, in thousandths of a point.
pub const STRIKE_MAX: u32 = 50_000_000;

/// The greatest price, 50,000 points, in cents (hundredths of a point).
pub const PRICE_MAX: u32 = 5_000_000;

/// The greatest half price, 50,000 points, in half cents.
pub const HALF_MAX: u32 = 10_000_000;

/// The most listed strikes of a term.
pub const ROWS_MAX: usize = vx_num::limits::STRIKES_MAX;

/// The bytes of a symbol.
pub const SYMBOL_LEN: usize = 21;
