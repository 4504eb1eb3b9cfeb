//! The ranges of a strip's rows, each stated here alone.

/// The least rows of a strip: one below the level, the level's own and one above it.
pub const STRIP_ROWS_MIN: usize = 3;

/// The most rows of a strip, one for each listed strike.
pub const STRIP_ROWS_MAX: usize = vx_num::limits::STRIKES_MAX;

/// The greatest doubled width, in thousandths of a point.
pub const WIDTH_MAX: u32 = 100_000_000;

/// The greatest price of a strip's row, in quarter cents.
pub const Q4_MAX: u32 = 20_000_000;
