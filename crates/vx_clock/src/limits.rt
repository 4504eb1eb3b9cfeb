//! The ranges of days, minutes and rates, each stated here alone.

/// The first year of a feed.
pub const YEAR_MIN: u32 = 2000;

/// The last year of a feed.
pub const YEAR_MAX: u32 = 2099;

/// The day number of 2000-01-01.
pub const DAY_MIN: i32 = 10_957;

/// The day number of 2099-12-31.
pub const DAY_MAX: i32 = 47_481;

/// The minutes of a civil day, also of one on which clocks change.
pub const DAY_MINUTES: u32 = 1440;

/// The last minute of a day, 23:59.
pub const MINUTE_MAX: u16 = 1439;

/// The minute of its day at which a morning-settled standard term settles, 8:30 in Chicago.
pub const MORNING_SETTLEMENT: u32 = 510;

/// The minute of its day at which an afternoon-settled weekly term settles, 15:00 in Chicago.
pub const AFTERNOON_SETTLEMENT: u32 = 900;

/// The most days from a moment to a settlement whose minutes are asked for.
pub const DAYS_AHEAD_MAX: u32 = 181;

/// The fewest minutes to settlement.
pub const MINUTES_MIN: u32 = 1;

/// The most minutes to settlement.
pub const MINUTES_MAX: u32 = 262_800;

/// The least rate, minus 5 percent, in 10^-8 per year.
pub const RATE_MIN: i32 = -5_000_000;

/// The greatest rate, 25 percent, in 10^-8 per year.
pub const RATE_MAX: i32 = 25_000_000;

/// The days ahead of which the index speaks.
pub const INDEX_DAYS: u32 = 30;

/// The days of each of the index's two windows.
pub const INDEX_WINDOW: u32 = 7;

/// The fewest days ahead of which a figure may speak.
pub const FIGURE_DAYS_MIN: u32 = 7;

/// The most days ahead of which a figure may speak.
pub const FIGURE_DAYS_MAX: u32 = 120;

/// The most days of a window.
pub const WINDOW_MAX: u32 = 35;
