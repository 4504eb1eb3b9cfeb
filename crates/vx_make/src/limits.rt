//! The constants of sample feeds, each stated here alone.

/// How many states the generator has: they are the numbers below 2^31.
pub const STATES: u32 = 2_147_483_648;

/// The factor of the generator's step.
pub const MULTIPLIER: u32 = 1_103_515_245;

/// What the generator's step adds.
pub const INCREMENT: u32 = 12_345;

/// What a state is divided by before a value is drawn from it, since the low digits of such a generator
/// repeat soon.
pub const LOW_PART: u32 = 65_536;

/// The most ticks of a sample feed: the minutes of a trading day.
pub const TICKS_MAX: u32 = 390;

/// The minute of the first tick, 08:30.
pub const FIRST_MINUTE: u16 = 510;

/// The trade date, 2014-09-22, in days from 1970-01-01.
pub const TRADE_DAY: i32 = 16_335;

/// The day of the standard term, 2014-10-17, in days from 1970-01-01.
pub const STANDARD_DAY: i32 = 16_360;

/// The day of the weekly term, 2014-10-24, in days from 1970-01-01.
pub const WEEKLY_DAY: i32 = 16_367;

/// The rate of the standard term, 0.0305 percent, in 10^-8 per year.
pub const STANDARD_RATE: i32 = 30_500;

/// The rate of the weekly term, 0.0286 percent, in 10^-8 per year.
pub const WEEKLY_RATE: i32 = 28_600;

/// How many strikes each term lists.
pub const STRIKES: u32 = 200;

/// The least strike, 1500 points, in thousandths of a point.
pub const STRIKE_FIRST: u32 = 1_500_000;

/// From one strike to the next, 5 points, in thousandths of a point.
pub const STRIKE_STEP: u32 = 5_000;

/// The greatest strike, 2495 points, in thousandths of a point.
pub const STRIKE_LAST: u32 = STRIKE_FIRST + STRIKE_STEP * (STRIKES - 1);

/// The least centre of a tick's prices, 1950 points, in cents.
pub const CENTRE_MIN: u32 = 195_000;

/// How many centres there are, a cent apart.
pub const CENTRES: u32 = 2_001;

/// The greatest centre, 1970 points, in cents.
pub const CENTRE_MAX: u32 = CENTRE_MIN + (CENTRES - 1);

/// The time value of a series whose strike is the centre, in cents.
pub const TIME_VALUE_MAX: u32 = 3_000;

/// By how many cents strike and centre lie apart for each cent of time value that is lost.
pub const TIME_VALUE_LOSS: u32 = 10;

/// How many cents are drawn for a bid, 0 among them.
pub const BID_DRAWS: u32 = 11;

/// What is taken from the draw for a bid, in cents, so that it goes up as often as down.
pub const BID_DRAW_MIDDLE: u32 = 5;

/// The least distance from bid to ask, in cents.
pub const SPREAD_MIN: u32 = 5;

/// How many distances from bid to ask there are, a cent apart.
pub const SPREADS: u32 = 6;

/// How many lines stand between the header and the quotes of the first tick: those of two terms and
/// two rates, and of the series of both terms.
pub const TERM_LINES: u32 = 4 + 4 * STRIKES;

/// How many lines a tick has: the quotes of all series, and its own.
pub const TICK_LINES: u32 = 4 * STRIKES + 1;
