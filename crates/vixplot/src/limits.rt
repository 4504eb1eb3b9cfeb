//! The ranges of what is read, and the measures of the picture.

/// The most days ahead that a line may name.
pub const DAYS_MAX: u64 = 1_000;
/// The most ticks of a picture.
pub const TICKS_MAX: usize = 100_000;
/// The places of the ends of an index, in points.
pub const ENDS_PLACES: usize = 6;
/// The places of a strike, in points.
pub const STRIKE_PLACES: usize = 3;
/// The places of the ends of a forward, in points.
pub const FORWARD_PLACES: usize = 12;

/// Where the drawing begins and how large it is, in tenths of a pixel.
pub const LEFT: u32 = 900;

pub const TOP: u32 = 900;

pub const WIDTH: u32 = 10_800;

pub const HEIGHT: u32 = 4_000;

/// The most steps from the lowest figure to the highest.
pub const STEPS_MAX: u32 = 7;
/// The greatest step of the scale of figures, 500 points, in hundredths of a point.
pub const CENT_STEP_MAX: u32 = 50_000;
/// The greatest end of the scale of figures, one step above the greatest figure, in hundredths of a point.
pub const CENT_SCALE_MAX: u32 = vx_num::limits::CENTS_MAX as u32 + CENT_STEP_MAX;
/// The most steps from the first minute to the last.
pub const TIMES_MAX: u16 = 12;
