//! The widths that this crate's results keep to, each stated here alone.

/// The greatest width of a term's variance, in units of `2^-P`.
pub const VARIANCE_WIDTH_MAX: u32 = 37_000;

/// The greatest width of the square of the index from such variances, in units of `2^-P`.
pub const SQUARE_WIDTH_MAX: u32 = 5_788_000;
