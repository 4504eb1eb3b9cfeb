//! The limit of the forward's exponential, stated here alone.

/// How wide the interval of an exponential is at most, in units of its scale.
pub const EXPONENTIAL_WIDTH_MAX: u32 = 32;
