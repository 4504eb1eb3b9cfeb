//! The scales of certificates, each stated here alone.

/// The scale of the product's figures, and of certificates of version 2: numbers count `2^-62`.
pub const SCALE: u32 = 62;

/// The scale of certificates of version 1: numbers count `2^-60`.
pub const FIRST_SCALE: u32 = 60;

/// An end of a forward is at most `2^(P + 27)` in absolute value, at a scale `P`.
pub const FORWARD_BITS: u32 = vx_formula::limits::FORWARD_BITS;

/// The greatest excess of the forward over the level that a certificate may state.
pub const EXCESS_MAX: u32 = 2;

/// The greatest variance, in absolute value, that a certificate may state.
pub const VARIANCE_MAX: u32 = vx_formula::limits::VARIANCE_MAX;

/// The greatest square of the index over 100, in absolute value, that a certificate may state.
pub const SQUARE_MAX: u32 = vx_formula::limits::SQUARE_MAX;

/// The greatest end of an index that a certificate may state, in millionths of a point.
pub const INDEX_END_MAX: u64 = vx_num::limits::INDEX_END_MAX;
