//! The sum of a strip: each row's contribution rounded down and up at a scale, and their totals.
//!
//! The exact contribution and its rounded-up end are those of `vx_formula`; this crate divides.
#![tactic(auto)]

mod divide;
mod fault;
mod kept;
mod laws;
mod matching;
pub mod sum;
mod summing;
mod totals;

pub use fault::SumRefusal;
pub use kept::KeptStrip;
pub use laws::sum_is_one;
pub use sum::{StripSum, SumRow, SumRows};
pub use summing::sum_strip;

#[cfg(test)]
mod tests;
