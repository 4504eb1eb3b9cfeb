//! The closest put-call pair of a term, its forward, and the level.
//!
//! The forward is an interval that encloses its value for every exponential in an interval. The level
//! is decided from the forward's two printed ends: where a listed strike lies between them, the answer
//! says so. The definitions stand in `specs/`, and those of the formula in `vx_formula`.
#![tactic(auto)]

mod forwards;
mod laws;
mod level;
pub mod limits;
mod pairs;
#[cfg(test)]
mod tests;

pub use forwards::{forward, forward_ends};
pub use laws::{
    answer_holds_of_forwards, answer_is_one, forward_is_enclosed, forward_reaches_ends,
    level_lies_below_forward, printed_ends_are_equal, printed_ends_are_near,
    printed_ends_lie_around,
};
pub use level::{K0Answer, find_k0};
pub use pairs::{Pair, closest};
