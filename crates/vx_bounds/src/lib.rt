//! Bounds of the exponential, ends of the root, and the decision on a figure.
//!
//! The exponential is caught by two lists of rounded terms of Taylor's sum, the root by whole numbers
//! whose squares lie on either side. The definitions stand in `specs/`.
#![tactic(auto)]

mod cents;
mod exponential;
mod laws;
mod root;

pub use cents::{Decision, decide, round_cents};
pub use exponential::{ExpRun, exp_bounds, exp_signed};
pub use laws::{decision_is_one, roots_are_one, roots_are_ordered};
pub use root::root_ends;

#[cfg(test)]
mod tests;
