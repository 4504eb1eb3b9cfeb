//! The tests of a certificate's numbers, each exactly as it is defined: products, sums and comparisons
//! of what a certificate states of a term and of its figure, and of what a feed shows of that term.
//!
//! No test takes memory, and no product or sum leaves 128 bits: each bound comes from a type or from
//! an earlier test. That is why the order of the tests may not change.
#![tactic(auto)]

pub mod exponential;
pub mod figure;
pub mod forward;
pub mod level;
pub mod order;
pub mod pair;
pub mod scale;
pub mod strip;
pub mod sums;
pub mod term;
pub mod variance;
pub mod walk;
