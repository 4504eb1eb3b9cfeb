//! Intervals of fractions with a common power of two below: the calculator's bounded arithmetic.
//!
//! An interval at scale `P` stands for all fractions from `lo/2^P` to `hi/2^P`. Each operation
//! encloses its result for all members of its arguments, and its clauses give the exact ends and how
//! wide they lie apart. Everything is whole numbers; no product reaches `2^127`.
#![tactic(auto)]

mod interval;
mod laws;
mod product;

pub use interval::Iv;
pub use laws::{members_stay_in_wider, smaller_operations_lie_inside};
pub use product::power_of_two;

#[cfg(test)]
mod tests;
