//! Whole-number helpers of the index calculator: directed division, decimal texts, a counter of
//! steps, and the laws of fractions.
//!
//! Everything the product computes is exact arithmetic of whole numbers and of fractions compared
//! by cross multiplication. The definitions stand in `specs/`.
//!
//! `proofs/` has lemmas for the crates above, whose proofs cite them as
//! `use Rattle.vx_num.proofs.Whole.{mul_mono}`: `Whole` on products of whole numbers and their
//! order, `Differences` for identities of whole numbers in one line, `Squares` on products and
//! squares within bounds, `Quotients` on quotients that are rounded down or up, and `Fractions` on
//! fractions, both by top and bottom and as one value.
#![tactic(auto)]

mod decimal;
mod fault;
pub mod laws;
pub mod limits;
mod quotient;
mod steps;
mod writing;

pub use decimal::{read_decimal, read_signed, read_wide};
pub use fault::{DecimalFault, NoMemory};
pub use quotient::{div_ceil, div_floor};
pub use steps::Steps;
pub use writing::{write_decimal, write_signed, write_wide};

#[cfg(test)]
mod tests;
