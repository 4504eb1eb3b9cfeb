//! The strip of a term at its level: the selected strikes with their widths and prices.
//!
//! The definitions of the selection, of widths and of prices are those of `vx_formula`; this crate
//! has the strip as the program holds it, and makes it.
#![tactic(auto)]

mod fault;
pub mod limits;
mod selection;
pub mod strip;
mod walk;

pub use fault::StripRefusal;
pub use selection::select;
pub use strip::{Strip, StripRow, StripRows};

#[cfg(test)]
mod tests;
