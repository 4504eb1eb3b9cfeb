//! Symbols of option series, prices, and the rows of a term.
#![tactic(auto)]

pub mod limits;
pub mod rows;
pub mod symbols;
#[cfg(test)]
mod tests;

pub use rows::{Price, StrikeRow, TermView};
pub use symbols::{Side, Symbol, SymbolFault, read_symbol, write_symbol};
