//! Lines of a text: definitions, and laws about them.
//!
//! A text is cut at each LF. Its lines are the whole ones before the first that has too many bytes,
//! and its ending says what stands behind them. The definitions stand in `specs/`, and each function
//! here is a law about them.
#![tactic(auto)]

mod laws;

pub use laws::{cut_is_lines, lines_are_cut};

/// The byte that ends each line.
pub const LF: u8 = b'\n';
