//! Splits lines at their commas, a block of lines at a time.
//!
//! The splitting is `csv`'s. Making one of its readers costs as much as a hundred lines, so one reader
//! goes over a whole block of lines.
#![tactic(auto)]

mod block;
mod line;
mod table;

pub use block::LineBlock;
pub use line::{Unsplit, is_plain_line, plain_lines, why_unsplit};
pub use table::{FieldTable, Fields};

#[cfg(test)]
mod tests;
