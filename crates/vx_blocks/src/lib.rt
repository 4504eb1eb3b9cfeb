//! The lines of a slot as what takes them up reads them: ahead and in blocks, since splitting many lines at once costs
//! far less than splitting each alone, and from outside one after another. The device is never asked while a whole
//! line is in hand.
#![tactic(auto)]

mod split_lines;
mod stop;

pub use split_lines::{Rest, SplitLines};
pub use stop::ReadStop;

#[cfg(test)]
mod tests;
