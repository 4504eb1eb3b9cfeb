//! Positions in volatility futures: how their lines are read, and what they settle to.
#![tactic(auto)]

mod fault;
mod form;
pub mod laws;
pub mod limits;
mod position;
mod read;
mod settlement;

pub use fault::PositionFault;
pub use form::position_of_fields;
pub use position::{Contract, Position};
pub use read::read_position;
pub use settlement::amount;

#[cfg(test)]
mod tests;
