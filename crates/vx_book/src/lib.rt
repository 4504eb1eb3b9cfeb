//! What the events of a day's feed say so far: the calculator's own table of series, prices and rates.
#![tactic(auto)]

mod book;
mod opening;
mod series;
mod table;
#[cfg(test)]
mod tests;

pub use book::Book;
pub use opening::Opened;
