//! The checker. It keeps what a feed's events say in a plain table, and tests a certificate's numbers
//! against it by products, sums and comparisons. It shares no arithmetic with the calculator.
#![tactic(auto)]

pub mod book;
#[cfg(test)]
mod book_tests;
pub mod check;
pub mod figure;
pub mod index;
mod level;
mod opening;
mod prices;
mod single;
mod soq;
mod table;
mod tables;
pub mod term;
#[cfg(test)]
mod tests;
mod tick;
mod trades;
pub mod verdict;

pub use book::PlainBook;
pub use check::check_cert;
pub use figure::check_figure;
pub use index::check_index;
pub use opening::{Opening, OpeningTerm};
pub use term::check_term;
pub use verdict::Verdict;
