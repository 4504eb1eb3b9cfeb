//! Sample feeds, for trials and for measuring: a day of quotes of two terms, drawn by a small generator
//! whose numbers depend on a start number alone. The definitions stand in `specs/`.
#![tactic(auto)]

mod drawing;
mod feed;
pub mod laws;
pub mod limits;
mod line;
mod pieces;
mod quotes;

pub use drawing::draw;
pub use feed::make_feed;
pub use pieces::SampleFeed;

#[cfg(test)]
mod tests;
