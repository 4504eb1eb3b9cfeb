//! The lines of a feed: what each may say, which line may follow which, and how they are read and written.
#![tactic(auto)]

pub mod events;
pub mod faults;
mod form;
pub mod kinds;
mod known;
mod laws;
pub mod limits;
mod order;
mod read;
mod write;

pub use events::Event;
pub use faults::FeedFault;
pub use known::KnownSymbols;
pub use laws::{
    faults_by_cause, first_cause_is_answered, lawful_lists, lawful_prefixes, next_listing,
    next_opening, next_rows, next_standing,
};
pub use order::{Declared, Order};
pub use read::{event_of_fields, read_event};
pub use write::write_event;

#[cfg(test)]
mod tests;
#[cfg(test)]
mod write_tests;
