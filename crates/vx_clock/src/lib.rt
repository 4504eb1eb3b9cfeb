//! Days of the calendar, minutes to settlement, and the choice of the two terms.
#![tactic(auto)]

pub mod clock;
pub mod days;
pub mod digits;
pub mod laws;
pub mod limits;
pub mod picking;
pub mod terms;
#[cfg(test)]
mod tests;

pub use clock::{read_clock, write_clock};
pub use days::{DayFault, DayNo, date_of, day_of, read_day, write_day};
pub use picking::pick_terms;
pub use terms::{Expiry, Moment, NoTerm, Root, minutes_to};
