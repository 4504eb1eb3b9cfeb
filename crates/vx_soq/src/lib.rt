//! The opening figure.
//!
//! The call answers a book of the day's events; the types of its answer, the definition of the answer and
//! the laws about it stand beside it.
#![tactic(auto)]

mod answer;
mod laws;
mod opening;
#[cfg(test)]
mod tests;

pub use answer::{Figure, OpeningAnswer, SoqReason};
pub use laws::{
    clear_opening_is_answered, opening_answer_is_lawful, opening_answer_is_one,
    opening_answer_stays, opening_can_be_written,
};
pub use opening::opening_figure;
