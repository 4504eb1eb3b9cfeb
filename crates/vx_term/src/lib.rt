//! One term's variance: the numbers on the way to it, in bounded arithmetic, or why there is none; and
//! the square of the index, from the variances of two terms or of one.
//!
//! Every answer is the one that the definitions in `specs/` give, and a term has at most one. Each
//! number is an interval that encloses its exact value.
#![tactic(auto)]

mod answer;
mod index;
mod kept;
mod laws;
mod level;
pub mod limits;
mod run;
mod variance;

pub use answer::{TermAnswer, TermRefusal, TermRun};
pub use index::{interpolate, single};
pub use kept::term_variance_kept;
pub use laws::{
    answer_is_meant, answer_is_tight, clear_forward_is_decided, exponential_is_one,
    square_is_ordered, term_answer_is_one, variance_is_ordered,
};
pub use variance::{term_variance, variance_with};

#[cfg(test)]
mod tests;
