//! The answer to every tick of a feed.
//!
//! This crate has the types, the definition of the answer, the join of the answers for two terms, the
//! replay that takes up one event after another, and the laws.
#![tactic(auto)]

mod answer;
mod join;
mod laws;
mod replay;
#[cfg(test)]
mod tests;
mod tick;

pub use answer::{Reason, TickAnswer, Which};
pub use join::join_terms;
pub use laws::{
    clear_tick_is_answered, picked_answers_are_joinable, tick_answer_is_lawful, tick_answer_is_one,
};
pub use replay::Replay;
pub use vx_claims::limits::SCALE;
