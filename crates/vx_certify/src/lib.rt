//! What a certificate states of a term's run and of a figure: the calculator's numbers, each as it is.
//!
//! The definitions stand in `specs/`: what is stated, what is decided from the ends of the index, and that
//! these are one and near each other.
#![tactic(auto)]

mod figure;
mod laws;
mod term;

pub use figure::{IndexDecision, certify_figure, decide_index};
pub use laws::{index_decision_is_one, index_is_tight, single_is_tight};
pub use term::certify_term;

#[cfg(test)]
mod tests;
