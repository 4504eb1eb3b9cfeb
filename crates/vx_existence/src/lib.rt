//! Every tick has an answer, so no text that is defined over answers is empty by accident; and the answer
//! of one day, written out.
//!
//! Each function here does nothing: its clauses are the laws.
#![tactic(auto)]

mod laws;

pub use laws::{
    every_figure_has_answer, every_term_has_answer, every_tick_has_answer, opening_has_answer,
    worked_day_is_answered,
};
