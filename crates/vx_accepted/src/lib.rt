//! What the calculator certifies is accepted: each test of a certificate is met by the numbers of a run,
//! and each number is in the range of its field.
//!
//! Each function here does nothing: its clauses are the laws.
#![tactic(auto)]

mod laws;

pub use laws::{
    certified_is_statable, certified_term_is_true, declared_expiries_are_in_range,
    facts_are_lawful, picked_minutes_are_in_range, terms_are_picked_or_none,
};
