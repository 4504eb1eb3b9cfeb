//! What a lawful feed shows is in range: its rows, its rates, and the minutes to its settlements.
//!
//! Each function here does nothing: its clauses are the laws.
#![tactic(auto)]

mod laws;

pub use laws::{opening_is_lawful, standing_is_lawful};
