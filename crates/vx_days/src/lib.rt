//! Worked days and certificates, computed on the definitions. Each function does nothing: its clauses are the example.
//!
//! They stand above all definitions that they compute, in a crate on which no part of the program stands, so that
//! what they take to compute is waited for by nobody.
#![tactic(auto)]

mod certificates;
mod days;
mod orders;

pub use certificates::{certificate_lines, level_certificates, single_certificates};
pub use days::{crossed_quote, sample_feed, sample_text, terms_of_none, two_terms};
pub use orders::order_decides;
