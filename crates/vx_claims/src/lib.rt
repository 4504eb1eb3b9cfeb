//! What the product claims of its answers: when a certificate is accepted, what that means, and
//! which answers of a tick and of an opening are lawful.
//!
//! The definitions stand in `specs/`, over lists of events and certificates. Each function here is a
//! law about them.
#![tactic(auto)]

pub mod acceptance;
mod laws;
pub mod limits;

pub use acceptance::Test;
pub use laws::{
    accepted_has_no_failing_test, accepted_level_means, failing_test_is_one, listed_rows_rise,
    stated_ends_are_decided, tick_is_answered,
};
