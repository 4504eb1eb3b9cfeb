//! An accepted certificate means what it says: the theorem about the definitions of acceptance.
//!
//! Its proof follows a certificate's numbers from the exponential to the printed ends: each pair of
//! ends encloses the formula's value at every member of the bracket.
#![tactic(auto)]

mod laws;

pub use laws::accepted_means;
