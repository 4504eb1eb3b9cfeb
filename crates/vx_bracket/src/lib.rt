//! The bracket that catches the exponential between fractions: definitions and laws alone.
//!
//! For an exponent `x` from 0 to 1 and every `n`, the exponential lies between Taylor's sum
//! `S_n = 1 + x + .. + x^n/n!` and `U_n = S_n + 2*x^(n+1)/(n+1)!`. The bracket of `x` at `n` holds
//! the fractions from `S_n` to `U_n`; for a negative `x` it holds the positive fractions whose
//! reciprocal is in the bracket of `-x`. The definitions stand in `specs/`, and each function here is
//! a law about them.
#![tactic(auto)]

mod laws;

pub use laws::{
    bracket_has_member, brackets_meet, brackets_nest, forms_agree_at_zero, members_are_positive,
    zero_gives_one,
};
