//! Texts that are written from their end, in a room of fixed size.
//!
//! A line of numbers is put together from its end, since the digits of a number come out last one
//! first. Its room is an array of the caller's, and its place in it is a plain number: what has been
//! written stands from the place to the room's end, and each function here puts a text in front of it
//! and answers the place of that. So a whole line needs one array and one copy, and no test of room:
//! that each text fits is shown before the program runs.
//!
//! `proofs/` has the lengths of the texts for the crates above, whose proofs cite them as
//! `use Rattle.vx_room.proofs.Lengths.{decimal_short}`.
#![tactic(auto)]

mod decimal;
mod natural;
mod place;

pub use decimal::{put_decimal, put_signed, put_wide_decimal, put_wide_signed};
pub use natural::{put_natural, put_wide_natural};
pub use place::{put, put_all, put_digit, written};

#[cfg(test)]
mod tests;
