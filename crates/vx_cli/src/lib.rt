//! The commands of `vixcert`: their words, what they send, and the exit that each run ends in.
#![tactic(auto)]

mod check;
mod complaint;
mod drill;
mod laws;
mod make;
mod operands;
mod program;
mod replay;
mod request;
mod settle;
mod settle_lines;
#[cfg(test)]
mod tests;
mod text_desk;
mod tick_lines;
mod words;

pub use complaint::exit_line;
pub use laws::{
    check_is_one, drill_answers_every_tick, drill_is_one, replay_is_accepted, replay_is_one,
    settle_is_accepted, settle_is_one,
};
pub use program::run;
pub use vx_drivers::{Exit, FeedCause, LineCause, PositionCause};
