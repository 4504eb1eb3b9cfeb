//! The ways in which commands run over a feed: each one is a driver, written once and generic over what
//! answers.
#![tactic(auto)]

mod certificates;
mod check_run;
mod devices;
mod exit;
mod laws;
pub mod limits;
mod output;
mod position_laws;
mod position_lines;
mod position_run;
#[cfg(test)]
mod position_tests;
mod positions;
pub mod text;
mod tick_laws;
mod tick_output;
mod tick_run;
#[cfg(test)]
mod tick_tests;
mod ticks;

pub use certificates::AnswersCertificates;
pub use check_run::answer_certificates;
pub use devices::{open_slot, send_line};
pub use exit::{Exit, LineCause, PositionCause};
pub use laws::{certificate_run_is_one, certificate_run_is_there};
pub use position_laws::{position_run_is_one, position_run_is_there};
pub use position_run::settle_positions;
pub use positions::{AnswersOpening, SettlesPositions};
pub use tick_laws::tick_run_is_one;
pub use tick_run::answer_ticks;
pub use ticks::{AnswersTicks, Tally};
pub use vx_reading::{FeedCause, TakesEvents};
