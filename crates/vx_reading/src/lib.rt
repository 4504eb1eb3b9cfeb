//! The feed as every command reads it: blocks of lines ahead, one event after another for what takes
//! them up, and never a call of the device while a whole line is in hand.
#![tactic(auto)]

mod feed;
mod stop;
mod takes;

pub use feed::FeedReader;
pub use stop::{FeedCause, FeedStop};
pub use takes::TakesEvents;
