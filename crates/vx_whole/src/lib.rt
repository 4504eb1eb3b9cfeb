//! Laws of the whole: whatever the bytes of its files, each command has a run, so that what is defined
//! of its texts is not empty.
//!
//! Each function here does nothing: its clauses are the laws.
#![tactic(auto)]

mod laws;

pub use laws::{
    check_is_there, every_certificate_has_verdict, every_line_is_read, replay_is_there,
    settle_is_there,
};
