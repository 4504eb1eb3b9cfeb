//! Devices: four slots that are opened by name, read and written, with lines cut from what is read
//! and bytes sent whole. Everything is stated over what a desk tells of its slots, so that the same
//! contract holds over memory and over real files.
#![tactic(auto)]

mod device;
mod failures;
mod held;
mod lines;
mod memory;
mod reader;
mod real;
mod sending;

pub use device::{Desk, Failed, Slot};
pub use lines::{LF, Line, ReadFault};
pub use memory::MemDesk;
pub use reader::{LONGEST_LINE, LineReader};
pub use real::RealDesk;
pub use sending::{SendFault, send};

#[cfg(test)]
mod tests;
