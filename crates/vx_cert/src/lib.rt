//! Certificates: what a published figure rests on, number by number, so that somebody else can
//! test it. This crate has their types, reads them from lines of JSON, and writes them.
#![tactic(auto)]

pub mod certificate;
pub mod fault;
mod field;
mod form;
pub mod laws;
pub mod limits;
mod read;
pub mod rows;
mod send;
#[cfg(test)]
mod tests;
mod tokens;
mod write;
#[cfg(test)]
mod write_tests;
mod written;

pub use certificate::{CertBody, CertFigure, CertTerm, Certificate, Ends, Pair};
pub use fault::CertFault;
pub use read::read_cert;
pub use rows::{CertRow, CertRows};
pub use write::write_cert;
