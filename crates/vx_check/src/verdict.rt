//! The answer to a certificate.

/// The answer to a certificate: all tests of its kind hold, or the first that fails, by its number.
#[derive(Clone, Copy, Debug, PartialEq, Eq)]
pub enum Verdict {
    Yes,
    No(u32),
}
