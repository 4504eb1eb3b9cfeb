//! What is answered to a tick.

use vx_cert::Certificate;
use vx_term::TermRefusal;

/// Of which term a tick's answer speaks.
#[derive(Clone, Copy, Debug, PartialEq, Eq)]
pub enum Which {
    Near,
    Next,
    Both,
}

/// Why a tick has no figure.
#[derive(Clone, Copy, Debug, PartialEq, Eq)]
pub enum Reason {
    /// No declared expiry is in the term's window.
    NoTerm,
    /// The term has no variance.
    Term(TermRefusal),
    /// The square of the index is below zero.
    NegativeVariance,
}

/// The answer to a tick.
#[derive(Debug, Drop)]
pub enum TickAnswer {
    /// The figure in hundredths of a point, two ends around the exact value in millionths of a point,
    /// and the certificate of it.
    Published {
        cents: u64,
        lo: i64,
        hi: i64,
        certificate: Certificate,
    },
    /// A rounding boundary lies between the index's ends, in millionths of a point.
    UndecidedCents {
        lo: i64,
        hi: i64,
    },
    /// A listed strike, in thousandths of a point, lies between the ends of a term's forward, in units
    /// of `10^-12` point.
    UndecidedForward {
        which: Which,
        strike: u32,
        lo: i128,
        hi: i128,
    },
    Refused {
        reason: Reason,
        which: Which,
    },
}
