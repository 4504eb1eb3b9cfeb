//! What is answered to the opening of a feed.

use vx_cert::Certificate;
use vx_term::TermRefusal;

/// An opening figure in hundredths of a point, two ends around the exact value in millionths of a
/// point, and the certificate of it.
#[derive(Debug, Drop)]
pub struct Figure {
    pub cents: u64,
    pub lo: i64,
    pub hi: i64,
    pub certificate: Certificate,
}

/// Why an opening has no figure. Of several causes the first that holds, in this order, is answered.
#[derive(Clone, Copy, Debug, PartialEq, Eq)]
pub enum SoqReason {
    /// The opening was not taken.
    NoOpening,
    /// The `SPX` expiry 30 days after the trade date was not declared before the opening.
    NoTerm,
    /// The term has no variance.
    Term(TermRefusal),
    /// The square of the index is below zero.
    NegativeVariance,
}

/// The answer to the opening.
#[derive(Debug, Drop)]
pub enum OpeningAnswer {
    Published(Figure),
    Refused(SoqReason),
    /// A listed strike, in thousandths of a point, lies between the ends of the forward, in units of
    /// `10^-12` point.
    UndecidedForward { strike: u32, lo: i128, hi: i128 },
    /// A rounding boundary lies between the index's ends, in millionths of a point.
    UndecidedCents { lo: i64, hi: i64 },
}
