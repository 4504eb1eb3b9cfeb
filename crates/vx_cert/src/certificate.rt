//! What a certificate states.

use crate::rows::CertRows;
use vx_clock::Expiry;

/// The two ends of an interval, as multiples of `2^-60` (version 1) or `2^-62` (version 2).
#[derive(Clone, Copy, Debug, PartialEq, Eq)]
pub struct Ends {
    pub lo: i128,
    pub hi: i128,
}

/// A strike, in thousandths of a point, and how far its call's half price lies above its put's,
/// in half cents.
#[derive(Clone, Copy, Debug, PartialEq, Eq)]
pub struct Pair {
    pub strike: u32,
    pub d: i32,
}

/// One term's part of a certificate: each number on the way to its variance.
#[derive(Debug, Drop)]
pub struct CertTerm {
    pub expiry: Expiry,
    /// Minutes to settlement, 1 to 262,800.
    pub minutes: u32,
    /// The rate in units of `10^-8` a year, -5,000,000 to 25,000,000.
    pub rate: i32,
    /// The exponential's Taylor terms, rounded down.
    pub t_lo: [u64; 14],
    /// The exponential's Taylor terms, rounded up.
    pub t_hi: [u64; 14],
    /// The exponential `e^(rate * time)`.
    pub e: Ends,
    /// The strike whose call and put differ least.
    pub pair: Pair,
    /// The forward, in thousandths of a point.
    pub f: Ends,
    /// The listed strike at or below the forward, in thousandths of a point.
    pub k0: u32,
    /// How far the forward lies above `k0`, over `k0`.
    pub g: Ends,
    /// The selected strikes with their contributions, 1 to 2,000 of them.
    pub rows: CertRows,
    /// The sum of the contributions.
    pub s: Ends,
    /// The variance times the term's time.
    pub w: Ends,
}

/// The figure that a certificate is for.
#[derive(Clone, Copy, Debug, PartialEq, Eq)]
pub struct CertFigure {
    /// The square of the index over 100.
    pub x: Ends,
    /// The index's low end, in millionths of a point.
    pub lo: i64,
    /// The index's high end, in millionths of a point.
    pub hi: i64,
    /// The index in hundredths of a point, 0 to 320,000.
    pub cents: u64,
}

/// What a certificate asserts, by its kind.
#[derive(Debug, Drop)]
pub enum CertBody {
    /// The closest pair and the level `k0` of an expiry at rate zero.
    K0 {
        expiry: Expiry,
        pair: Pair,
        k0: u32,
    },
    /// A figure from one term that settles in exactly 30 days.
    Single {
        term: CertTerm,
        figure: CertFigure,
    },
    /// The index for so many days, from the near and the next term.
    Index {
        days: u32,
        near: CertTerm,
        next: CertTerm,
        figure: CertFigure,
    },
    /// An opening figure.
    Soq {
        term: CertTerm,
        figure: CertFigure,
    },
}

/// A certificate for the event at a line of a feed.
#[derive(Debug, Drop)]
pub struct Certificate {
    /// The version: 1 for numbers at scale `2^-60`, 2 for `2^-62`.
    pub v: u32,
    /// The feed line, 1 to 10,000,000, counted from 1.
    pub line: u64,
    /// The minute of the day, 0 to 1,439.
    pub time: u16,
    pub body: CertBody,
}
