//! What is answered for one term.

use vx_bounds::ExpRun;
use vx_clock::Expiry;
use vx_forward::Pair;
use vx_interval::Iv;
use vx_strip::Strip;
use vx_sum::StripSum;

/// Every number on the way to a term's variance. Intervals count units of `2^-P`.
#[derive(Debug, Drop)]
pub struct TermRun<const P: u32> {
    pub expiry: Expiry,
    /// Minutes to settlement, 1 to 262,800.
    pub minutes: u32,
    /// The rate in units of `10^-8` a year, -5,000,000 to 25,000,000.
    pub rate: i32,
    /// The exponential `e^(rate * time)`, with the terms that bound it.
    pub exp: ExpRun<P>,
    /// The strike whose call and put differ least.
    pub pair: Pair,
    /// The forward, in thousandths of a point.
    pub f: Iv<P>,
    /// The level: the listed strike at or below the forward, in thousandths of a point.
    pub k0: u32,
    /// How far the forward lies above the level, over the level.
    pub g: Iv<P>,
    /// The selected strikes with their widths and prices.
    pub strip: Strip,
    /// What they contribute, and the sum of it.
    pub sum: StripSum<P>,
    /// The variance times the term's time.
    pub w: Iv<P>,
}

/// Why a term has no variance. Of several causes the first that holds, in this order, is answered.
#[derive(Clone, Copy, Debug, PartialEq, Eq)]
pub enum TermRefusal {
    /// No rate stands for the expiry.
    NoRate,
    /// No listed strike has a live put and a live call.
    NoPair,
    /// Every listed strike is above the forward.
    NoStrikeBelow,
    /// No listed strike is above the level and at most twice it.
    NoStrikeAbove,
    /// The put or the call at the level has no price.
    NoMoney,
    /// No strike below the level is selected.
    NoPut,
    /// No strike above the level is selected.
    NoCall,
    /// The strip's rounded-up contributions add to more than 2, in units of `2^-P`.
    StripTooLarge { upper: u128 },
}

/// The answer for one term.
#[derive(Debug, Drop)]
pub enum TermAnswer<const P: u32> {
    Run(TermRun<P>),
    Refused(TermRefusal),
    /// A listed strike, in thousandths of a point, lies between the forward's printed ends, which are
    /// in units of `10^-12` point: the lowest such.
    UndecidedForward { strike: u32, lo: i128, hi: i128 },
}
