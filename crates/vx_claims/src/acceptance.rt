//! The tests of acceptance, by their names.

/// What a certificate is tested for, in the order of the tests. The formats print the test at place
/// n as `An`; a kind of certificate may lack some of them.
#[derive(Clone, Copy, Debug, PartialEq, Eq)]
pub enum Test {
    /// The feed line is a tick, or the opening, at the stated minute.
    Place,
    /// The terms are the ones that the feed shows there.
    Terms,
    /// The minutes to each settlement.
    Minutes,
    /// The standing rate.
    Rate,
    /// The terms of the exponential's series.
    TaylorTerms,
    /// The ends of the exponential.
    Exponential,
    /// The closest put-call pair.
    ClosestPair,
    /// The ends of the forward.
    Forward,
    /// The level `K0`.
    Level,
    /// The ends of the forward's excess over the level.
    Excess,
    /// The selected strikes with their widths and prices.
    Strip,
    /// The ends of what each selected strike adds.
    Contributions,
    /// The ends of the strip's sum.
    Total,
    /// The ends of the variance.
    Variance,
    /// The ends of the square of the index.
    Square,
    /// The printed ends of the index and the figure.
    IndexEnds,
}
