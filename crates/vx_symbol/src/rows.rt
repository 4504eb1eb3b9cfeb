//! What a term shows: prices, listed strikes and the rate.

use vx_clock::Expiry;

/// The price of one series.
///
/// Over quotes, `there` says that a quote stands, `live` that its bid is at least a cent, and `half`
/// is its bid plus its ask. Over the opening, a series that traded is there and live with twice its
/// price, and any other is as its opening quote says.
#[derive(Clone, Copy, Debug, PartialEq, Eq)]
pub struct Price {
    pub there: bool,
    pub live: bool,
    /// In half cents; 0 where no price is there.
    pub half: u32,
}

/// A listed strike, both of whose series are listed.
#[derive(Clone, Copy, Debug, PartialEq, Eq)]
pub struct StrikeRow {
    /// In thousandths of a point.
    pub strike: u32,
    pub put: Price,
    pub call: Price,
}

/// What one term shows: its rate in 10^-8 per year where one stands, and its listed strikes in
/// rising order.
#[derive(Clone, Copy, Debug)]
pub struct TermView<'a> {
    pub expiry: Expiry,
    pub rate: Option<i32>,
    pub rows: &'a [StrikeRow],
}
