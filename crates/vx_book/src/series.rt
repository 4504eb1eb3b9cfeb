//! What is kept of each listed series, found by its symbol.

ghost use Rattle.std.specs.Prelude.{◌≡◌, ◌<◌, Some, IfSome, IsSome, IsOk, OnOk, OnErr, option_map};
ghost use Rattle.indexmap.specs.IndexMap.{spare};
ghost use Rattle.vx_feed.specs.Listed as listed;
ghost use Rattle.vx_book.specs.Series.{kept, SetsSeries, IsSameSeries};

use indexmap::IndexMap;
use vx_clock::Expiry;
use vx_num::NoMemory;
use vx_symbol::{Price, Side, Symbol};

/// Where the price of a series stands.
#[derive(Clone, Copy, Debug)]
pub enum Place {
    /// Here, while no series is listed on the other side of its strike.
    Alone(Price),
    /// In the row of its strike. Rows are numbered from 0 in the order in which their strikes came to
    /// have both sides.
    Row(usize),
}

/// What is kept of a listed series.
#[derive(Clone, Copy, Debug)]
pub struct Series {
    /// Where its expiry stands in the order of declaration, from 0.
    pub expiry: usize,
    pub place: Place,
    /// The price of its opening trade, in cents, once it has one.
    pub traded: Option<u32>,
}

/// What is kept of a series, where it is listed.
#[inline(always)]
pub fn find(series: &IndexMap<Symbol, Series>, symbol: &Symbol) -> Option<Series>
    ensures { result ≡ kept series.now symbol.now }
{
    series.get(symbol).copied()
}

/// What is kept of a series, where it is listed, and its place in order of listing, from 0. The place
/// behind the one found last is tried first, since it needs no hash.
#[inline(always)]
pub fn find_near(
    series: &IndexMap<Symbol, Series>,
    symbol: &Symbol,
    last: usize,
) -> Option<(usize, Series)>
    ensures { option_map (λ found. found.1) result ≡ kept series.now symbol.now }
{
    let next = last.wrapping_add(1);
    if let Some(one) = find_at(series, symbol, next) {
        return Some((next, one));
    }
    let (place, _, one) = series.get_full(symbol)?;
    Some((place, *one))
}

/// What is kept of a series, where it stands at this place.
#[inline(always)]
fn find_at(series: &IndexMap<Symbol, Series>, symbol: &Symbol, place: usize) -> Option<Series>
    ensures { IfSome result (λ one. kept series.now symbol.now ≡ Some one) }
{
    let (there, one) = series.get_index(place)?;
    if *there == *symbol { Some(*one) } else { None }
}

/// Keeps this of a series. It takes memory only for one of which nothing is kept yet, and no more than
/// was reserved.
pub fn set(
    series: &mut IndexMap<Symbol, Series>,
    symbol: &Symbol,
    one: Series,
) -> Result<(), NoMemory>
    ensures done { OnOk result (SetsSeries symbol.now one series.old series.new) }
    ensures refused { OnErr result (IsSameSeries series.old series.new) }
    ensures known { IsSome (kept series.old symbol.now) → IsOk result }
    ensures reserved { 0 < spare series.old → IsOk result }
{
    series.insert(*symbol, one)?;
    Ok(())
}

/// The expiry of a series.
pub fn expiry_of(symbol: &Symbol) -> Expiry
    ensures { result ≡ listed.expiry_of symbol.now }
{
    Expiry {
        root: symbol.root,
        date: symbol.date,
    }
}

/// The series of the same strike on the other side.
pub fn other_side(symbol: &Symbol) -> Symbol
    ensures { result ≡ listed.other_side symbol.now }
{
    let side = match symbol.side {
        Side::Call => Side::Put,
        Side::Put => Side::Call,
    };
    Symbol { side, ..*symbol }
}
