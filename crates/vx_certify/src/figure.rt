//! The figure: what is decided from the square of the index, and what a certificate states of it.

ghost use Rattle.std.specs.Prelude.{◌≡◌};
ghost use Rattle.vx_interval.specs.Ends.{IsInterval};
ghost use Rattle.vx_term.specs.Ranges.{IsSquareInRange};
ghost use Rattle.vx_certify.specs.Certified.{certified_ends, certified_figure};
ghost use Rattle.vx_certify.specs.Laws.{IsDecided};

use vx_bounds::{Decision, decide, root_ends};
use vx_cert::{CertFigure, Ends};
use vx_interval::Iv;

/// The ends of the index, in millionths of a point, and what they say of its figure.
#[derive(Clone, Copy, Debug, PartialEq, Eq)]
pub struct IndexDecision {
    pub lo: i64,
    pub hi: i64,
    pub decision: Decision,
}

/// Decides on the figure of an index, from the square of the index over 100. The ends are the nearest
/// millionths of a point around the root, as this project prints them.
///
/// The square is within 1024. Takes no memory.
pub fn decide_index<const P: u32>(square: &Iv<P>) -> IndexDecision
    requires interval { IsInterval P square.now }
    requires range { IsSquareInRange P square.now }
    ensures { IsDecided P square.now result.lo result.hi result.decision }
{
    let (lo, hi) = root_ends(square);
    IndexDecision {
        lo,
        hi,
        decision: decide(lo, hi),
    }
}

/// What a certificate states of a figure in hundredths of a point: the square that it comes from, in
/// units of `2^-P`, the ends of the index, in millionths of a point, and the figure itself. Takes no
/// memory.
pub fn certify_figure<const P: u32>(square: &Iv<P>, lo: i64, hi: i64, cents: u64) -> CertFigure
    ensures { result ≡ certified_figure square.now lo hi cents }
{
    CertFigure {
        x: certified_ends(square),
        lo,
        hi,
        cents,
    }
}

/// The ends of an interval as a certificate states them.
pub fn certified_ends<const P: u32>(x: &Iv<P>) -> Ends
    ensures { result ≡ certified_ends x.now }
{
    Ends {
        lo: x.lo(),
        hi: x.hi(),
    }
}
