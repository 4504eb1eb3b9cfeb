//! The level that a term's forward tells.

ghost use Rattle.std.specs.Prelude.{IfOk, IfErr};
ghost use Rattle.vx_symbol.specs.Rows.{IsLawfulTerm};
ghost use Rattle.vx_term.specs.Steps.{IsAnswerWithoutLevel, IsExponentialInRange, IsTold};

use crate::answer::{TermAnswer, TermRefusal};
use vx_forward::{K0Answer, Pair, closest, find_k0, forward};
use vx_interval::Iv;
use vx_symbol::TermView;

/// A level, with the pair and the forward that tell it.
#[derive(Clone, Copy)]
pub struct ToldLevel<const P: u32> {
    pub pair: Pair,
    pub f: Iv<P>,
    /// The place of the level's row.
    pub place: usize,
}

/// The level of a term where its exponential lies in an interval, or the answer where there is none.
/// Takes no memory.
pub fn tell_level<const P: u32>(term: &TermView, e: &Iv<P>) -> Result<ToldLevel<P>, TermAnswer<P>>
    requires lawful { IsLawfulTerm term.now }
    requires exponential { IsExponentialInRange P e.now }
    ensures level { IfOk result (IsTold P term.now.rows.now e.now) }
    ensures answered { IfErr result (IsAnswerWithoutLevel P term.now.rows.now e.now) }
{
    let pair = match closest(term) {
        Some(pair) => pair,
        None => return Err(TermAnswer::Refused(TermRefusal::NoPair)),
    };
    let f = forward(&pair, e);
    match find_k0(term, &f) {
        K0Answer::At(place) => Ok(ToldLevel { pair, f, place }),
        K0Answer::NoStrikeBelow => Err(TermAnswer::Refused(TermRefusal::NoStrikeBelow)),
        K0Answer::NoStrikeAbove(_) => Err(TermAnswer::Refused(TermRefusal::NoStrikeAbove)),
        K0Answer::Straddle { strike, lo, hi } => {
            Err(TermAnswer::UndecidedForward { strike, lo, hi })
        }
    }
}
