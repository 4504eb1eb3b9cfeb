//! Why a term has no strip at its level.

use thiserror::Error;
use vx_num::NoMemory;

/// Why a term has no strip at its level. Of several causes the first that holds, in this order, is
/// answered.
#[derive(Clone, Copy, Debug, PartialEq, Eq, Error)]
pub enum StripRefusal {
    /// Memory was refused. It has no cause in the term, and may come in place of any answer.
    #[error("no memory")]
    NoMemory,
    /// The put or the call at the level has no price.
    #[error("no price at the level")]
    NoMoney,
    /// No strike below the level is selected.
    #[error("no put below the level")]
    NoPut,
    /// No strike above the level is selected.
    #[error("no call above the level")]
    NoCall,
}

impl From<NoMemory> for StripRefusal {
    ghost use Rattle.std.specs.Prelude.{◌≡◌};
    ghost use Rattle.vx_strip.specs.declared.fault.StripRefusal.TheVariants.{NoMemory as no_memory};

    ghost from_gives = { λ _ refusal. refusal ≡ no_memory };

    fn from(_refused: NoMemory) -> StripRefusal {
        StripRefusal::NoMemory
    }
}
