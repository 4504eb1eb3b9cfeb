//! Why a strip has no sum.

use thiserror::Error;
use vx_num::NoMemory;

/// Why a strip has no sum.
#[derive(Clone, Copy, Debug, PartialEq, Eq, Error)]
pub enum SumRefusal {
    /// Memory was refused. It has no cause in the strip, and may come in place of any answer.
    #[error("no memory")]
    NoMemory,
    /// The rounded-up ends add to more than 2, in units of `2^-P`.
    #[error("the strip's sum {upper} is too large")]
    StripTooLarge { upper: u128 },
}

impl From<NoMemory> for SumRefusal {
    ghost use Rattle.std.specs.Prelude.{◌≡◌};
    ghost use Rattle.vx_sum.specs.declared.fault.SumRefusal.TheVariants.{NoMemory as no_memory};

    ghost from_gives = { λ _ refusal. refusal ≡ no_memory };

    fn from(_refused: NoMemory) -> SumRefusal {
        SumRefusal::NoMemory
    }
}
