//! Why a line is no position.

use thiserror::Error;
use vx_fields::Unsplit;
use vx_num::NoMemory;

/// Why a line is no position. Of several causes the first that holds, in this order, is answered.
#[derive(Clone, Copy, Debug, PartialEq, Eq, Error)]
pub enum PositionFault {
    /// Memory was refused. It has no cause in the line, and may come in place of any answer.
    #[error("no memory")]
    NoMemory,
    /// A byte outside 0x20 to 0x7E, or a double quote.
    #[error("a byte that is not allowed")]
    Byte,
    /// Another number of fields than three.
    #[error("another number of fields")]
    Fields,
    /// The first field, counted from 1, that is not of its form or range.
    #[error("field {0} is not of its form or range")]
    Field(u32),
}

impl From<NoMemory> for PositionFault {
    ghost use Rattle.std.specs.Prelude.{◌≡◌};
    ghost use Rattle.vx_settle.specs.declared.fault.PositionFault.TheVariants.{NoMemory as no_memory};

    ghost from_gives = { λ _ fault. fault ≡ no_memory };

    fn from(_refused: NoMemory) -> PositionFault {
        PositionFault::NoMemory
    }
}

impl From<Unsplit> for PositionFault {
    ghost use Rattle.std.specs.Prelude.{◌≡◌};
    ghost use Rattle.vx_settle.specs.Form.{fault_unsplit};

    ghost from_gives = { λ cause fault. fault ≡ fault_unsplit cause };

    fn from(cause: Unsplit) -> PositionFault {
        match cause {
            Unsplit::Empty => PositionFault::Fields,
            Unsplit::Byte => PositionFault::Byte,
        }
    }
}
