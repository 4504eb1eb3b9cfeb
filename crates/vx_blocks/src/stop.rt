//! Why lines are not read on.

use vx_num::NoMemory;

/// Why lines are not read on.
#[derive(Clone, Copy, Debug, PartialEq, Eq)]
pub enum ReadStop {
    /// A read of the slot failed. What was read before is kept, and the next call reads on.
    Device,
    /// Memory was refused.
    NoMemory,
}

impl From<NoMemory> for ReadStop {
    ghost use Rattle.std.specs.Prelude.{◌≡◌};
    ghost use Rattle.vx_blocks.specs.declared.stop.ReadStop.TheVariants.{NoMemory};

    ghost from_gives = { λ _ stop. stop ≡ NoMemory };

    fn from(_cause: NoMemory) -> ReadStop {
        ReadStop::NoMemory
    }
}
