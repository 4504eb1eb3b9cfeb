//! Why there is no picture.

ghost use Rattle.std.specs.Prelude.{◌≡◌};

use std::alloc::{AllocError, AllocFailed};
use std::{fmt, io};

/// What is wrong with the lines, or with the devices.
#[derive(Clone, Copy)]
pub enum Fault {
    /// The line is none that `replay` prints.
    Form,
    /// The time is less than that of the line before.
    TimeBack,
    /// A line comes after END.
    AfterEnd,
    /// END counts other ticks than came.
    EndCount,
    /// There are more ticks than a picture has room for.
    TooMany,
    /// The input ends without END.
    MissingEnd,
    NoMemory,
    Device,
}

impl From<AllocError> for Fault {
    ghost use Rattle.vixplot.specs.declared.fault.Fault.TheVariants.{NoMemory};

    ghost from_gives = { λ _ fault. fault ≡ NoMemory };

    fn from(_error: AllocError) -> Fault {
        Fault::NoMemory
    }
}

impl<T: Drop> From<AllocFailed<T>> for Fault {
    ghost use Rattle.vixplot.specs.declared.fault.Fault.TheVariants.{NoMemory};

    ghost from_gives = { λ _ fault. fault ≡ NoMemory };

    fn from(_refused: AllocFailed<T>) -> Fault {
        Fault::NoMemory
    }
}

impl From<io::Error> for Fault {
    ghost use Rattle.vixplot.specs.declared.fault.Fault.TheVariants.{Device};

    ghost from_gives = { λ _ fault. fault ≡ Device };

    fn from(_error: io::Error) -> Fault {
        Fault::Device
    }
}

impl fmt::Display for Fault {
    fn fmt<W: fmt::Write>(&self, f: &mut fmt::Formatter<W>) -> fmt::Result {
        match self {
            Fault::Form => write!(f, "no line of replay"),
            Fault::TimeBack => write!(f, "time-back"),
            Fault::AfterEnd => write!(f, "after-end"),
            Fault::EndCount => write!(f, "end-count"),
            Fault::TooMany => write!(f, "too-many"),
            Fault::MissingEnd => write!(f, "missing-end"),
            Fault::NoMemory => write!(f, "no memory"),
            Fault::Device => write!(f, "cannot be read or written"),
        }
    }
}
