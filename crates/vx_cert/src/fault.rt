//! What can go wrong where a certificate is read.

use thiserror::Error;
use vx_num::NoMemory;

/// Why a line is no certificate.
#[derive(Clone, Copy, Debug, PartialEq, Eq, Error)]
pub enum CertFault {
    #[error("no memory")]
    NoMemory,
    /// The line is no JSON.
    #[error("the line is no JSON")]
    Syntax,
    /// The first field, by its number in the format, that is missing, of another form or out of
    /// range.
    #[error("field {0} is missing, of another form or out of range")]
    Field(u32),
}

impl From<NoMemory> for CertFault {
    ghost use Rattle.std.specs.Prelude.{◌≡◌};
    ghost use Rattle.vx_cert.specs.declared.fault.CertFault.TheVariants.{NoMemory as no_memory};

    ghost from_gives = { λ _ fault. fault ≡ no_memory };

    fn from(_refused: NoMemory) -> CertFault {
        CertFault::NoMemory
    }
}
