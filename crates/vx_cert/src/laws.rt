//! A law of the format of certificates: the contract of a function that does nothing.

ghost use Rattle.std.specs.Prelude.{◌≡◌, ◌⊎◌, ℕ, Err, List, Ok, Result};
ghost use Rattle.vx_cert.specs.declared.certificate.Certificate.{Certificate};
ghost use Rattle.vx_cert.specs.declared.fault.CertFault.{CertFault};
ghost use Rattle.vx_cert.specs.declared.fault.CertFault.TheVariants.{NoMemory};
ghost use Rattle.vx_cert.specs.Reading.{ReadsAs};

/// A line that is read as a certificate is read as nothing else, unless memory is wanting. So
/// [`crate::read_cert`] answers what [`crate::write_cert`] was given, or `NoMemory`.
pub fn certificates_are_read_as_one()
    ensures { (line : List ℕ) (c : Certificate) (said : Result Certificate CertFault)
        → ReadsAs line (Ok c) → ReadsAs line said → (said ≡ Ok c) ⊎ (said ≡ Err NoMemory) }
{}
