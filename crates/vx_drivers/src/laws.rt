//! Laws of a run. Each function does nothing: its clause is the law.

ghost use Rattle.vx_drivers.specs.CertificateLaws.{RunIsThere};
ghost use Rattle.vx_drivers.specs.CertificateRun.{RunIsOne};

use crate::certificates::AnswersCertificates;

/// A run over a feed and a file of certificates has one exit at most, and sends one text.
pub fn certificate_run_is_one<C: AnswersCertificates>(_checker: &C)
    ensures { RunIsOne C.rules }
{}

/// Over a feed there is a run for any certificates, where every line is read as something and every
/// certificate has an answer.
pub fn certificate_run_is_there<C: AnswersCertificates>(_checker: &C)
    ensures { RunIsThere C.rules }
{}
