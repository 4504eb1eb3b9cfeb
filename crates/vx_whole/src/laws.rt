//! The laws. Each function does nothing: its clause is the law.

ghost use Rattle.vx_whole.specs.Runs.{CheckIsThere, ReplayIsThere, SettleIsThere};
ghost use Rattle.vx_whole.specs.Verdicts.{EveryCertificateHasVerdict, EveryCertificateIsJudged, EveryLineIsRead};

/// A certificate of either version is accepted over any events, or one of its tests is the first that
/// fails; over lawful events it has a verdict, of which a yes means what the certificate states.
pub fn every_certificate_has_verdict()
    ensures judged { EveryCertificateIsJudged }
    ensures verdict { EveryCertificateHasVerdict }
{}

/// A line, whatever its bytes, is read as a certificate, or there is a word for why it is none.
pub fn every_line_is_read()
    ensures { EveryLineIsRead }
{}

/// Over any feed and any file of certificates there is a run of `check`.
pub fn check_is_there()
    ensures { CheckIsThere }
{}

/// Over any feed and any file of positions there is a run of `settle`, less the promise that its certificate is read
/// back from its line.
pub fn settle_is_there()
    ensures { SettleIsThere }
{}

/// Over any feed there is a run of `replay`, less the promise that each certificate is read back from its line.
pub fn replay_is_there()
    ensures { ReplayIsThere }
{}
