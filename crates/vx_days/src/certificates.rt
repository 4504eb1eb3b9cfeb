//! Worked certificates over the first sample feed. Each function does nothing: its clauses are the example.

ghost use Rattle.vx_days.specs.CertificateLineExamples.{LevelLineIsRead, SingleLineIsRead};
ghost use Rattle.vx_days.specs.CertificateExamples.{LevelIsAccepted, WrongLineFails, WrongPairFails, LowLevelFails};
ghost use Rattle.vx_days.specs.CertificateExamples.{FirstVersionIsAccepted, HighTaylorFails, OtherVersionFails, LowRowFails};
ghost use Rattle.vx_days.specs.CertificateExamples.{WideEndsFail, SecondVersionIsAccepted};

/// A certificate of kind `k0`, accepted; and with another line, pair or level the first test that it fails.
pub fn level_certificates()
    ensures accepted { LevelIsAccepted }
    ensures wrong_line { WrongLineFails }
    ensures wrong_pair { WrongPairFails }
    ensures low_level { LowLevelFails }
{}

/// A certificate of kind `single`, accepted in both versions; and with the other version, another Taylor
/// term, row or end the first test that it fails.
pub fn single_certificates()
    ensures first_version { FirstVersionIsAccepted }
    ensures second_version { SecondVersionIsAccepted }
    ensures high_taylor { HighTaylorFails }
    ensures other_version { OtherVersionFails }
    ensures low_row { LowRowFails }
    ensures wide_ends { WideEndsFail }
{}

/// The lines of the certificates of kinds `k0` and `single` are read as them.
pub fn certificate_lines()
    ensures level { LevelLineIsRead }
    ensures single { SingleLineIsRead }
{}
