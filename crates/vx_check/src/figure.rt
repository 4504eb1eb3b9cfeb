//! The tests of a certificate's figure.

ghost use Rattle.std.specs.Prelude.{◌≡◌, ◌*◌, ◌≤◌, ◌↔◌, IsTrue};
ghost use Rattle.vx_claims.specs.Test.{test_number};
ghost use Rattle.vx_claims.specs.Accepts.{scale_of, FigureMeets, SingleFigureMeets};
ghost use Rattle.vx_tests.specs.Ranges.{IsVarianceAdmitted};
ghost use Rattle.vx_check.specs.Numbers.{FigureNumbersMeet};
ghost use Rattle.vx_check.specs.Answers.{IsVerdictFrom};

use crate::verdict::Verdict;
use vx_cert::{CertFigure, CertTerm};
use vx_claims::Test;
use vx_clock::limits::{DAY_MINUTES, FIGURE_DAYS_MAX};
use vx_tests::figure::{JoinedMinutes, encloses_index, encloses_single_square, encloses_square};
use vx_tests::order::number_of;
use vx_tests::scale::scale_of;

/// Tests the figure of two terms for so many days: the square of the index, and the printed ends.
///
/// The ends of both variances are within `6 * 2^P`, at the scale `P` of the version.
pub fn check_figure(v: u32, near: &CertTerm, next: &CertTerm, days: u32, f: &CertFigure) -> Verdict
    requires days { days ≤ FIGURE_DAYS_MAX }
    requires near { IsVarianceAdmitted (scale_of v) near.now.w }
    requires next { IsVarianceAdmitted (scale_of v) next.now.w }
    ensures { IsVerdictFrom (test_number Test.Square) (test_number Test.IndexEnds)
        (FigureMeets v days near.now next.now f.now) result }
{
    if !encloses_joined_square(v, near, next, days, f) {
        Verdict::No(number_of(Test::Square))
    } else if !encloses_index(scale_of(v), f) {
        Verdict::No(number_of(Test::IndexEnds))
    } else {
        Verdict::Yes
    }
}

/// Whether the figure of two terms meets a test; those that are not of a figure are met.
pub(crate) fn figure_meets(
    version: u32,
    days: u32,
    near: &CertTerm,
    next: &CertTerm,
    figure: &CertFigure,
    test: Test,
) -> bool
    requires days { days ≤ FIGURE_DAYS_MAX }
    requires near { test ≡ Test.Square → IsVarianceAdmitted (scale_of version) near.now.w }
    requires next { test ≡ Test.Square → IsVarianceAdmitted (scale_of version) next.now.w }
    requires square { test ≡ Test.IndexEnds → FigureNumbersMeet (scale_of version) figure.now Test.Square }
    ensures exact { IsTrue result ↔ FigureMeets version days near.now next.now figure.now test }
    ensures numbers { IsTrue result → FigureNumbersMeet (scale_of version) figure.now test }
{
    match test {
        Test::Square => encloses_joined_square(version, near, next, days, figure),
        Test::IndexEnds => encloses_index(scale_of(version), figure),
        _ => true,
    }
}

/// The ends enclose the square of the index that two terms give for so many days.
fn encloses_joined_square(
    version: u32,
    near: &CertTerm,
    next: &CertTerm,
    days: u32,
    figure: &CertFigure,
) -> bool
    requires days { days ≤ FIGURE_DAYS_MAX }
    requires near { IsVarianceAdmitted (scale_of version) near.now.w }
    requires next { IsVarianceAdmitted (scale_of version) next.now.w }
    ensures exact { IsTrue result ↔ FigureMeets version days near.now next.now figure.now Test.Square }
    ensures numbers { IsTrue result → FigureNumbersMeet (scale_of version) figure.now Test.Square }
{
    let minutes = JoinedMinutes {
        target: DAY_MINUTES * days,
        near: near.minutes,
        next: next.minutes,
    };
    encloses_square(scale_of(version), minutes, near.w, next.w, figure.x)
}

/// Whether the figure of one term at 30 days meets a test; those that are not of a figure are met.
pub(crate) fn single_figure_meets(
    version: u32,
    term: &CertTerm,
    figure: &CertFigure,
    test: Test,
) -> bool
    requires variance { test ≡ Test.Square → IsVarianceAdmitted (scale_of version) term.now.w }
    requires square { test ≡ Test.IndexEnds → FigureNumbersMeet (scale_of version) figure.now Test.Square }
    ensures exact { IsTrue result ↔ SingleFigureMeets version term.now figure.now test }
    ensures numbers { IsTrue result → FigureNumbersMeet (scale_of version) figure.now test }
{
    match test {
        Test::Square => encloses_single_square(scale_of(version), term.w, figure.x),
        Test::IndexEnds => encloses_index(scale_of(version), figure),
        _ => true,
    }
}
