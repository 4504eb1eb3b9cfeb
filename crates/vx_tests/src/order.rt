//! The tests by their numbers.

ghost use Rattle.std.specs.Prelude.{◌≡◌, ◌≤◌};
ghost use Rattle.vx_claims.specs.Test.{test_number};

use vx_claims::Test;

/// How many tests there are.
pub const TEST_COUNT: u32 = 16;

/// The test of a number, counted from 1.
pub fn numbered(number: u32) -> Test
    requires first { 1 ≤ number }
    requires last { number ≤ TEST_COUNT }
    ensures { test_number result ≡ number }
{
    match number {
        1 => Test::Place,
        2 => Test::Terms,
        3 => Test::Minutes,
        4 => Test::Rate,
        5 => Test::TaylorTerms,
        6 => Test::Exponential,
        7 => Test::ClosestPair,
        8 => Test::Forward,
        9 => Test::Level,
        10 => Test::Excess,
        11 => Test::Strip,
        12 => Test::Contributions,
        13 => Test::Total,
        14 => Test::Variance,
        15 => Test::Square,
        _ => Test::IndexEnds,
    }
}

/// The number of a test.
pub fn number_of(test: Test) -> u32
    ensures { result ≡ test_number test }
{
    match test {
        Test::Place => 1,
        Test::Terms => 2,
        Test::Minutes => 3,
        Test::Rate => 4,
        Test::TaylorTerms => 5,
        Test::Exponential => 6,
        Test::ClosestPair => 7,
        Test::Forward => 8,
        Test::Level => 9,
        Test::Excess => 10,
        Test::Strip => 11,
        Test::Contributions => 12,
        Test::Total => 13,
        Test::Variance => 14,
        Test::Square => 15,
        Test::IndexEnds => 16,
    }
}
