//! Worked examples of the definitions. Each function does nothing: its clauses are the example.

ghost use Rattle.vx_formula.specs.Examples.{StopsAtTwoZeroBids, PassesSingleZeroBids, TieTakesLowestStrike, TiedForward, TiedLevel, TiedHasNoPut, TwiceTheLevelCounts, MoreDoesNotCount, HalfCentStraddles, HalfCentBelongsAbove, NoneBelowHalfCent, ZeroStraddles, NoneBelowZero, HalfRoundsUp, StrikeIsBetween, OthersAreNot, SumOfTwo, SumAboveTwo, SampleStrip, SampleRounds, SampleIsBetween, AllAreTouched, NoneIsTouched, NeighboursAreTouched, BoughtGain, SoldLose, SoldMinisGain};

/// One zero bid in a row is left out, and nothing beyond two in a row is taken.
pub fn zero_bids()
    ensures stops_at_two { StopsAtTwoZeroBids }
    ensures passes_single { PassesSingleZeroBids }
{}

/// Of two pairs as close the one with the lowest strike is taken; its forward and its level.
pub fn tied_pairs()
    ensures pair { TieTakesLowestStrike }
    ensures forward { TiedForward }
    ensures level { TiedLevel }
    ensures no_put { TiedHasNoPut }
{}

/// A next strike of exactly twice the level counts, and one above that does not.
pub fn next_strike()
    ensures twice { TwiceTheLevelCounts }
    ensures more { MoreDoesNotCount }
{}

/// Which ends have a boundary between them, and that an exact half cent rounds up.
pub fn half_cents()
    ensures straddles { HalfCentStraddles }
    ensures belongs_above { HalfCentBelongsAbove }
    ensures none_below { NoneBelowHalfCent }
    ensures zero { ZeroStraddles }
    ensures none_below_zero { NoneBelowZero }
    ensures rounds_up { HalfRoundsUp }
{}

/// Which of three strikes lies between the ends of a forward.
pub fn strike_between_ends()
    ensures between { StrikeIsBetween }
    ensures others { OthersAreNot }
{}

/// A strip's sum of exactly 2, and one just above it.
pub fn greatest_sum()
    ensures two { SumOfTwo }
    ensures above { SumAboveTwo }
{}

/// A whole figure of three strikes: 20.66, from 20.657919 to 20.657920.
pub fn sample_figure()
    ensures strip { SampleStrip }
    ensures rounds { SampleRounds }
    ensures between { SampleIsBetween }
{}

/// How many entries of a strip differ from those that were kept.
pub fn kept_strip()
    ensures all { AllAreTouched }
    ensures none { NoneIsTouched }
    ensures neighbours { NeighboursAreTouched }
{}

/// What a figure of 20.66 settles.
pub fn settled_positions()
    ensures bought { BoughtGain }
    ensures sold { SoldLose }
    ensures minis { SoldMinisGain }
{}
