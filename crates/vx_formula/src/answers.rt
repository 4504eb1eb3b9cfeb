//! That a term has a refusal, an undecided forward or a level. Each function does nothing: its clauses
//! are the laws.

ghost use Rattle.vx_formula.specs.TermOutcomes.{TermOfFactsIsOne, TermIsAnswered, RefusedIsNotSound, UndecidedComesFirst};
ghost use Rattle.vx_formula.specs.StrikesByEnds.{EndsAreInOrder, StrikesLieOneWay, LowestBetweenIsOne, LevelByEndsIsOne, AllAboveIsBelowAll, LevelByEndsIsLevel, EndsDecideOrNot};

/// By two ends the listed strikes lie in just one of three ways: one lies between them, or all are above,
/// or there is a greatest one at most the low end with all others above the high end.
pub fn strikes_lie_one_way()
    ensures just_one { StrikesLieOneWay }
    ensures lowest { LowestBetweenIsOne }
    ensures greatest { LevelByEndsIsOne }
{}

/// Narrow ends around a forward leave it undecided, or every listed strike is above it, or there is a level.
pub fn ends_decide_or_not()
    ensures in_order { EndsAreInOrder }
    ensures below_all { AllAboveIsBelowAll }
    ensures level { LevelByEndsIsLevel }
    ensures either { EndsDecideOrNot }
{}

/// Facts in range with narrow ends around their forward have a first refusal, or the ends leave the forward
/// undecided, or there is a level and no refusal; and what of these excludes what.
pub fn term_is_answered()
    ensures one_term { TermOfFactsIsOne }
    ensures answered { TermIsAnswered }
    ensures refused { RefusedIsNotSound }
    ensures undecided { UndecidedComesFirst }
{}
