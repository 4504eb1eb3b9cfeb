//! Laws of acceptance and of answers. Each function does nothing: its clauses are the laws.

ghost use Rattle.vx_claims.specs.Laws.{AcceptedHasNoFailingTest, AcceptedLevelMeans, FailingTestIsOne, ListedRowsRise, StatedEndsAreDecided};
ghost use Rattle.vx_claims.specs.TickOutcomes.{RefusedTickIsNotSound, TickIsAnswered, UndecidedNearComesFirst, UndecidedNextComesFirst};

/// Whoever made it, an accepted certificate of kind `k0` over a lawful feed names the closest pair and
/// the level at rate zero.
pub fn accepted_level_means()
    ensures { AcceptedLevelMeans }
{}

/// At most one test is the first that fails.
pub fn failing_test_is_one()
    ensures { FailingTestIsOne }
{}

/// An accepted certificate fails no test.
pub fn accepted_has_no_failing_test()
    ensures { AcceptedHasNoFailingTest }
{}

/// No boundary lies between the printed ends of an accepted figure.
pub fn stated_ends_are_decided()
    ensures { StatedEndsAreDecided }
{}

/// The rows that a feed shows, at any line and at the opening, are in rising order of strike.
pub fn listed_rows_rise()
    ensures { ListedRowsRise }
{}

/// A tick whose terms are in range, with narrow ends around their forwards, has a first refusal of a term,
/// or the ends leave a forward undecided, or both terms have a level and no refusal.
pub fn tick_is_answered()
    ensures answered { TickIsAnswered }
    ensures refused { RefusedTickIsNotSound }
    ensures undecided_near { UndecidedNearComesFirst }
    ensures undecided_next { UndecidedNextComesFirst }
{}
