//! The laws of the answer to a tick. Each function does nothing: its clauses are the laws.

ghost use Rattle.vx_replay.specs.Laws.{PickedAnswersAreJoinable, TickAnswerIsOne};
ghost use Rattle.vx_replay.specs.Lawful.{TickAnswerIsLawful};
ghost use Rattle.vx_replay.specs.Complete.{ClearTickIsPublished, FirstRefusalIsAnswered};

/// A tick of a feed has at most one answer.
pub fn tick_answer_is_one()
    ensures { TickAnswerIsOne }
{}

/// The answers for the two terms that are picked of a lawful feed can be joined.
pub fn picked_answers_are_joinable()
    ensures { PickedAnswersAreJoinable }
{}

/// The answer to a tick of a lawful feed is lawful: a figure that is the formula's exact value rounded,
/// with an accepted certificate; the first refusal that holds; or undecided, with ends around the exact
/// value that straddle a boundary and lie near each other.
pub fn tick_answer_is_lawful()
    ensures { TickAnswerIsLawful }
{}

/// What is far enough from every boundary is answered: with a figure where nothing is refused, and with
/// the first refusal that holds.
pub fn clear_tick_is_answered()
    ensures published { ClearTickIsPublished }
    ensures refused { FirstRefusalIsAnswered }
{}
