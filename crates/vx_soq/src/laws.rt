//! The laws of the answer to the opening. Each function does nothing: its clauses are the laws.

ghost use Rattle.vx_soq.specs.Laws.{OpeningAnswerIsOne, OpeningAnswerStays};
ghost use Rattle.vx_soq.specs.Lawful.{OpeningAnswerIsLawful};
ghost use Rattle.vx_soq.specs.Complete.{ClearOpeningIsPublished, FirstOpeningRefusalIsAnswered};
ghost use Rattle.vx_soq.specs.Written.{OpeningCanBeWritten};

/// The opening of a feed has at most one answer.
pub fn opening_answer_is_one()
    ensures { OpeningAnswerIsOne }
{}

/// Whatever lawful events come after the opening, its answer stays.
pub fn opening_answer_stays()
    ensures { OpeningAnswerStays }
{}

/// The answer to the opening of lawful events is lawful: a figure that is the formula's exact value
/// rounded, with an accepted certificate; the first refusal that holds; or undecided, with ends around
/// the exact value that straddle a boundary and lie near each other.
pub fn opening_answer_is_lawful()
    ensures { OpeningAnswerIsLawful }
{}

/// What is far enough from every boundary is answered: with a figure where nothing is refused, and with
/// the first refusal that holds.
pub fn clear_opening_is_answered()
    ensures published { ClearOpeningIsPublished }
    ensures refused { FirstOpeningRefusalIsAnswered }
{}

/// The certificate of a figure that is published for the opening of lawful events is in the ranges that
/// writing it asks.
pub fn opening_can_be_written()
    ensures { OpeningCanBeWritten }
{}
