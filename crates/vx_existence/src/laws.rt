//! The laws. Each function does nothing.

ghost use Rattle.vx_existence.specs.DayExamples.{DayIsAccepted, DayIsAnswered, DayIsLawful};
ghost use Rattle.vx_existence.specs.Existence.{EndsAreDecided, EveryFigureHasAnswer, EveryTermHasAnswer, EveryTickHasAnswer, EveryTickHasLawfulAnswer, OpeningHasAnswer, SquareHasIndexEnds};

/// Whatever is known of a term, there is an answer for it, at every scale.
pub fn every_term_has_answer()
    ensures { EveryTermHasAnswer }
{}

/// Two runs have an answer, whatever they hold: the square of the index has ends, and two ends are decided.
pub fn every_figure_has_answer()
    ensures ends { SquareHasIndexEnds }
    ensures decided { EndsAreDecided }
    ensures answered { EveryFigureHasAnswer }
{}

/// Every tick of a lawful feed has an answer, for any days and any window, and a lawful one for 7 to 120
/// days within a window of at most 35.
pub fn every_tick_has_answer()
    ensures answered { EveryTickHasAnswer }
    ensures lawful { EveryTickHasLawfulAnswer }
{}

/// The opening has an answer, whatever the events.
pub fn opening_has_answer()
    ensures { OpeningHasAnswer }
{}

/// The answer to the tick of one day, each number written out: its events are lawful, the figure is
/// 20.66, and its certificate is accepted.
pub fn worked_day_is_answered()
    ensures lawful { DayIsLawful }
    ensures answered { DayIsAnswered }
    ensures accepted { DayIsAccepted }
{}
