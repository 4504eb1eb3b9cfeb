//! Laws of the forward and of the level. Each function does nothing: its clause is the law.

ghost use Rattle.vx_forward.specs.Laws.{AnswerHoldsOfForwards, AnswerIsOne, ForwardIsEnclosed, ForwardReachesEnds, LevelLiesBelowForward, PrintedEndsAreEqual, PrintedEndsAreNear, PrintedEndsLieAround};

/// The forward at every exponential of an interval is in the forward's interval.
pub fn forward_is_enclosed()
    ensures { ForwardIsEnclosed }
{}

/// The ends of the forward's interval reach to the forward at both ends of the exponential.
pub fn forward_reaches_ends()
    ensures { ForwardReachesEnds }
{}

/// The printed ends of a forward lie around every member of its interval.
pub fn printed_ends_lie_around()
    ensures { PrintedEndsLieAround }
{}

/// At scales from 60, the printed ends of a forward are at most three units of `10^-12` point apart.
pub fn printed_ends_are_near()
    ensures { PrintedEndsAreNear }
{}

/// The printed ends of a forward are equal where its two prices are, and where the exponential is 1.
pub fn printed_ends_are_equal()
    ensures { PrintedEndsAreEqual }
{}

/// The level is at most the forward's low end, and every listed strike above it is above the high end.
pub fn level_lies_below_forward()
    ensures { LevelLiesBelowForward }
{}

/// What is answered from printed ends holds of every member of the forward's interval.
pub fn answer_holds_of_forwards()
    ensures { AnswerHoldsOfForwards }
{}

/// Two ends have at most one answer.
pub fn answer_is_one()
    ensures { AnswerIsOne }
{}
