//! Laws of the answer for one term. Each function does nothing: its clause is the law.

ghost use Rattle.vx_term.specs.Laws.{AnswerIsMeant, AnswerIsTight, ClearForwardIsDecided, ExponentialIsOne, SquareIsOrdered, TermAnswerIsOne, VarianceIsOrdered};

/// What is known of a term, with its rows in rising order of strike, has at most one answer.
pub fn term_answer_is_one()
    ensures { TermAnswerIsOne }
{}

/// An answer means what the formula says of the term, over the bracket of the exponential.
pub fn answer_is_meant()
    ensures { AnswerIsMeant }
{}

/// A run's variance is narrow, and the ends of an undecided forward are near.
pub fn answer_is_tight()
    ensures { AnswerIsTight }
{}

/// From scale 60 on a clear forward is never undecided.
pub fn clear_forward_is_decided()
    ensures { ClearForwardIsDecided }
{}

/// At exponent 0 the exponential is exactly 1.
pub fn exponential_is_one()
    ensures { ExponentialIsOne }
{}

/// The two ends of a term's variance are in order, whatever it is computed from.
pub fn variance_is_ordered()
    ensures { VarianceIsOrdered }
{}

/// The two ends of the square of the index are in order, as those of its variances are.
pub fn square_is_ordered()
    ensures { SquareIsOrdered }
{}
