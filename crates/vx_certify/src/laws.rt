//! Laws of the index's ends. Each function does nothing: its clause is the law.

ghost use Rattle.vx_certify.specs.Laws.{IndexDecisionIsOne, IndexIsTight, SingleIsTight};

/// The two ends of the square of the index give one pair of ends of the index and one decision.
pub fn index_decision_is_one()
    ensures { IndexDecisionIsOne }
{}

/// At scale 62, from two variances at most 37,000 units wide, and 7 to 120 days ahead, the square of the
/// index is at most 5,788,000 units wide and its ends are at most 200 millionths of a point apart.
pub fn index_is_tight()
    ensures { IndexIsTight }
{}

/// So are they from one variance at 30 days.
pub fn single_is_tight()
    ensures { SingleIsTight }
{}
