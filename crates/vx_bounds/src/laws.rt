//! Laws of the root's ends and of the decision. Each function does nothing: its clause is the law.

ghost use Rattle.vx_bounds.specs.Laws.{DecisionIsOne, RootsAreOne, RootsAreOrdered};

/// A value has at most one greatest root below it and at most one least root above it.
pub fn roots_are_one()
    ensures { RootsAreOne }
{}

/// The root below a value is at most the root above a value that is not less.
pub fn roots_are_ordered()
    ensures { RootsAreOrdered }
{}

/// Two ends in order have at most one decision.
pub fn decision_is_one()
    ensures { DecisionIsOne }
{}
