//! The law of sums. The function does nothing: its clause is the law.

ghost use Rattle.vx_sum.specs.Laws.{SumIsOne};

/// A strip has at most one sum.
pub fn sum_is_one()
    ensures { SumIsOne }
{}
