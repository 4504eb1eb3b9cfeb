//! Laws of settlement. Each function does nothing: its clause is the law.

ghost use Rattle.vx_settle.specs.Laws.{AmountIsOne, AmountIsThere, NettedSettlesToZero};

/// A position has exactly one amount at each figure, a whole number of cents.
pub fn amount_is_one()
    ensures one { AmountIsOne }
    ensures there { AmountIsThere }
{}

/// Where for each contract and each last price the quantities add to zero, the amounts add to zero at
/// every figure.
pub fn netted_settles_to_zero()
    ensures { NettedSettlesToZero }
{}
