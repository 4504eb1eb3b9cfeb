//! Which fault is answered where two causes hold, by example. The function does nothing: its clauses are the example.

ghost use Rattle.vx_days.specs.OrderExamples.{HeaderAfterEnd, EarlyQuoteAfterEnd, OtherCountAfterEnd, EarlySecondOpening};

/// Events of which two causes hold: the order of the causes alone decides which is answered.
pub fn order_decides()
    ensures header_after_end { HeaderAfterEnd }
    ensures early_quote_after_end { EarlyQuoteAfterEnd }
    ensures other_count_after_end { OtherCountAfterEnd }
    ensures early_second_opening { EarlySecondOpening }
{}
