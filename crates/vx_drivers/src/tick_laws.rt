//! Laws of the run that answers ticks.

ghost use Rattle.vx_drivers.specs.TickLaws.{TickRunIsOne, TickRunIsThere};

use crate::ticks::AnswersTicks;

/// Over a feed there is at most one run, and there is one where each event is given something.
pub fn tick_run_is_one<T: AnswersTicks>(_taker: &T)
    ensures one { TickRunIsOne T.rules }
    ensures there { TickRunIsThere T.rules }
{}
