//! Laws of the run that settles positions.

ghost use Rattle.vx_drivers.specs.PositionLaws.{PositionRunIsOne, PositionRunIsThere};

use crate::positions::SettlesPositions;

/// Over a feed and lines of positions there is at most one run.
pub fn position_run_is_one<S: SettlesPositions>(_sheet: &S)
    ensures { PositionRunIsOne S.rules }
{}

/// Over a feed there is a run for any positions, where the opening has an answer and every line comes to something at it.
pub fn position_run_is_there<S: SettlesPositions>(_sheet: &S)
    ensures { PositionRunIsThere S.rules }
{}
