//! Which of a strip's rows were kept.

ghost use Rattle.std.specs.Prelude.{◌≡◌, ◌+◌, ◌-◌, ◌^◌, ◌<◌, ◌≤◌, if◌then◌else◌, length, map};
ghost use Rattle.vx_formula.specs.Strip.{upper_end};
ghost use Rattle.vx_strip.specs.Entries.{IsRowInRange, entry_of};
ghost use Rattle.vx_sum.specs.Matching.{IsFirstFrom, is_kept_at};
ghost use Rattle.vx_sum.specs.Sums.{lower_end, row_ends};

use crate::divide::{WideEnds, divide};
use crate::sum::SumRow;
use std::sync::ledger::Ledger;
use vx_num::Steps;
use vx_strip::StripRow;

/// The first place from `from` on whose strike is not below `strike`.
pub fn first_from(kept: &[StripRow], from: usize, strike: u32) -> usize
    requires { from ≤ length kept.now }
    ensures first { IsFirstFrom kept.now from strike result }
    ensures within { result ≤ length kept.now }
{
    let mut place = from;
    while place < kept.len() && kept[place].strike < strike {
        place += 1;
    }
    place
}

/// Whether the row stands at a place of the kept rows.
fn is_kept(kept: &[StripRow], place: usize, row: &StripRow) -> bool
    ensures { result ≡ is_kept_at kept.now place row.now }
{
    place < kept.len() && *row == kept[place]
}

/// The ends of a row: those that were kept where it stands at the place, and else by a division.
pub fn ends_of<L: Ledger>(
    scale: u32,
    kept: &[StripRow],
    kept_ends: &[SumRow],
    place: usize,
    row: &StripRow,
    steps: &mut Steps<L>,
) -> WideEnds
    requires scale { scale ≤ 62 }
    requires in_range { IsRowInRange row.now }
    requires belong { kept_ends.now ≡ map (row_ends scale) (map entry_of kept.now) }
    requires count { steps.old < 2 ^ 64 - 1 }
    ensures lo { result.lo ≡ lower_end scale (entry_of row.now) }
    ensures hi { result.hi ≡ upper_end scale (entry_of row.now) }
    ensures step { steps.new ≡ steps.old + (if is_kept_at kept.now place row.now then 0 else 1) }
{
    if is_kept(kept, place, row) {
        let ends = kept_ends[place];
        WideEnds {
            lo: u128::from(ends.lo),
            hi: u128::from(ends.hi),
        }
    } else {
        divide(scale, row, steps)
    }
}
