//! Sums of strips.

ghost use Rattle.std.specs.Prelude.{◌≡◌, ◌+◌, ◌^◌, ◌<◌, ◌≤◌, pos, ◌≤ℤ◌, length, map, All, AllPairs, OnOk, IfOk, IfErr};
ghost use Rattle.vx_interval.specs.Ends.{IsScale, width};
ghost use Rattle.vx_interval.specs.Membership.{IsMember};
ghost use Rattle.vx_formula.specs.Strip.{total_of};
ghost use Rattle.vx_formula.specs.Touched.{touched_count};
ghost use Rattle.vx_strip.specs.Entries.{IsRowInRange, IsStripInRange, entries_of, entry_of};
ghost use Rattle.vx_sum.specs.Sums.{IsSumOf, IsSumRefusal, row_ends};
ghost use Rattle.vx_sum.specs.Totals.{AreTotalsOf};

use crate::divide::units;
use crate::fault::SumRefusal;
use crate::matching::{ends_of, first_from};
use crate::sum::{StripSum, SumRow};
use crate::totals::Totals;
use std::alloc::Global;
use std::marker::Brand;
use std::sync::ledger::{Blank, Ledger};
use vx_formula::limits::STRIP_TOTAL_MAX;
use vx_num::Steps;
use vx_strip::limits::STRIP_ROWS_MAX;
use vx_strip::{Strip, StripRow};

/// The sum of a strip of 1 to 2,000 rows in range.
///
/// A row's ends are its contribution `5*d*q4*2^P/(4*K^2)` rounded down and up, and the total's ends
/// are their sums. Refused with `StripTooLarge` exactly where the upper one exceeds `2*2^P`; that
/// limit is this project's own. `NoMemory` may come in place of any answer.
pub fn sum_strip<const P: u32>(alloc: Global, strip: &Strip) -> Result<StripSum<P>, SumRefusal>
    requires scale { IsScale P }
    requires in_range { IsStripInRange strip.now }
    ensures sum { IfOk result (IsSumOf P (entries_of strip.now)) }
    ensures refused { IfErr result (IsSumRefusal P (entries_of strip.now)) }
    // The exact sum of the contributions lies within the total, which is at most a unit a row wide.
    ensures encloses { IfOk result (λ s. IsMember P s.total (total_of (entries_of strip.now))) }
    ensures width { IfOk result (λ s. width s.total ≤ℤ pos (length strip.now.rows)) }
{
    let totals = counted::<Brand>(alloc, P, strip, Blank::new(1))?;
    Ok(totals.into_sum())
}

/// The sums, with a counter of its own that nobody reads.
fn counted<L: Ledger>(
    alloc: Global,
    scale: u32,
    strip: &Strip,
    blank: Blank,
) -> Result<Totals, SumRefusal>
    requires name { blank.name ≡ L.name }
    requires parts { blank.parts ≡ L.parts }
    requires shares { 0 < L.parts }
    requires scale { IsScale scale }
    requires in_range { IsStripInRange strip.now }
    ensures sum { IfOk result (AreTotalsOf scale (entries_of strip.now)) }
    ensures refused { IfErr result (IsSumRefusal scale (entries_of strip.now)) }
{
    let mut steps = Steps::<L>::open(blank);
    summed(alloc, scale, &[], &[], strip.rows.items(), &mut steps)
}

/// The sums of these rows: the ends of those that stand among the kept rows are taken from there, and
/// the others are divided, with one step for each.
pub(crate) fn summed<L: Ledger>(
    alloc: Global,
    scale: u32,
    kept: &[StripRow],
    kept_ends: &[SumRow],
    rows: &[StripRow],
    steps: &mut Steps<L>,
) -> Result<Totals, SumRefusal>
    requires scale { IsScale scale }
    requires rows { length rows.now ≤ STRIP_ROWS_MAX }
    requires in_range { All IsRowInRange rows.now }
    requires belong { kept_ends.now ≡ map (row_ends scale) (map entry_of kept.now) }
    requires count { steps.old ≤ 2 ^ 63 }
    ensures sum { IfOk result (AreTotalsOf scale (map entry_of rows.now)) }
    ensures refused { IfErr result (IsSumRefusal scale (map entry_of rows.now)) }
    ensures least { steps.old ≤ steps.new }
    ensures most { AllPairs (λ a b. a.strike < b.strike) kept.now
        → AllPairs (λ a b. a.strike < b.strike) rows.now
        → steps.new ≤ steps.old + touched_count (map entry_of kept.now) (map entry_of rows.now) }
    ensures exactly { OnOk result (AllPairs (λ a b. a.strike < b.strike) kept.now
        → AllPairs (λ a b. a.strike < b.strike) rows.now
        → steps.new ≡ steps.old + touched_count (map entry_of kept.now) (map entry_of rows.now)) }
{
    let limit = u128::from(STRIP_TOTAL_MAX) * units(scale);
    let mut totals = Totals::new(alloc, rows.len())?;
    let mut place = 0;
    for row in rows {
        place = first_from(kept, place, row.strike);
        let ends = ends_of(scale, kept, kept_ends, place, row, steps);
        totals.add(ends, limit)?;
    }
    if totals.upper > limit {
        return Err(SumRefusal::StripTooLarge {
            upper: totals.upper,
        });
    }
    Ok(totals)
}
