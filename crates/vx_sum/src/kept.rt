//! Sums that are kept from one refresh to the next.

ghost use Rattle.std.specs.Prelude.{◌≡◌, ◌+◌, ◌^◌, ◌≤◌, None, IsSome, IfOk, IfErr, IfSome, OnOk, OnErr};
ghost use Rattle.vx_interval.specs.Ends.{IsScale};
ghost use Rattle.vx_formula.specs.Touched.{touched_count};
ghost use Rattle.vx_strip.specs.Entries.{DoStrikesRise, IsStripInRange, entries_of};
ghost use Rattle.vx_sum.specs.Kept.{Holds, kept_entries};
ghost use Rattle.vx_sum.specs.Sums.{IsSumRefusal};
ghost use Rattle.vx_sum.specs.Totals.{AreTotalsOf};

use crate::fault::SumRefusal;
use crate::sum::StripSum;
use crate::summing::summed;
use crate::totals::Totals;
use std::alloc::Global;
use std::marker::Model;
use std::sync::ledger::Ledger;
use vx_num::{NoMemory, Steps};
use vx_strip::Strip;

/// The strip of a refresh, and its sum.
#[derive(Drop)]
pub struct Kept<const P: u32> {
    pub strip: Strip,
    pub sum: StripSum<P>,
}

/// The strip of the last successful refresh with its sum, kept so that the next refresh divides only
/// the rows that changed. Contracts see the two, or `None` before the first refresh.
#[derive(Drop)]
pub struct KeptStrip<const P: u32> {
    alloc: Global,
    held: Option<Kept<P>>,
}

impl<const P: u32> Model for KeptStrip<P> {
    ghost use Rattle.std.specs.Prelude.{Option};
    ghost use Rattle.vx_sum.specs.declared.kept.Kept.{Kept};
    ghost use Rattle.vx_sum.specs.Held.{IsOwn};

    ghost Value = { Option (Kept P) };

    ghost view = { λ k. k.held };

    ghost invariant = { λ k. IsOwn P k.held };
}

impl<const P: u32> KeptStrip<P> {
    /// One that had no refresh yet.
    pub fn new(alloc: Global) -> Result<KeptStrip<P>, NoMemory>
        ensures { IfOk result (λ kept. kept ≡ None) }
    {
        Ok(KeptStrip { alloc, held: None })
    }

    /// Takes over a strip of 1 to 2,000 rows in range, their strikes strictly rising, with the sum that
    /// `sum_strip` gives for it.
    ///
    /// A row is touched where its strike is new or its `d` or `q4` is another one than at the last
    /// successful refresh. The touched rows alone are divided, with one step for each. The refusals are
    /// those of `sum_strip`; after one the strip and the sum that are held are the ones from before.
    pub fn refresh<L: Ledger>(
        &mut self,
        strip: &Strip,
        steps: &mut Steps<L>,
    ) -> Result<(), SumRefusal>
        requires scale { IsScale P }
        requires in_range { IsStripInRange strip.now }
        requires rising { DoStrikesRise strip.now }
        requires count { steps.old ≤ 2 ^ 63 }
        ensures holds { OnOk result (Holds P strip.now self.new) }
        ensures stays { OnErr result (self.new ≡ self.old) }
        ensures refused { IfErr result (IsSumRefusal P (entries_of strip.now)) }
        ensures touched { OnOk result (steps.new
            ≡ steps.old + touched_count (kept_entries self.old) (entries_of strip.now)) }
        ensures least { steps.old ≤ steps.new }
        ensures most { steps.new
            ≤ steps.old + touched_count (kept_entries self.old) (entries_of strip.now) }
    {
        let totals = self.totals(strip, steps)?;
        let strip = strip.copied(self.alloc)?;
        self.held = Some(Kept {
            strip,
            sum: totals.into_sum(),
        });
        Ok(())
    }

    /// The sums of a strip, with the ends of its untouched rows taken from those that are held.
    fn totals<L: Ledger>(&self, strip: &Strip, steps: &mut Steps<L>) -> Result<Totals, SumRefusal>
        requires scale { IsScale P }
        requires in_range { IsStripInRange strip.now }
        requires rising { DoStrikesRise strip.now }
        requires count { steps.old ≤ 2 ^ 63 }
        ensures sum { IfOk result (AreTotalsOf P (entries_of strip.now)) }
        ensures refused { IfErr result (IsSumRefusal P (entries_of strip.now)) }
        ensures touched { OnOk result (steps.new
            ≡ steps.old + touched_count (kept_entries self.now) (entries_of strip.now)) }
        ensures least { steps.old ≤ steps.new }
        ensures most { steps.new
            ≤ steps.old + touched_count (kept_entries self.now) (entries_of strip.now) }
    {
        let rows = strip.rows.items();
        match &self.held {
            Some(kept) => summed(
                self.alloc,
                P,
                kept.strip.rows.items(),
                kept.sum.rows.items(),
                rows,
                steps,
            ),
            None => summed(self.alloc, P, &[], &[], rows, steps),
        }
    }

    /// The sum of the last successful refresh.
    pub fn sum(&self) -> &StripSum<P>
        requires { IsSome self.now }
        ensures { IfSome self.now (λ kept. result.now ≡ kept.sum) }
    {
        match &self.held {
            Some(kept) => &kept.sum,
            None => unreachable!(),
        }
    }
}
