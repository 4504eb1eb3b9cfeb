//! The ends of a strip's rows, summed up row by row, at a scale that the caller knows.

ghost use Rattle.std.specs.Prelude.{◌≡◌, ◌+◌, ◌^◌, ◌<◌, ◌≤◌, pos, [], ◌∷◌, ◌++◌, IfOk, OnOk};
ghost use Rattle.vx_interval.specs.Ends.{IsScale};

use crate::divide::WideEnds;
use crate::sum::{StripSum, SumRow, SumRows};
use std::alloc::Global;
use vx_interval::Iv;
use vx_num::NoMemory;

/// The sums so far, and the rows' ends as long as the upper sum is within the limit: only then is it
/// known that they fit 64 bits.
#[derive(Drop)]
pub struct Totals {
    pub rows: SumRows,
    pub lower: u128,
    pub upper: u128,
}

impl Totals {
    /// No rows yet, with the memory of so many.
    pub fn new(alloc: Global, count: usize) -> Result<Totals, NoMemory>
        ensures { IfOk result (λ totals. (totals.rows ≡ []) × (totals.lower ≡ 0) × (totals.upper ≡ 0)) }
    {
        Ok(Totals {
            rows: SumRows::with_room(alloc, count)?,
            lower: 0,
            upper: 0,
        })
    }

    /// Adds the ends of one more row.
    pub fn add(&mut self, ends: WideEnds, limit: u128) -> Result<(), NoMemory>
        requires lower { self.old.lower + ends.lo < 2 ^ 128 }
        requires upper { self.old.upper + ends.hi < 2 ^ 128 }
        requires ordered { ends.lo ≤ ends.hi }
        requires limit { limit < 2 ^ 64 }
        ensures lower { OnOk result (self.new.lower ≡ self.old.lower + ends.lo) }
        ensures upper { OnOk result (self.new.upper ≡ self.old.upper + ends.hi) }
        ensures rows { OnOk result (self.new.upper ≤ limit
            → self.new.rows ≡ self.old.rows ++ record { lo = ends.lo; hi = ends.hi } ∷ []) }
    {
        self.lower += ends.lo;
        self.upper += ends.hi;
        if self.upper <= limit {
            self.rows.push(SumRow {
                lo: ends.lo as u64,
                hi: ends.hi as u64,
            })?;
        }
        Ok(())
    }

    /// The sum that these make up.
    pub fn into_sum<const P: u32>(self) -> StripSum<P>
        requires scale { IsScale P }
        requires ordered { self.lower ≤ self.upper }
        requires in_range { self.upper < 2 ^ 64 }
        ensures rows { result.rows ≡ self.rows }
        ensures total { result.total ≡ record { lo = pos self.lower; hi = pos self.upper } }
    {
        StripSum {
            total: Iv::<P>::new(self.lower as i128, self.upper as i128),
            rows: self.rows,
        }
    }
}
