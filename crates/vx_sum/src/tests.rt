//! Sums of strips, from nothing and from what was kept.

ghost use Rattle.std.specs.Prelude.{◌≡◌, ◌+◌, ◌^◌, ◌<◌, ◌≤◌, length, All, AllPairs, IfOk};
ghost use Rattle.vx_strip.specs.Entries.{IsRowInRange};

use crate::{KeptStrip, StripSum, SumRefusal, SumRow, sum_strip};
use std::alloc::Global;
use std::marker::Brand;
use std::sync::ledger::{Blank, Ledger};
use std::test::Fail;
use vx_num::{NoMemory, Steps};
use vx_strip::limits::STRIP_ROWS_MAX;
use vx_strip::{Strip, StripRow, StripRows};

fn strip_of(alloc: Global, rows: &[StripRow]) -> Result<Strip, NoMemory>
    ensures { IfOk result (λ strip. strip.rows ≡ rows.now) }
{
    let mut strip = Strip {
        rows: StripRows::new(alloc),
    };
    for row in rows {
        strip.rows.push(*row)?;
    }
    Ok(strip)
}

const TWO: [StripRow; 1] = [StripRow {
    strike: 100_000,
    d: 200_000,
    q4: 80_000,
}];

const ABOVE_TWO: [StripRow; 1] = [StripRow {
    strike: 100_000,
    d: 200_000,
    q4: 80_001,
}];

fn sum_of(alloc: Global, rows: &[StripRow]) -> Result<StripSum<60>, SumRefusal>
    requires some { 1 ≤ length rows.now }
    requires few { length rows.now ≤ STRIP_ROWS_MAX }
    requires in_range { All IsRowInRange rows.now }
{
    let strip = strip_of(alloc, rows)?;
    sum_strip(alloc, &strip)
}

// A sum of exactly 2 is accepted, and the next price is too much.
#[test]
fn greatest_sum(rt: HostRuntime) -> Result<(), Fail> {
    let sum = sum_of(rt.alloc(), &TWO)?;
    assert_eq!(rt;
        sum.rows.items(),
        [SumRow {
            lo: 1 << 61,
            hi: 1 << 61
        }]
        .as_slice()
    );
    assert_eq!(rt; (sum.total.lo(), sum.total.hi()), (1 << 61, 1 << 61));
    assert_eq!(rt;
        sum_of(rt.alloc(), &ABOVE_TWO).err(),
        Some(SumRefusal::StripTooLarge {
            upper: 2_305_871_832_251_309_124
        })
    );
    Ok(())
}

// Four rows, and the same without the third, so that two widths change.
const FIRST: [StripRow; 4] = [
    StripRow {
        strike: 1_900_000,
        d: 200_000,
        q4: 4_000,
    },
    StripRow {
        strike: 2_000_000,
        d: 200_000,
        q4: 20_000,
    },
    StripRow {
        strike: 2_100_000,
        d: 300_000,
        q4: 4_000,
    },
    StripRow {
        strike: 2_300_000,
        d: 400_000,
        q4: 800,
    },
];

const THINNED: [StripRow; 3] = [
    StripRow {
        strike: 1_900_000,
        d: 200_000,
        q4: 4_000,
    },
    StripRow {
        strike: 2_000_000,
        d: 400_000,
        q4: 20_000,
    },
    StripRow {
        strike: 2_300_000,
        d: 600_000,
        q4: 800,
    },
];

// The ends of the total that is held after a refresh.
fn refreshed<L: Ledger>(
    alloc: Global,
    kept: &mut KeptStrip<60>,
    rows: &[StripRow],
    steps: &mut Steps<L>,
) -> Result<(i128, i128), SumRefusal>
    requires some { 1 ≤ length rows.now }
    requires few { length rows.now ≤ STRIP_ROWS_MAX }
    requires in_range { All IsRowInRange rows.now }
    requires rising { AllPairs (λ a b. a.strike < b.strike) rows.now }
    requires count { steps.old ≤ 2 ^ 63 }
    ensures { steps.new ≤ steps.old + length rows.now }
{
    let strip = strip_of(alloc, rows)?;
    kept.refresh(&strip, steps)?;
    let total = &kept.sum().total;
    Ok((total.lo(), total.hi()))
}

fn three_refreshes<L: Ledger>(alloc: Global, blank: Blank) -> Result<[(i128, i128); 3], SumRefusal>
    requires name { blank.name ≡ L.name }
    requires parts { blank.parts ≡ L.parts }
    requires shares { 0 < L.parts }
{
    let mut steps = Steps::<L>::open(blank);
    let mut kept = KeptStrip::<60>::new(alloc)?;
    Ok([
        refreshed(alloc, &mut kept, &FIRST, &mut steps)?,
        refreshed(alloc, &mut kept, &FIRST, &mut steps)?,
        refreshed(alloc, &mut kept, &THINNED, &mut steps)?,
    ])
}

#[test]
fn kept_sums(rt: HostRuntime) -> Result<(), Fail> {
    assert_eq!(rt;
        three_refreshes::<Brand>(rt.alloc(), Blank::new(1))?,
        [
            (2_239_848_319_694_645, 2_239_848_319_694_649),
            (2_239_848_319_694_645, 2_239_848_319_694_649),
            (3_332_438_743_548_160, 3_332_438_743_548_163),
        ]
    );
    Ok(())
}
