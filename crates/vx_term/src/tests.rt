//! One sample term: its variance, what is kept of it, and its refusals.

ghost use Rattle.std.specs.Prelude.{◌≡◌, ◌<◌, IfSome};
ghost use Rattle.vx_symbol.specs.Rows.{AreLawfulRows, IsRateInRange};

use crate::{TermAnswer, TermRefusal, term_variance, term_variance_kept, variance_with};
use std::alloc::Global;
use std::marker::Brand;
use std::sync::ledger::{Blank, Ledger};
use std::test::Fail;
use vx_bounds::exp_signed;
use vx_clock::{DayNo, Expiry, Root};
use vx_num::{NoMemory, Steps};
use vx_sum::KeptStrip;
use vx_symbol::{Price, StrikeRow, TermView};

// The prices 10.00, 50.00 and 20.00, bid and ask alike, and none.
const TEN: Price = Price {
    there: true,
    live: true,
    half: 2_000,
};

const FIFTY: Price = Price {
    there: true,
    live: true,
    half: 10_000,
};

const TWENTY: Price = Price {
    there: true,
    live: true,
    half: 4_000,
};

const NONE: Price = Price {
    there: false,
    live: false,
    half: 0,
};

const AT_1900: StrikeRow = StrikeRow {
    strike: 1_900_000,
    put: TEN,
    call: NONE,
};

const AT_2000: StrikeRow = StrikeRow {
    strike: 2_000_000,
    put: FIFTY,
    call: FIFTY,
};

const AT_2100: StrikeRow = StrikeRow {
    strike: 2_100_000,
    put: NONE,
    call: TEN,
};

const DEARER_AT_2100: StrikeRow = StrikeRow {
    strike: 2_100_000,
    put: NONE,
    call: TWENTY,
};

// The first sample feed's rows.
const SAMPLE: [StrikeRow; 3] = [AT_1900, AT_2000, AT_2100];

// The same with the call of 2100 at 20.00.
const DEARER_CALL: [StrikeRow; 3] = [AT_1900, AT_2000, DEARER_AT_2100];

const OCTOBER_17: Expiry = Expiry {
    root: Root::Spx,
    date: DayNo(16_360),
};

// What is answered 30 days ahead of the settlement.
fn answer_of(
    alloc: Global,
    rows: &[StrikeRow],
    rate: Option<i32>,
) -> Result<TermAnswer<62>, NoMemory>
    requires lawful { AreLawfulRows rows.now }
    requires rate { IfSome rate IsRateInRange }
{
    let term = TermView {
        expiry: OCTOBER_17,
        rate,
        rows,
    };
    term_variance::<62>(alloc, &term, 43_200)
}

// The same with the exponential given, which is 1.
fn answer_with_one(alloc: Global, rows: &[StrikeRow]) -> Result<TermAnswer<62>, NoMemory>
    requires lawful { AreLawfulRows rows.now }
{
    let term = TermView {
        expiry: OCTOBER_17,
        rate: Some(0),
        rows,
    };
    let exp = exp_signed::<62>(0, 52_560_000_000_000);
    variance_with::<62>(alloc, &term, 43_200, 0, exp)
}

// The numbers of an answer over a kept strip, at rate zero.
fn kept_numbers(
    alloc: Global,
    rows: &[StrikeRow],
    kept: &mut KeptStrip<62>,
) -> Result<Option<[i128; 6]>, NoMemory>
    requires lawful { AreLawfulRows rows.now }
{
    counted_numbers::<Brand>(alloc, rows, kept, Blank::new(1))
}

// The same over a ledger for the counter.
fn counted_numbers<L: Ledger>(
    alloc: Global,
    rows: &[StrikeRow],
    kept: &mut KeptStrip<62>,
    blank: Blank,
) -> Result<Option<[i128; 6]>, NoMemory>
    requires lawful { AreLawfulRows rows.now }
    requires name { blank.name ≡ L.name }
    requires parts { blank.parts ≡ L.parts }
    requires shares { 0 < L.parts }
{
    let term = TermView {
        expiry: OCTOBER_17,
        rate: Some(0),
        rows,
    };
    let mut steps = Steps::<L>::open(blank);
    let answer = term_variance_kept::<62, L>(alloc, &term, 43_200, kept, &mut steps)?;
    Ok(numbers(&answer))
}

// The level, the low end of the forward, and the ends of the strip's sum and of the variance.
fn numbers(answer: &TermAnswer<62>) -> Option<[i128; 6]> {
    match answer {
        TermAnswer::Run(run) => Some([
            i128::from(run.k0),
            run.f.lo(),
            run.sum.total.lo(),
            run.sum.total.hi(),
            run.w.lo(),
            run.w.hi(),
        ]),
        _ => None,
    }
}

// The numbers are those of a computation with fractions: the contributions are 1/3610, 1/800 and
// 1/4410, and the variance is twice their sum.
const SAMPLE_NUMBERS: [i128; 6] = [
    2_000_000,
    9_223_372_036_854_775_808_000_000,
    8_087_816_665_425_779,
    8_087_816_665_425_782,
    16_175_633_330_851_558,
    16_175_633_330_851_564,
];

#[test]
fn sample_term_has_its_variance(rt: HostRuntime) -> Result<(), Fail> {
    let run = answer_of(rt.alloc(), &SAMPLE, Some(0))?;
    assert_eq!(rt; numbers(&run), Some(SAMPLE_NUMBERS));
    let run = answer_with_one(rt.alloc(), &SAMPLE)?;
    assert_eq!(rt; numbers(&run), Some(SAMPLE_NUMBERS));
    Ok(())
}

// The last contribution is 2/4410.
const DEARER_NUMBERS: [i128; 6] = [
    2_000_000,
    9_223_372_036_854_775_808_000_000,
    9_133_550_456_452_398,
    9_133_550_456_452_401,
    18_267_100_912_904_796,
    18_267_100_912_904_802,
];

// One strip is kept over a first refresh, one with the same rows and one with a row that changed. A term
// that is refused leaves it as it was.
#[test]
fn kept_strip_gives_the_same_numbers(rt: HostRuntime) -> Result<(), Fail> {
    let mut kept = KeptStrip::<62>::new(rt.alloc())?;
    let first = kept_numbers(rt.alloc(), &SAMPLE, &mut kept)?;
    assert_eq!(rt; first, Some(SAMPLE_NUMBERS));
    let same = kept_numbers(rt.alloc(), &SAMPLE, &mut kept)?;
    assert_eq!(rt; same, Some(SAMPLE_NUMBERS));
    let refused = kept_numbers(rt.alloc(), &SAMPLE[..2], &mut kept)?;
    assert_eq!(rt; refused, None);
    let dearer = kept_numbers(rt.alloc(), &DEARER_CALL, &mut kept)?;
    assert_eq!(rt; dearer, Some(DEARER_NUMBERS));
    Ok(())
}

// No rate, no row with both sides live, and no strike above the level.
#[test]
fn refusals_have_their_cause(rt: HostRuntime) -> Result<(), Fail> {
    assert!(rt;
        matches!(
            answer_of(rt.alloc(), &SAMPLE, None)?,
            TermAnswer::Refused(TermRefusal::NoRate)
        )
    );
    assert!(rt;
        matches!(
            answer_of(rt.alloc(), &SAMPLE[..1], Some(0))?,
            TermAnswer::Refused(TermRefusal::NoPair)
        )
    );
    assert!(rt;
        matches!(
            answer_of(rt.alloc(), &SAMPLE[..2], Some(0))?,
            TermAnswer::Refused(TermRefusal::NoStrikeAbove)
        )
    );
    Ok(())
}
