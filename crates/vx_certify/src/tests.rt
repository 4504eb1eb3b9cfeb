//! The sample term is stated, and its index decided.

ghost use Rattle.vx_symbol.specs.Rows.{AreLawfulRows};

use crate::{certify_figure, certify_term, decide_index};
use std::alloc::Global;
use std::test::Fail;
use vx_bounds::Decision;
use vx_cert::{CertFigure, CertRow, CertTerm, Ends};
use vx_clock::{DayNo, Expiry, Root};
use vx_interval::Iv;
use vx_num::NoMemory;
use vx_symbol::{Price, StrikeRow, TermView};
use vx_term::{TermAnswer, term_variance};

// The prices 10.00 and 50.00, bid and ask alike, and none.
const TEN: Price = Price {
    there: true,
    live: true,
    half: 2_000,
};

const FIFTY: Price = Price {
    there: true,
    live: true,
    half: 10_000,
};

const NONE: Price = Price {
    there: false,
    live: false,
    half: 0,
};

// The first sample feed's rows.
const SAMPLE: [StrikeRow; 3] = [
    StrikeRow {
        strike: 1_900_000,
        put: TEN,
        call: NONE,
    },
    StrikeRow {
        strike: 2_000_000,
        put: FIFTY,
        call: FIFTY,
    },
    StrikeRow {
        strike: 2_100_000,
        put: NONE,
        call: TEN,
    },
];

// What is stated of a term at rate zero, 30 days ahead of its settlement.
fn stated(alloc: Global, rows: &[StrikeRow]) -> Result<Option<CertTerm>, NoMemory>
    requires { AreLawfulRows rows.now }
{
    let term = TermView {
        expiry: Expiry {
            root: Root::Spx,
            date: DayNo(16_360),
        },
        rate: Some(0),
        rows,
    };
    match term_variance::<62>(alloc, &term, 43_200)? {
        TermAnswer::Run(run) => Ok(Some(certify_term(alloc, &run)?)),
        _ => Ok(None),
    }
}

// The contributions 1/3610, 1/800 and 1/4410, computed with fractions.
const STATED_ROWS: [CertRow; 3] = [
    CertRow {
        strike: 1_900_000,
        d: 200_000,
        q4: 4_000,
        lo: 1_277_475_351_364_927,
        hi: 1_277_475_351_364_928,
    },
    CertRow {
        strike: 2_000_000,
        d: 200_000,
        q4: 20_000,
        lo: 5_764_607_523_034_234,
        hi: 5_764_607_523_034_235,
    },
    CertRow {
        strike: 2_100_000,
        d: 200_000,
        q4: 4_000,
        lo: 1_045_733_791_026_618,
        hi: 1_045_733_791_026_619,
    },
];

// The level and the ends of the variance.
fn numbers(term: &CertTerm) -> (u32, Ends) {
    (term.k0, term.w)
}

#[test]
fn sample_term_is_stated(rt: HostRuntime) -> Result<(), Fail> {
    let term = stated(rt.alloc(), &SAMPLE)?;
    let variance = Ends {
        lo: 16_175_633_330_851_558,
        hi: 16_175_633_330_851_564,
    };
    assert_eq!(rt; term.as_ref().map(numbers), Some((2_000_000, variance)));
    assert!(rt; term.is_some_and(|term| term.rows.items() == STATED_ROWS.as_slice()));
    Ok(())
}

// The square of the sample's index, whose root is 20.657919..
#[test]
#[tactic(auto, unfolding(vx_interval::specs::Ends::unit))]
fn sample_index_is_decided(rt: HostRuntime) {
    let square = Iv::<62>::new(196_803_538_858_693_955, 196_803_538_858_694_029);
    let index = decide_index(&square);
    assert_eq!(rt; (index.lo, index.hi), (20_657_919, 20_657_920));
    assert_eq!(rt; index.decision, Decision::Cents(2_066));
    assert_eq!(rt;
        certify_figure(&square, index.lo, index.hi, 2_066),
        CertFigure {
            x: Ends {
                lo: 196_803_538_858_693_955,
                hi: 196_803_538_858_694_029
            },
            lo: 20_657_919,
            hi: 20_657_920,
            cents: 2_066
        }
    );
}
