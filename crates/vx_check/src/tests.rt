//! Verdicts over the first sample feed.

ghost use Rattle.std.specs.Prelude.{IfOk};
ghost use Rattle.vx_tests.specs.Ranges.{IsVarianceAdmitted};

use crate::{PlainBook, Verdict, check_cert, check_figure, check_index, check_term};
use std::alloc::Global;
use std::test::Fail;
use vx_cert::{CertBody, CertFigure, CertRow, CertRows, CertTerm, Certificate, Ends, Pair};
use vx_clock::{DayNo, Expiry, Root};
use vx_feed::Event;
use vx_num::NoMemory;
use vx_symbol::{Side, Symbol};

const OCTOBER: Expiry = Expiry {
    root: Root::Spx,
    date: DayNo(16_360),
};

fn series(side: Side, strike: u32) -> Symbol {
    Symbol {
        root: OCTOBER.root,
        date: OCTOBER.date,
        side,
        strike,
    }
}

fn quote(side: Side, strike: u32, price: u32) -> Event {
    Event::Quote {
        time: 510,
        symbol: series(side, strike),
        bid: price,
        ask: price,
    }
}

// 14 lines: three strikes, of which only the middle one has both sides quoted, and a tick at 08:30.
fn three_strikes(alloc: Global, rate: i32) -> Result<PlainBook, NoMemory> {
    let events = [
        Event::Header { day: DayNo(16_330) },
        Event::Expiry(OCTOBER),
        Event::Rate {
            expiry: OCTOBER,
            rate,
        },
        Event::Series(series(Side::Call, 1_900_000)),
        Event::Series(series(Side::Put, 1_900_000)),
        Event::Series(series(Side::Call, 2_000_000)),
        Event::Series(series(Side::Put, 2_000_000)),
        Event::Series(series(Side::Call, 2_100_000)),
        Event::Series(series(Side::Put, 2_100_000)),
        quote(Side::Put, 1_900_000, 1_000),
        quote(Side::Call, 2_000_000, 5_000),
        quote(Side::Put, 2_000_000, 5_000),
        quote(Side::Call, 2_100_000, 1_000),
        Event::Tick { time: 510 },
    ];
    let mut book = PlainBook::new(alloc)?;
    for event in events {
        book.push(event)?;
    }
    Ok(book)
}

fn level(line: u64, time: u16, date: i32, d: i32, k0: u32) -> Certificate {
    Certificate {
        v: 1,
        line,
        time,
        body: CertBody::K0 {
            expiry: Expiry {
                root: Root::Spx,
                date: DayNo(date),
            },
            pair: Pair {
                strike: 2_000_000,
                d,
            },
            k0,
        },
    }
}

#[test]
fn answers_with_the_first_failing_test(rt: HostRuntime) -> Result<(), Fail> {
    let Ok(book) = three_strikes(rt.alloc(), 0) else {
        return Err(Fail::from("no memory"));
    };
    let cases: [(Certificate, Verdict); 7] = [
        (level(14, 510, 16_360, 0, 2_000_000), Verdict::Yes),
        (level(14, 510, 16_360, 0, 1_900_000), Verdict::No(9)),
        (level(14, 510, 16_360, 0, 2_100_000), Verdict::No(9)),
        (level(14, 510, 16_360, 1, 2_000_000), Verdict::No(7)),
        (level(13, 510, 16_360, 0, 2_000_000), Verdict::No(1)),
        (level(14, 511, 16_360, 0, 2_000_000), Verdict::No(1)),
        (level(14, 510, 16_367, 0, 2_000_000), Verdict::No(2)),
    ];
    for (certificate, verdict) in &cases {
        assert_eq!(rt; check_cert(&book, certificate), *verdict);
    }
    assert_eq!(rt; book.rows(OCTOBER).len(), 3);
    Ok(())
}

#[test]
fn asks_for_a_rate_of_zero(rt: HostRuntime) -> Result<(), Fail> {
    let Ok(book) = three_strikes(rt.alloc(), 1) else {
        return Err(Fail::from("no memory"));
    };
    let certificate = level(14, 510, 16_360, 0, 2_000_000);
    assert_eq!(rt; book.rate(OCTOBER), Some(1));
    assert_eq!(rt; check_cert(&book, &certificate), Verdict::No(4));
    Ok(())
}

// The one term of the sample certificate of version 1, so many minutes from its settlement: at rate zero
// each Taylor list is 2^60 and zeros.
fn october_term(alloc: Global, minutes: u32) -> Result<CertTerm, NoMemory>
    ensures { IfOk result (λ term. IsVarianceAdmitted 60 term.w) }
{
    let stated: [(u32, u32, u64); 3] = [
        (1_900_000, 4_000, 319_368_837_841_231),
        (2_000_000, 20_000, 1_441_151_880_758_558),
        (2_100_000, 4_000, 261_433_447_756_654),
    ];
    let mut rows = CertRows::new(alloc);
    for (strike, q4, lo) in stated {
        let row = CertRow {
            strike,
            d: 200_000,
            q4,
            lo,
            hi: lo + 1,
        };
        rows.push(row)?;
    }
    let mut taylor = [0; 14];
    taylor[0] = 1 << 60;
    Ok(CertTerm {
        expiry: OCTOBER,
        minutes,
        rate: 0,
        t_lo: taylor,
        t_hi: taylor,
        e: both(1 << 60),
        pair: Pair {
            strike: 2_000_000,
            d: 0,
        },
        f: both(2_000_000 << 60),
        k0: 2_000_000,
        g: both(0),
        rows,
        s: Ends {
            lo: 2_021_954_166_356_443,
            hi: 2_021_954_166_356_446,
        },
        w: Ends {
            lo: 4_043_908_332_712_886,
            hi: 4_043_908_332_712_892,
        },
    })
}

fn both(end: i128) -> Ends {
    Ends { lo: end, hi: end }
}

// Its figure: 20.66, between 20.657919 and 20.657920.
fn figure(lo: i64, hi: i64, cents: u64) -> CertFigure {
    CertFigure {
        x: Ends {
            lo: 49_200_884_714_673_446,
            hi: 49_200_884_714_673_520,
        },
        lo,
        hi,
        cents,
    }
}

fn single(alloc: Global, stated: CertFigure) -> Result<Certificate, NoMemory> {
    Ok(Certificate {
        v: 1,
        line: 14,
        time: 510,
        body: CertBody::Single {
            term: october_term(alloc, 43_200)?,
            figure: stated,
        },
    })
}

#[test]
fn accepts_the_sample_and_wider_ends(rt: HostRuntime) -> Result<(), Fail> {
    let Ok(book) = three_strikes(rt.alloc(), 0) else {
        return Err(Fail::from("no memory"));
    };
    let cases: [(CertFigure, Verdict); 4] = [
        (figure(20_657_919, 20_657_920, 2_066), Verdict::Yes),
        (figure(20_657_869, 20_657_970, 2_066), Verdict::Yes),
        (figure(20_657_819, 20_658_020, 2_066), Verdict::No(16)),
        (figure(20_657_919, 20_657_920, 2_065), Verdict::No(16)),
    ];
    for (stated, verdict) in cases {
        let Ok(certificate) = single(rt.alloc(), stated) else {
            return Err(Fail::from("no memory"));
        };
        assert_eq!(rt; check_cert(&book, &certificate), verdict);
        assert_eq!(rt; check_index(&book, &certificate, 30, 7), Verdict::No(1));
    }
    Ok(())
}

#[test]
fn tests_a_term(rt: HostRuntime) -> Result<(), Fail> {
    let Ok(book) = three_strikes(rt.alloc(), 0) else {
        return Err(Fail::from("no memory"));
    };
    let Ok(term) = october_term(rt.alloc(), 43_200) else {
        return Err(Fail::from("no memory"));
    };
    assert_eq!(rt; check_term(&book, 1, 14, 510, &term, 3, 14), Verdict::Yes);
    assert_eq!(rt; check_term(&book, 1, 14, 511, &term, 5, 14), Verdict::No(5));
    Ok(())
}

// The near term settles in exactly 30 days, so that the next one has no weight there, and one at 31 days.
#[test]
fn tests_the_figure_of_two_terms(rt: HostRuntime) -> Result<(), Fail> {
    let Ok(near) = october_term(rt.alloc(), 43_200) else {
        return Err(Fail::from("no memory"));
    };
    let Ok(next) = october_term(rt.alloc(), 53_790) else {
        return Err(Fail::from("no memory"));
    };
    let stated = figure(20_657_919, 20_657_920, 2_066);
    assert_eq!(rt; check_figure(1, &near, &next, 30, &stated), Verdict::Yes);
    assert_eq!(rt; check_figure(1, &near, &next, 31, &stated), Verdict::No(15));
    let other = figure(20_657_919, 20_657_920, 2_065);
    assert_eq!(rt; check_figure(1, &near, &next, 30, &other), Verdict::No(16));
    Ok(())
}
