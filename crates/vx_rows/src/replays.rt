//! Whole runs of `replay` over devices in memory.

use crate::fixtures::{FEED, LISTED, LONG, QUOTED, TICK, TWO_EXPIRIES, desk_of, joined, run_words};
use std::alloc::Global;
use std::process::Abort;
use std::test::Fail;
use vx_cli::{Exit, FeedCause};
use vx_desk::Slot;

/// One run of `replay`: the pieces of the feed, what it sends to the output, how many lines of
/// certificates, and how it ends.
struct Replayed {
    feed: &'static [&'static str],
    out: &'static str,
    certificates: usize,
    exit: Exit,
}

// The sample feed of two expiries, in pieces: the day with both expiries, their rates, and the series and the
// quotes of the next term; those of the near term are the other sample feed's.
const BOTH: &str = "H,1,2014-09-17\nE,SPX,2014-10-17\nE,SPXW,2014-10-24\n";

const RATES: &str = "R,SPX,2014-10-17,0\nR,SPXW,2014-10-24,0\n";

const NEXT_LISTED: &str =
    "S,SPXW  141024C01900000\nS,SPXW  141024P01900000\nS,SPXW  141024C02000000\nS,SPXW  141024P02000000\nS,SPXW  141024C02100000\nS,SPXW  141024P02100000\n";

const NEXT_QUOTED: &str =
    "Q,08:30,SPXW  141024P01900000,10.00,10.00\nQ,08:30,SPXW  141024C02000000,50.00,50.00\nQ,08:30,SPXW  141024P02000000,50.00,50.00\nQ,08:30,SPXW  141024C02100000,10.00,10.00\n";

// Feeds whose tick has a figure.
const FIGURES: [Replayed; 2] = [
    Replayed {
        feed: &[
            BOTH,
            RATES,
            LISTED,
            NEXT_LISTED,
            QUOTED,
            NEXT_QUOTED,
            TICK,
            "END,25\n",
        ],
        out: "FIG,08:30,30,20.66,20.657919,20.657920\nEND,1,1,0,0\n",
        certificates: 1,
        exit: Exit::Done,
    },
    Replayed {
        feed: &[
            BOTH,
            "R,SPX,2014-10-17,25\nR,SPXW,2014-10-24,25\n",
            LISTED,
            NEXT_LISTED,
            QUOTED,
            NEXT_QUOTED,
            TICK,
            "END,25\n",
        ],
        out: "FIG,08:30,30,20.87,20.871252,20.871253\nEND,1,1,0,0\n",
        certificates: 1,
        exit: Exit::Done,
    },
];

// Feeds whose tick is refused, by the first refusal that holds.
const REFUSALS: [Replayed; 3] = [
    Replayed {
        feed: &FEED,
        out: "REF,08:30,30,no-term,next\nEND,1,0,0,1\n",
        certificates: 0,
        exit: Exit::Done,
    },
    Replayed {
        feed: &[
            BOTH,
            RATES,
            LISTED,
            NEXT_LISTED,
            QUOTED,
            NEXT_QUOTED,
            "Q,08:30,SPX   141017C02000000,51.00,50.00\n",
            TICK,
            "END,26\n",
        ],
        out: "REF,08:30,30,no-pair,near\nEND,1,0,0,1\n",
        certificates: 0,
        exit: Exit::Done,
    },
    Replayed {
        feed: &[
            BOTH,
            RATES,
            LISTED,
            NEXT_LISTED,
            QUOTED,
            NEXT_QUOTED,
            "Q,08:30,SPX   141017C01900000,110.00,110.00\nQ,08:30,SPX   141017C02000000,51.00,50.00\n",
            TICK,
            "END,27\n",
        ],
        out: "REF,08:30,30,no-money,near\nEND,1,0,0,1\n",
        certificates: 0,
        exit: Exit::Done,
    },
];

// Terms of other weeks, of another minute, at rates below zero, and of strikes twenty times as high.
const OTHER_FIGURES: [Replayed; 4] = [
    Replayed {
        feed: &[
            "H,1,2014-09-24\nE,SPXW,2014-10-24\nE,SPXW,2014-10-31\nR,SPXW,2014-10-24,0\nR,SPXW,2014-10-31,0\n",
            NEXT_LISTED,
            "S,SPXW  141031C01900000\nS,SPXW  141031P01900000\nS,SPXW  141031C02000000\nS,SPXW  141031P02000000\nS,SPXW  141031C02100000\nS,SPXW  141031P02100000\n",
            NEXT_QUOTED,
            "Q,08:30,SPXW  141031P01900000,10.00,10.00\nQ,08:30,SPXW  141031C02000000,50.00,50.00\nQ,08:30,SPXW  141031P02000000,50.00,50.00\nQ,08:30,SPXW  141031C02100000,10.00,10.00\n",
            TICK,
            "END,25\n",
        ],
        out: "FIG,08:30,30,20.66,20.657919,20.657920\nEND,1,1,0,0\n",
        certificates: 1,
        exit: Exit::Done,
    },
    Replayed {
        feed: &[
            "H,1,2014-09-22\nE,SPX,2014-10-17\nE,SPXW,2014-10-24\n",
            RATES,
            LISTED,
            NEXT_LISTED,
            QUOTED,
            NEXT_QUOTED,
            "Q,08:30,SPXW  141024C02000000,60.00,60.00\nQ,08:30,SPXW  141024P02000000,60.00,60.00\n",
            "V,09:46\nEND,27\n",
        ],
        out: "FIG,09:46,30,21.66,21.656985,21.656986\nEND,1,1,0,0\n",
        certificates: 1,
        exit: Exit::Done,
    },
    Replayed {
        feed: &[
            BOTH,
            "R,SPX,2014-10-17,-1\nR,SPXW,2014-10-24,-1\n",
            LISTED,
            NEXT_LISTED,
            QUOTED,
            NEXT_QUOTED,
            TICK,
            "END,25\n",
        ],
        out: "FIG,08:30,30,20.65,20.649431,20.649432\nEND,1,1,0,0\n",
        certificates: 1,
        exit: Exit::Done,
    },
    Replayed {
        feed: &[
            BOTH,
            RATES,
            "S,SPX   141017C38000000\nS,SPX   141017P38000000\nS,SPX   141017C40000000\nS,SPX   141017P40000000\nS,SPX   141017C42000000\nS,SPX   141017P42000000\n",
            "S,SPXW  141024C38000000\nS,SPXW  141024P38000000\nS,SPXW  141024C40000000\nS,SPXW  141024P40000000\nS,SPXW  141024C42000000\nS,SPXW  141024P42000000\n",
            "Q,08:30,SPX   141017P38000000,200.00,200.00\nQ,08:30,SPX   141017C40000000,1000.00,1000.00\nQ,08:30,SPX   141017P40000000,1000.00,1000.00\nQ,08:30,SPX   141017C42000000,200.00,200.00\n",
            "Q,08:30,SPXW  141024P38000000,200.00,200.00\nQ,08:30,SPXW  141024C40000000,1000.00,1000.00\nQ,08:30,SPXW  141024P40000000,1000.00,1000.00\nQ,08:30,SPXW  141024C42000000,200.00,200.00\n",
            TICK,
            "END,25\n",
        ],
        out: "FIG,08:30,30,20.66,20.657919,20.657920\nEND,1,1,0,0\n",
        certificates: 1,
        exit: Exit::Done,
    },
];

// The series of a near term of the strikes 1900 and 2000 alone.
const TWO_LISTED: &str =
    "S,SPX   141017C01900000\nS,SPX   141017P01900000\nS,SPX   141017C02000000\nS,SPX   141017P02000000\n";

// Near terms of two strikes: none below the level, a forward above and below every strike.
const SHORT: [Replayed; 3] = [
    Replayed {
        feed: &[
            BOTH,
            RATES,
            "S,SPX   141017C01950000\nS,SPX   141017P01950000\nS,SPX   141017C01960000\nS,SPX   141017P01960000\n",
            NEXT_LISTED,
            "Q,08:30,SPX   141017C01950000,30.00,30.00\nQ,08:30,SPX   141017P01950000,25.00,25.00\nQ,08:30,SPX   141017C01960000,25.00,25.00\nQ,08:30,SPX   141017P01960000,30.00,30.00\n",
            NEXT_QUOTED,
            TICK,
            "END,23\n",
        ],
        out: "REF,08:30,30,no-put,near\nEND,1,0,0,1\n",
        certificates: 0,
        exit: Exit::Done,
    },
    Replayed {
        feed: &[
            BOTH,
            RATES,
            TWO_LISTED,
            NEXT_LISTED,
            "Q,08:30,SPX   141017C02000000,60.00,60.00\nQ,08:30,SPX   141017P02000000,50.00,50.00\n",
            NEXT_QUOTED,
            TICK,
            "END,21\n",
        ],
        out: "REF,08:30,30,no-strike-above,near\nEND,1,0,0,1\n",
        certificates: 0,
        exit: Exit::Done,
    },
    Replayed {
        feed: &[
            BOTH,
            RATES,
            TWO_LISTED,
            NEXT_LISTED,
            "Q,08:30,SPX   141017C01900000,10.00,10.00\nQ,08:30,SPX   141017P01900000,50.00,50.00\n",
            NEXT_QUOTED,
            TICK,
            "END,21\n",
        ],
        out: "REF,08:30,30,no-strike-below,near\nEND,1,0,0,1\n",
        certificates: 0,
        exit: Exit::Done,
    },
];

// Both terms with a forward far above the level, so that the square of the index is below zero.
const NEGATIVE: Replayed = Replayed {
    feed: &[
        BOTH,
        RATES,
        TWO_LISTED,
        "S,SPX   141017C03000000\nS,SPX   141017P03000000\n",
        "S,SPXW  141024C01900000\nS,SPXW  141024P01900000\nS,SPXW  141024C02000000\nS,SPXW  141024P02000000\nS,SPXW  141024C03000000\nS,SPXW  141024P03000000\n",
        "Q,08:30,SPX   141017P01900000,0.01,0.01\nQ,08:30,SPX   141017C02000000,900.00,900.00\nQ,08:30,SPX   141017P02000000,0.01,0.01\nQ,08:30,SPX   141017C03000000,0.01,0.01\n",
        "Q,08:30,SPXW  141024P01900000,0.01,0.01\nQ,08:30,SPXW  141024C02000000,900.00,900.00\nQ,08:30,SPXW  141024P02000000,0.01,0.01\nQ,08:30,SPXW  141024C03000000,0.01,0.01\n",
        TICK,
        "END,25\n",
    ],
    out: "REF,08:30,30,negative-variance,both\nEND,1,0,0,1\n",
    certificates: 0,
    exit: Exit::Done,
};

// Feeds that end early, and the shortest one that does not.
const CUT: [Replayed; 6] = [
    Replayed {
        feed: &["H,1,2014-09-17\n", "END,0\n"],
        out: "END,0,0,0,0\n",
        certificates: 0,
        exit: Exit::Done,
    },
    Replayed {
        feed: &["H,1,2014-09-17\n"],
        out: "",
        certificates: 0,
        exit: Exit::BadFeed {
            line: 2,
            cause: FeedCause::MissingEnd,
        },
    },
    Replayed {
        feed: &[],
        out: "",
        certificates: 0,
        exit: Exit::BadFeed {
            line: 1,
            cause: FeedCause::MissingEnd,
        },
    },
    Replayed {
        feed: &[BOTH, RATES, LISTED, NEXT_LISTED, QUOTED, NEXT_QUOTED, TICK],
        out: "FIG,08:30,30,20.66,20.657919,20.657920\n",
        certificates: 1,
        exit: Exit::BadFeed {
            line: 27,
            cause: FeedCause::MissingEnd,
        },
    },
    Replayed {
        feed: &[
            BOTH,
            RATES,
            LISTED,
            NEXT_LISTED,
            QUOTED,
            NEXT_QUOTED,
            TICK,
            "END,2",
        ],
        out: "FIG,08:30,30,20.66,20.657919,20.657920\n",
        certificates: 1,
        exit: Exit::BadFeed {
            line: 27,
            cause: FeedCause::NoEol,
        },
    },
    Replayed {
        feed: &["H,1,2014-09-17\n", LONG, LONG, LONG, LONG, "x\n"],
        out: "",
        certificates: 0,
        exit: Exit::BadFeed {
            line: 2,
            cause: FeedCause::TooLong,
        },
    },
];

// Asserts that `check` says yes to each of these certificates over the feed, and ends as `replay` did.
fn expect_accepted(
    rt: &impl Abort,
    alloc: Global,
    row: &Replayed,
    feed: &[u8],
    sent: &[u8],
) -> Result<(), Fail> {
    let mut desk = desk_of(alloc, 1000, 4096, &[], feed, sent)?;
    let exit = run_words(alloc, &["check", "feed", "certificates"], &mut desk)?;
    assert_eq!(rt; exit, row.exit, "over {}", row.out);
    let answers = str::from_utf8(desk.sent(Slot::Out))?;
    let accepted = answers.lines().filter(|line| line.starts_with("YES,"));
    assert_eq!(rt; accepted.count(), row.certificates, "over {}", row.out);
    Ok(())
}

// Asserts what a run of `replay` sends and how it ends, and that its certificates are accepted.
fn expect_replayed(rt: &impl Abort, alloc: Global, row: &Replayed) -> Result<(), Fail> {
    let feed = joined(alloc, row.feed)?;
    let mut desk = desk_of(alloc, 100_000, 1000, &[], &feed, b"")?;
    let exit = run_words(alloc, &["replay", "feed", "certificates"], &mut desk)?;
    assert_eq!(rt; exit, row.exit, "where it sends {}", row.out);
    assert_eq!(rt; desk.sent(Slot::Out), row.out.as_bytes(), "{}", row.out);
    let certificates = str::from_utf8(desk.sent(Slot::Certs))?;
    assert_eq!(rt; certificates.lines().count(), row.certificates);
    expect_accepted(rt, alloc, row, &feed, desk.sent(Slot::Certs))
}

#[test]
fn ticks_get_figures(rt: HostRuntime) -> Result<(), Fail> {
    for row in FIGURES.iter() {
        expect_replayed(&rt, rt.alloc(), row)?;
    }
    for row in OTHER_FIGURES.iter() {
        expect_replayed(&rt, rt.alloc(), row)?;
    }
    Ok(())
}

#[test]
fn ticks_get_first_refusals(rt: HostRuntime) -> Result<(), Fail> {
    for row in REFUSALS.iter() {
        expect_replayed(&rt, rt.alloc(), row)?;
    }
    for row in SHORT.iter() {
        expect_replayed(&rt, rt.alloc(), row)?;
    }
    expect_replayed(&rt, rt.alloc(), &NEGATIVE)
}

#[test]
fn ticks_before_a_bad_line_are_answered(rt: HostRuntime) -> Result<(), Fail> {
    for row in CUT.iter() {
        expect_replayed(&rt, rt.alloc(), row)?;
    }
    Ok(())
}

// The certificate is on its way before the line of its figure is begun.
#[test]
fn certificates_come_before_their_lines(rt: HostRuntime) -> Result<(), Fail> {
    let feed = joined(rt.alloc(), &TWO_EXPIRIES)?;
    let mut desk = desk_of(rt.alloc(), 5, 5, &[], &feed, b"")?;
    let exit = run_words(rt.alloc(), &["replay", "feed", "written"], &mut desk)?;
    assert_eq!(rt; exit, Exit::WriteFault { slot: Slot::Certs });
    assert_eq!(rt; desk.sent(Slot::Certs), b"{\"cen".as_slice());
    assert!(rt; desk.sent(Slot::Out).is_empty());
    Ok(())
}

// What the first failing calls are answered with.
const FIRST_CALLS: [(u64, Exit); 3] = [
    (1, Exit::OpenFault { slot: Slot::Feed }),
    (2, Exit::OpenFault { slot: Slot::Certs }),
    (3, Exit::ReadFault { slot: Slot::Feed }),
];

#[test]
fn files_are_opened_before_the_first_read(rt: HostRuntime) -> Result<(), Fail> {
    let feed = joined(rt.alloc(), &TWO_EXPIRIES)?;
    for (call, answer) in FIRST_CALLS.iter() {
        let mut desk = desk_of(rt.alloc(), 1000, 10, &[*call], &feed, b"")?;
        let exit = run_words(rt.alloc(), &["replay", "feed", "written"], &mut desk)?;
        assert_eq!(rt; exit, *answer);
        assert!(rt; desk.sent(Slot::Out).is_empty() && desk.sent(Slot::Certs).is_empty());
    }
    Ok(())
}

// The feed of two expiries with its tick three times.
const THREE_TICKS: [&str; 9] = [
    BOTH,
    RATES,
    LISTED,
    NEXT_LISTED,
    QUOTED,
    NEXT_QUOTED,
    TICK,
    TICK,
    "V,08:30\nEND,27\n",
];

// What stands on the output where the second write of the third line fails, and one call moves 10 bytes at most.
const CUT_LINE: &str =
    "FIG,08:30,30,20.66,20.657919,20.657920\nFIG,08:30,30,20.66,20.657919,20.657920\nFIG,08:30,";

#[test]
fn a_failed_write_leaves_what_was_sent(rt: HostRuntime) -> Result<(), Fail> {
    let feed = joined(rt.alloc(), &THREE_TICKS)?;
    for call in 1..2000 {
        let mut desk = desk_of(rt.alloc(), 100_000, 10, &[call], &feed, b"")?;
        let exit = run_words(rt.alloc(), &["replay", "feed", "written"], &mut desk)?;
        if desk.sent(Slot::Out) == CUT_LINE.as_bytes() {
            assert_eq!(rt; exit, Exit::WriteFault { slot: Slot::Out });
            return Ok(());
        }
    }
    panic!(rt; "no call of the third line fails")
}
