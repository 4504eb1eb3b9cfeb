//! Whole runs of `settle` over devices in memory.

ghost use Rattle.std.specs.Prelude.{◌≤◌};

use crate::fixtures::{DECLARED, FEED, LISTED, LONG, OPENING_FEED, desk_of, joined, run_words};
use std::alloc::Global;
use std::process::Abort;
use std::test::Fail;
use vx_cli::{Exit, FeedCause, PositionCause};
use vx_desk::Slot;
use vx_settle::PositionFault;

/// One run of `settle`: the pieces of the feed and of the positions, what it sends to the output, how many
/// lines of certificates, and how it ends.
struct SettledRow {
    feed: &'static [&'static str],
    positions: &'static [&'static str],
    out: &'static str,
    certificates: usize,
    exit: Exit,
}

// Positions that are settled on the opening figure of 20.66, and on none.
const SETTLED: [SettledRow; 5] = [
    SettledRow {
        feed: &OPENING_FEED,
        positions: &["VX,5,20.0000\n", "VX,-5,20.0000\n"],
        out: "SOQ,08:30,20.66,20.657919,20.657920\nPOS,1,VX,5,20.0000,3300.00\nPOS,2,VX,-5,20.0000,-3300.00\nTOTAL,0.00\nEND,2\n",
        certificates: 1,
        exit: Exit::Done,
    },
    SettledRow {
        feed: &OPENING_FEED,
        positions: &[],
        out: "SOQ,08:30,20.66,20.657919,20.657920\nTOTAL,0.00\nEND,0\n",
        certificates: 1,
        exit: Exit::Done,
    },
    SettledRow {
        feed: &OPENING_FEED,
        positions: &["VXM,-3,21.0000\n"],
        out: "SOQ,08:30,20.66,20.657919,20.657920\nPOS,1,VXM,-3,21.0000,102.00\nTOTAL,102.00\nEND,1\n",
        certificates: 1,
        exit: Exit::Done,
    },
    SettledRow {
        feed: &FEED,
        positions: &["VX,5,20.0000\n", "VX,-5,20.0000\n"],
        out: "REF,-,soq,no-opening\nEND,0\n",
        certificates: 0,
        exit: Exit::Done,
    },
    SettledRow {
        feed: &["H,1,2014-09-17\n", "Z,08:30\n", "END,1\n"],
        positions: &[],
        out: "REF,08:30,soq,no-term\nEND,0\n",
        certificates: 0,
        exit: Exit::Done,
    },
];

// Bad lines of positions: what stands before them is settled, and the last lines do not come. Without a figure
// they are told all the same.
const BAD_POSITIONS: [SettledRow; 5] = [
    SettledRow {
        feed: &OPENING_FEED,
        positions: &["VX,5,20.0000\n", "VX,1\n", "VX,5,20.0000\n"],
        out: "SOQ,08:30,20.66,20.657919,20.657920\nPOS,1,VX,5,20.0000,3300.00\n",
        certificates: 1,
        exit: Exit::BadPositions {
            line: 2,
            cause: PositionCause::Fault(PositionFault::Fields),
        },
    },
    SettledRow {
        feed: &OPENING_FEED,
        positions: &["VX,1000001,20.0000\n"],
        out: "SOQ,08:30,20.66,20.657919,20.657920\n",
        certificates: 1,
        exit: Exit::BadPositions {
            line: 1,
            cause: PositionCause::Fault(PositionFault::Field(2)),
        },
    },
    SettledRow {
        feed: &OPENING_FEED,
        positions: &["VX,5,20.0000\n", "VX,-5,20.0000"],
        out: "SOQ,08:30,20.66,20.657919,20.657920\nPOS,1,VX,5,20.0000,3300.00\n",
        certificates: 1,
        exit: Exit::BadPositions {
            line: 2,
            cause: PositionCause::NoEol,
        },
    },
    SettledRow {
        feed: &OPENING_FEED,
        positions: &[LONG, LONG, LONG, LONG, "x\n"],
        out: "SOQ,08:30,20.66,20.657919,20.657920\n",
        certificates: 1,
        exit: Exit::BadPositions {
            line: 1,
            cause: PositionCause::TooLong,
        },
    },
    SettledRow {
        feed: &FEED,
        positions: &["VX,5,20.0000\n", "\n"],
        out: "REF,-,soq,no-opening\n",
        certificates: 0,
        exit: Exit::BadPositions {
            line: 2,
            cause: PositionCause::Fault(PositionFault::Fields),
        },
    },
];

// A feed with a bad line, over which nothing is sent, whatever the positions are.
const BAD_FEEDS: [SettledRow; 2] = [
    SettledRow {
        feed: &[DECLARED, LISTED, "Z,08:30\n"],
        positions: &["VX,5,20.0000\n"],
        out: "",
        certificates: 0,
        exit: Exit::BadFeed {
            line: 11,
            cause: FeedCause::MissingEnd,
        },
    },
    SettledRow {
        feed: &[DECLARED, LISTED, "Z,08:30\n", "END,10"],
        positions: &["VX\n"],
        out: "",
        certificates: 0,
        exit: Exit::BadFeed {
            line: 11,
            cause: FeedCause::NoEol,
        },
    },
];

// Asserts what a run of `settle` sends and how it ends, where one call of the desk moves at most so many bytes.
fn expect_settled(rt: &impl Abort, alloc: Global, most: usize, row: &SettledRow) -> Result<(), Fail>
    requires { 1 ≤ most }
{
    let feed = joined(alloc, row.feed)?;
    let positions = joined(alloc, row.positions)?;
    let mut desk = desk_of(alloc, 100_000, most, &[], &feed, &positions)?;
    let words = ["settle", "feed", "certificates", "written"];
    let exit = run_words(alloc, &words, &mut desk)?;
    assert_eq!(rt; exit, row.exit, "where it sends {}", row.out);
    assert_eq!(rt; desk.sent(Slot::Out), row.out.as_bytes(), "{}", row.out);
    let certificates = str::from_utf8(desk.sent(Slot::Certs))?;
    assert_eq!(rt; certificates.lines().count(), row.certificates);
    Ok(())
}

#[test]
fn positions_are_settled(rt: HostRuntime) -> Result<(), Fail> {
    for row in SETTLED.iter() {
        expect_settled(&rt, rt.alloc(), 7, row)?;
        expect_settled(&rt, rt.alloc(), 1000, row)?;
    }
    Ok(())
}

#[test]
fn positions_before_a_bad_line_are_settled(rt: HostRuntime) -> Result<(), Fail> {
    for row in BAD_POSITIONS.iter() {
        expect_settled(&rt, rt.alloc(), 1000, row)?;
    }
    Ok(())
}

#[test]
fn nothing_is_settled_over_a_bad_feed(rt: HostRuntime) -> Result<(), Fail> {
    for row in BAD_FEEDS.iter() {
        expect_settled(&rt, rt.alloc(), 1000, row)?;
    }
    Ok(())
}
