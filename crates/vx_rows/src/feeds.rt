//! Runs of `check` over feeds that end early, have a bad line, or are longer than what is read at once.

use crate::fixtures::{
    DECLARED, END, LEVEL, LISTED, LONG, QUOTED, Row, TICK, desk_of, expect_row_by_pieces, joined,
    run_words,
};
use std::alloc::Global;
use std::process::Abort;
use std::test::Fail;
use vx_cli::{Exit, FeedCause};
use vx_desk::Slot;
use vx_feed::FeedFault;

// Feeds that end early, and the shortest one that does not.
const CUT_FEEDS: [Row; 6] = [
    Row {
        feed: &["H,1,2014-09-17\n", "END,0\n"],
        certs: &[],
        out: "END,0,0,0\n",
        exit: Exit::Done,
        said: "",
    },
    Row {
        feed: &["H,1,2014-09-17\n"],
        certs: &[],
        out: "",
        exit: Exit::BadFeed {
            line: 2,
            cause: FeedCause::MissingEnd,
        },
        said: "vixcert: feed line 2: missing-end\n",
    },
    Row {
        feed: &[],
        certs: &[],
        out: "",
        exit: Exit::BadFeed {
            line: 1,
            cause: FeedCause::MissingEnd,
        },
        said: "vixcert: feed line 1: missing-end\n",
    },
    Row {
        feed: &[DECLARED, LISTED, QUOTED, TICK],
        certs: &[LEVEL],
        out: "YES,1,08:30,2000.000\n",
        exit: Exit::BadFeed {
            line: 15,
            cause: FeedCause::MissingEnd,
        },
        said: "vixcert: feed line 15: missing-end\n",
    },
    Row {
        feed: &[DECLARED, LISTED, QUOTED],
        certs: &[LEVEL],
        out: "",
        exit: Exit::BadFeed {
            line: 14,
            cause: FeedCause::MissingEnd,
        },
        said: "vixcert: feed line 14: missing-end\n",
    },
    Row {
        feed: &[DECLARED, LISTED, QUOTED, TICK, "END,1"],
        certs: &[LEVEL],
        out: "YES,1,08:30,2000.000\n",
        exit: Exit::BadFeed {
            line: 15,
            cause: FeedCause::NoEol,
        },
        said: "vixcert: feed line 15: no-eol\n",
    },
];

// Feeds with a bad line.
const BAD_FEEDS: [Row; 9] = [
    Row {
        feed: &[
            DECLARED,
            "R,SPX,2014-10-24,0\n",
            LISTED,
            QUOTED,
            TICK,
            "END,14\n",
        ],
        certs: &[LEVEL],
        out: "",
        exit: Exit::BadFeed {
            line: 4,
            cause: FeedCause::Event(FeedFault::UndeclaredExpiry),
        },
        said: "vixcert: feed line 4: undeclared-expiry\n",
    },
    Row {
        feed: &[
            DECLARED,
            "S,SPX   141017C01900000\n",
            LISTED,
            QUOTED,
            TICK,
            "END,14\n",
        ],
        certs: &[LEVEL],
        out: "",
        exit: Exit::BadFeed {
            line: 5,
            cause: FeedCause::Event(FeedFault::DuplicateSeries),
        },
        said: "vixcert: feed line 5: duplicate-series\n",
    },
    Row {
        feed: &[
            DECLARED,
            LISTED,
            QUOTED,
            "Q,08:29,SPX   141017C02100000,1.00,1.00\n",
            TICK,
            "END,14\n",
        ],
        certs: &[LEVEL],
        out: "",
        exit: Exit::BadFeed {
            line: 14,
            cause: FeedCause::Event(FeedFault::TimeBack),
        },
        said: "vixcert: feed line 14: time-back\n",
    },
    Row {
        feed: &[DECLARED, "S,SPX  141017C01900000\n"],
        certs: &[LEVEL],
        out: "",
        exit: Exit::BadFeed {
            line: 4,
            cause: FeedCause::Event(FeedFault::Field(2)),
        },
        said: "vixcert: feed line 4: field-2\n",
    },
    Row {
        feed: &[
            DECLARED,
            LISTED,
            "Q,08:30,SPX   141017C01900000,1.001,2.00\n",
        ],
        certs: &[LEVEL],
        out: "",
        exit: Exit::BadFeed {
            line: 10,
            cause: FeedCause::Event(FeedFault::Field(4)),
        },
        said: "vixcert: feed line 10: field-4\n",
    },
    Row {
        feed: &[
            DECLARED,
            LISTED,
            "Q,08:30,SPX   141017P01900000,é0.00,10.00\n",
        ],
        certs: &[LEVEL],
        out: "",
        exit: Exit::BadFeed {
            line: 10,
            cause: FeedCause::Event(FeedFault::Byte),
        },
        said: "vixcert: feed line 10: byte\n",
    },
    Row {
        feed: &[DECLARED, LISTED, QUOTED, TICK, "END,12\n"],
        certs: &[LEVEL],
        out: "YES,1,08:30,2000.000\n",
        exit: Exit::BadFeed {
            line: 15,
            cause: FeedCause::Event(FeedFault::EndCount),
        },
        said: "vixcert: feed line 15: end-count\n",
    },
    Row {
        feed: &["H,1,2014-09-17\n", LONG, LONG, LONG, LONG, "x\n"],
        certs: &[],
        out: "",
        exit: Exit::BadFeed {
            line: 2,
            cause: FeedCause::TooLong,
        },
        said: "vixcert: feed line 2: too-long\n",
    },
    Row {
        feed: &["H,1,2014-09-17\n", LONG, LONG, LONG, LONG, "\n"],
        certs: &[],
        out: "",
        exit: Exit::BadFeed {
            line: 2,
            cause: FeedCause::Event(FeedFault::Kind),
        },
        said: "vixcert: feed line 2: kind\n",
    },
];

#[test]
fn feeds_that_end_early_are_refused(rt: HostRuntime) -> Result<(), Fail> {
    for row in CUT_FEEDS.iter() {
        expect_row_by_pieces(&rt, rt.alloc(), row)?;
    }
    Ok(())
}

#[test]
fn bad_feed_lines_are_named(rt: HostRuntime) -> Result<(), Fail> {
    for row in BAD_FEEDS.iter() {
        expect_row_by_pieces(&rt, rt.alloc(), row)?;
    }
    Ok(())
}

// A certificate of the level that names a tick behind more lines than are split together.
const FAR: &str =
    "{\"date\":\"2014-10-17\",\"k0\":2000000,\"kind\":\"k0\",\"line\":614,\"pair\":[2000000,0],\"root\":\"SPX\",\"time\":\"08:30\",\"v\":1}\n";

// The lines of the feed from line 614 on, what is sent for the certificate that names it, and how the run
// ends.
const FAR_LINES: [(&str, &str, Exit); 3] = [
    (
        "V,08:30\nEND,613\n",
        "YES,1,08:30,2000.000\nEND,1,1,0\n",
        Exit::Done,
    ),
    (
        "V,08:29\nEND,613\n",
        "",
        Exit::BadFeed {
            line: 614,
            cause: FeedCause::Event(FeedFault::TimeBack),
        },
    ),
    (
        "V,08:30\nEND,612\n",
        "YES,1,08:30,2000.000\n",
        Exit::BadFeed {
            line: 615,
            cause: FeedCause::Event(FeedFault::EndCount),
        },
    ),
];

// The lines of the sample feed up to its quotes, the last of these 600 times more, and these lines.
fn far_feed(alloc: Global, lines: &str) -> Result<Vec<u8>, Fail> {
    let mut feed = joined(alloc, &[DECLARED, LISTED, QUOTED])?;
    for _ in 0..600 {
        feed.extend_from_slice(b"Q,08:30,SPX   141017C02100000,10.00,10.00\n")?;
    }
    feed.extend_from_slice(lines.as_bytes())?;
    Ok(feed)
}

#[test]
fn lines_past_the_first_block_are_read(rt: HostRuntime) -> Result<(), Fail> {
    for (lines, out, exit) in FAR_LINES.iter() {
        let feed = far_feed(rt.alloc(), lines)?;
        let mut desk = desk_of(rt.alloc(), 1000, 100_000, &[], &feed, FAR.as_bytes())?;
        let words = ["check", "feed", "certificates"];
        assert_eq!(rt; run_words(rt.alloc(), &words, &mut desk)?, *exit);
        assert_eq!(rt; desk.sent(Slot::Out), out.as_bytes());
    }
    Ok(())
}
