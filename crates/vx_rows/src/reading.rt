//! Runs of `check` whose certificate lines can't be read, come out of order, lack an LF, are as long as can
//! be or longer, have a byte of no text, or hold as many rows as can be and more; and of the two sample
//! certificates together.

use crate::certificates::{SINGLE, expect_answer};
use crate::fixtures::{
    DECLARED, EARLIER, END, FEED, LEVEL, LISTED, LONG, QUOTED, Row, TICK, desk_of,
    expect_row_by_pieces, joined, run_words,
};
use std::alloc::Global;
use std::process::Abort;
use std::test::Fail;
use vx_cli::{Exit, FeedCause, LineCause};
use vx_desk::Slot;

// Certificate files whose lines can't be read, come out of order, or lack an LF.
const CERTIFICATES: [Row; 9] = [
    Row {
        feed: &[],
        certs: &["{\n"],
        out: "NO,1,syntax\n",
        exit: Exit::BadFeed {
            line: 1,
            cause: FeedCause::MissingEnd,
        },
        said: "vixcert: feed line 1: missing-end\n",
    },
    Row {
        feed: &[],
        certs: &["{}"],
        out: "",
        exit: Exit::BadCerts {
            line: 1,
            cause: LineCause::NoEol,
        },
        said: "vixcert: certificate line 1: no-eol\n",
    },
    Row {
        feed: &[DECLARED, LISTED, QUOTED, TICK, END],
        certs: &["{\n"],
        out: "NO,1,syntax\nEND,1,0,1\n",
        exit: Exit::SaidNo { count: 1 },
        said: "",
    },
    Row {
        feed: &[DECLARED, LISTED, QUOTED, TICK, END],
        certs: &["{}\n"],
        out: "NO,1,field-1\nEND,1,0,1\n",
        exit: Exit::SaidNo { count: 1 },
        said: "",
    },
    Row {
        feed: &[DECLARED, LISTED, QUOTED, TICK, END],
        certs: &["\n", LEVEL],
        out: "NO,1,syntax\nYES,2,08:30,2000.000\nEND,2,1,1\n",
        exit: Exit::SaidNo { count: 1 },
        said: "",
    },
    Row {
        feed: &[DECLARED, LISTED, QUOTED, TICK, END],
        certs: &[LEVEL, EARLIER],
        out: "YES,1,08:30,2000.000\nNO,2,order\nEND,2,1,1\n",
        exit: Exit::SaidNo { count: 1 },
        said: "",
    },
    Row {
        feed: &[DECLARED, LISTED, QUOTED, TICK, END],
        certs: &[EARLIER, LEVEL],
        out: "NO,1,A1\nYES,2,08:30,2000.000\nEND,2,1,1\n",
        exit: Exit::SaidNo { count: 1 },
        said: "",
    },
    Row {
        feed: &[DECLARED, LISTED, QUOTED, TICK, END],
        certs: &[
            "{\"date\":\"2014-10-17\",\"k0\":2000000,\"kind\":\"k0\",\"line\":14,\"pair\":[2000000,0],\"root\":\"SPX\",\"time\":\"08:30\",\"v\":1}",
        ],
        out: "",
        exit: Exit::BadCerts {
            line: 1,
            cause: LineCause::NoEol,
        },
        said: "vixcert: certificate line 1: no-eol\n",
    },
    Row {
        feed: &[DECLARED, LISTED, QUOTED, TICK, END],
        certs: &[LEVEL, "{}"],
        out: "YES,1,08:30,2000.000\n",
        exit: Exit::BadCerts {
            line: 2,
            cause: LineCause::NoEol,
        },
        said: "vixcert: certificate line 2: no-eol\n",
    },
];

#[test]
fn certificate_lines_get_their_words(rt: HostRuntime) -> Result<(), Fail> {
    for row in CERTIFICATES.iter() {
        expect_row_by_pieces(&rt, rt.alloc(), row)?;
    }
    Ok(())
}

// A line of the most bytes that a certificate may have, and what follows.
fn long_line(alloc: Global, rest: &str) -> Result<Vec<u8>, Fail> {
    let mut line = Vec::new(alloc);
    for _ in 0..16_384 {
        line.extend_from_slice(LONG.as_bytes())?;
    }
    line.extend_from_slice(rest.as_bytes())?;
    Ok(line)
}

// What follows a line of the most bytes that a certificate may have, what is sent and how the run ends.
const LONG_LINES: [(&str, &str, Exit); 2] = [
    ("\n", "NO,1,syntax\nEND,1,0,1\n", Exit::SaidNo { count: 1 }),
    (
        "x\n",
        "",
        Exit::BadCerts {
            line: 1,
            cause: LineCause::TooLong,
        },
    ),
];

#[test]
fn a_certificate_line_has_a_limit(rt: HostRuntime) -> Result<(), Fail> {
    for (rest, out, exit) in LONG_LINES.iter() {
        let certs = long_line(rt.alloc(), rest)?;
        let mut desk = desk_of(
            rt.alloc(),
            1000,
            4096,
            &[],
            b"H,1,2014-09-17\nEND,0\n",
            &certs,
        )?;
        let words = ["check", "feed", "certificates"];
        assert_eq!(rt; run_words(rt.alloc(), &words, &mut desk)?, *exit);
        assert_eq!(rt; desk.sent(Slot::Out), out.as_bytes());
    }
    Ok(())
}

// A fifth of the brackets of a line that nests too deep.
const OPENED: &str = "[[[[[[[[[[[[[[[[[[[[[[[[[[[[[[[[[[[[[[[[";

const CLOSED: &str = "]]]]]]]]]]]]]]]]]]]]]]]]]]]]]]]]]]]]]]]]";

#[test]
fn brackets_and_bytes_of_no_text_are_no_json(rt: HostRuntime) -> Result<(), Fail> {
    let feed = joined(rt.alloc(), &FEED)?;
    let opened = [OPENED, OPENED, OPENED, OPENED, OPENED];
    let mut brackets = joined(rt.alloc(), &opened)?;
    brackets.extend_from_slice(&joined(
        rt.alloc(),
        &[CLOSED, CLOSED, CLOSED, CLOSED, CLOSED, "\n"],
    )?)?;
    expect_answer(&rt, rt.alloc(), &feed, &brackets, "NO,1,syntax")?;
    let no_text = b"{\"no\xFFte\":1}\n".as_slice();
    expect_answer(&rt, rt.alloc(), &feed, no_text, "NO,1,syntax")
}

// The sample certificate of the single figure with its first row so many times more.
fn with_rows(alloc: Global, more: usize) -> Result<Vec<u8>, Fail> {
    let text = joined(alloc, &SINGLE)?;
    let mut made = Vec::new(alloc);
    if let Some((before, rest)) = str::from_utf8(&text)?.split_once("[1900000,") {
        made.extend_from_slice(before.as_bytes())?;
        for _ in 0..more {
            made.extend_from_slice(
                b"[1900000,200000,4000,\"319368837841231\",\"319368837841232\"],",
            )?;
        }
        made.extend_from_slice(b"[1900000,")?;
        made.extend_from_slice(rest.as_bytes())?;
    }
    Ok(made)
}

// How many rows more, and the answer; 2,000 rows are read.
const MORE_ROWS: [(usize, &str); 3] = [
    (0, "YES,1,08:30,20.66"),
    (1_997, "NO,1,A11"),
    (1_998, "NO,1,field-511"),
];

#[test]
fn a_term_has_2000_rows_at_most(rt: HostRuntime) -> Result<(), Fail> {
    let feed = joined(rt.alloc(), &FEED)?;
    for (more, out) in MORE_ROWS.iter() {
        expect_answer(&rt, rt.alloc(), &feed, &with_rows(rt.alloc(), *more)?, out)?;
    }
    Ok(())
}

#[test]
fn sample_certificates_are_answered_together(rt: HostRuntime) -> Result<(), Fail> {
    let feed = joined(rt.alloc(), &FEED)?;
    let single = joined(rt.alloc(), &SINGLE)?;
    let mut certificates = joined(rt.alloc(), &[LEVEL])?;
    certificates.extend_from_slice(&single)?;
    let mut desk = desk_of(rt.alloc(), 1000, 64, &[], &feed, &certificates)?;
    let words = ["check", "feed", "certificates"];
    assert_eq!(rt; run_words(rt.alloc(), &words, &mut desk)?, Exit::Done);
    assert_eq!(rt;
        desk.sent(Slot::Out),
        b"YES,1,08:30,2000.000\nYES,2,08:30,20.66\nEND,2,2,0\n".as_slice()
    );
    certificates.extend_from_slice(&single)?;
    let mut desk = desk_of(rt.alloc(), 1000, 64, &[], &feed, &certificates)?;
    assert_eq!(rt; run_words(rt.alloc(), &words, &mut desk)?, Exit::Done);
    assert!(rt;
        desk.sent(Slot::Out)
            .ends_with(b"YES,3,08:30,20.66\nEND,3,3,0\n")
    );
    Ok(())
}
