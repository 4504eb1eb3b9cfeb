//! Runs over feeds whose bad line stands about the end of a block of lines that are split together.

use crate::fixtures::{DECLARED, LEVEL, LISTED, LONG, QUOTED, desk_of, joined, run_words};
use std::alloc::Global;
use std::process::Abort;
use std::test::Fail;
use vx_cli::{Exit, FeedCause};
use vx_desk::Slot;
use vx_feed::FeedFault;

// The line of a tick and the bad line after it, about the end of the first block: 65,536 bytes hold 3,443 of the lines.
const PLACES: [(u64, u64); 4] = [(3442, 3443), (3443, 3444), (3444, 3445), (3445, 3446)];

// The pieces of a bad line, and what is wrong with it: some of it is found while lines are read ahead, some
// only when its turn comes.
const BAD_LINES: [(&[&str], FeedCause); 6] = [
    (
        &["Q,08:30,SPX   141017C01900000,1.001,2.00\n"],
        FeedCause::Event(FeedFault::Field(4)),
    ),
    (
        &["Q,08:30,SPX   141017C01900000,é1.00,2.00\n"],
        FeedCause::Event(FeedFault::Byte),
    ),
    (&["V,08:29\n"], FeedCause::Event(FeedFault::TimeBack)),
    (&[LONG, LONG, LONG, LONG, "x\n"], FeedCause::TooLong),
    (&["V,08:30"], FeedCause::NoEol),
    (&[], FeedCause::MissingEnd),
];

/// A command over such a feed: its words, the line of the tick or of the opening, and what is sent before the bad
/// line is met.
struct Case {
    words: &'static [&'static str],
    event: &'static str,
    out: &'static str,
}

const CHECK: Case = Case {
    words: &["check", "feed", "certificates"],
    event: "V,08:30\n",
    out: "YES,1,08:30,2000.000\n",
};

const REPLAY: Case = Case {
    words: &["replay", "feed", "written"],
    event: "V,08:30\n",
    out: "REF,08:30,30,no-term,next\n",
};

const SETTLE: Case = Case {
    words: &["settle", "feed", "certificates", "written"],
    event: "Z,08:30\n",
    out: "",
};

// The sample feed up to its quotes, its rate again up to the line of the event, so that one read gives more lines than
// a block has, the event, and what comes after it.
fn feed_of(alloc: Global, line: u64, event: &str, after: &[&str]) -> Result<Vec<u8>, Fail> {
    let mut feed = joined(alloc, &[DECLARED, LISTED, QUOTED])?;
    for _ in 14..line {
        feed.extend_from_slice(b"R,SPX,2014-10-17,0\n")?;
    }
    feed.extend_from_slice(event.as_bytes())?;
    feed.extend_from_slice(&joined(alloc, after)?)?;
    Ok(feed)
}

// The certificate of the level, naming this line.
fn level_at(alloc: Global, line: u64) -> Result<String, Fail> {
    let named = format!(in alloc; "\"line\":{line}")?;
    Ok(LEVEL.replacen(alloc, "\"line\":14", named.as_str(), 1)?)
}

// Asserts that the command sends what comes before the bad line, and that it names this line, whatever is wrong.
fn expect_stops(
    rt: &impl Abort,
    alloc: Global,
    case: &Case,
    place: &(u64, u64),
    side: &[u8],
) -> Result<(), Fail> {
    let (before, line) = *place;
    for (bad, cause) in BAD_LINES.iter() {
        let feed = feed_of(alloc, before, case.event, bad)?;
        let mut desk = desk_of(alloc, 1000, 100_000, &[], &feed, side)?;
        let exit = run_words(alloc, case.words, &mut desk)?;
        let cause = *cause;
        assert_eq!(rt; exit, Exit::BadFeed { line, cause });
        assert_eq!(rt; desk.sent(Slot::Out), case.out.as_bytes(), "{line}");
        assert!(rt; desk.sent(Slot::Certs).is_empty(), "{line}");
    }
    Ok(())
}

// The first certificate names the tick, the second one the bad line.
#[test]
fn check_stops_at_a_bad_line(rt: HostRuntime) -> Result<(), Fail> {
    for place in PLACES.iter() {
        let (tick, line) = *place;
        let mut certificates = level_at(rt.alloc(), tick)?;
        certificates.push_str(level_at(rt.alloc(), line)?.as_str())?;
        expect_stops(&rt, rt.alloc(), &CHECK, place, certificates.as_bytes())?;
    }
    Ok(())
}

#[test]
fn replay_stops_at_a_bad_line(rt: HostRuntime) -> Result<(), Fail> {
    for place in PLACES.iter() {
        expect_stops(&rt, rt.alloc(), &REPLAY, place, b"")?;
    }
    Ok(())
}

#[test]
fn settle_stops_at_a_bad_line(rt: HostRuntime) -> Result<(), Fail> {
    for place in PLACES.iter() {
        expect_stops(&rt, rt.alloc(), &SETTLE, place, b"VX,5,20.0000\n")?;
    }
    Ok(())
}
