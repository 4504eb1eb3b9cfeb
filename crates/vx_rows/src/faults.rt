//! Runs of each command in which one call of the device fails, each call in turn.

ghost use Rattle.std.specs.Prelude.{◌≤◌};

use crate::fixtures::{FEED, LEVEL, OPENING_FEED, TWO_EXPIRIES, desk_of, joined, run_words};
use crate::watched::Watched;
use std::alloc::Global;
use std::process::Abort;
use std::test::Fail;
use vx_cli::Exit;
use vx_desk::{MemDesk, Slot};

/// A run that ends well where no call fails: its words, the pieces of the feed, and the file of certificates or of
/// positions.
struct Case {
    words: &'static [&'static str],
    feed: &'static [&'static str],
    side: &'static str,
}

const FILES: [Case; 3] = [
    Case {
        words: &["check", "feed", "certificates"],
        feed: &FEED,
        side: LEVEL,
    },
    Case {
        words: &["replay", "feed", "written"],
        feed: &TWO_EXPIRIES,
        side: "",
    },
    Case {
        words: &["settle", "feed", "certificates", "written"],
        feed: &OPENING_FEED,
        side: "VX,5,20.0000\nVX,-5,20.0000\n",
    },
];

const SAMPLES: [Case; 2] = [
    Case {
        words: &["make", "0", "1"],
        feed: &[],
        side: "",
    },
    Case {
        words: &["drill", "0", "1"],
        feed: &[],
        side: "",
    },
];

// Whether each writing slot was sent a first part of what the whole run sends to it.
fn sends_first_parts(whole: &MemDesk, part: &MemDesk) -> bool {
    whole.sent(Slot::Out).starts_with(part.sent(Slot::Out))
        && whole.sent(Slot::Certs).starts_with(part.sent(Slot::Certs))
}

// Asserts that a run in which one call fails, each `step`th in turn, ends in the fault of that call, and has sent
// first parts; and answers the number of the first call that no run comes to, where one call moves at most so many
// bytes.
fn count_calls(
    rt: &impl Abort,
    alloc: Global,
    most: usize,
    step: u64,
    case: &Case,
) -> Result<u64, Fail>
    requires most { 1 ≤ most }
    requires step { step ≤ 10 }
{
    let feed = joined(alloc, case.feed)?;
    let side = case.side.as_bytes();
    let mut whole = desk_of(alloc, 100_000, most, &[], &feed, side)?;
    assert_eq!(rt; run_words(alloc, case.words, &mut whole)?, Exit::Done);
    for turn in 0..2000 {
        let call = 1 + turn * step;
        let desk = desk_of(alloc, 100_000, most, &[call], &feed, side)?;
        let mut watched = Watched { desk, failed: None };
        let exit = run_words(alloc, case.words, &mut watched)?;
        assert_eq!(rt; exit, watched.failed.unwrap_or(Exit::Done), "call {call}");
        assert!(rt; sends_first_parts(&whole, &watched.desk), "call {call}");
        if watched.failed.is_none() {
            return Ok(call);
        }
    }
    panic!(rt; "no run without a failed call")
}

#[test]
fn each_failed_call_over_files_is_answered(rt: HostRuntime) -> Result<(), Fail> {
    for case in FILES.iter() {
        assert!(rt; count_calls(&rt, rt.alloc(), 1, 10, case)? > 500);
        assert!(rt; count_calls(&rt, rt.alloc(), 10, 1, case)? > 50);
        assert!(rt; count_calls(&rt, rt.alloc(), 1_000_000, 1, case)? > 5);
    }
    Ok(())
}

#[test]
fn each_failed_write_of_a_sample_is_answered(rt: HostRuntime) -> Result<(), Fail> {
    for case in SAMPLES.iter() {
        assert!(rt; count_calls(&rt, rt.alloc(), 2000, 1, case)? > 1);
        assert!(rt; count_calls(&rt, rt.alloc(), 1_000_000, 1, case)? > 1);
    }
    Ok(())
}
