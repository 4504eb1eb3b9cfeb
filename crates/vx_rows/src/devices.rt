//! Words of no command form, missing files and missing room.

use crate::fixtures::{FEED, LEVEL, desk_of, joined, run_words};
use std::test::Fail;
use vx_cli::{Exit, exit_line};
use vx_desk::Slot;

// Words that are no command form.
const NO_FORMS: [&[&str]; 23] = [
    &[],
    &["check"],
    &["check", "feed"],
    &["check", "feed", "feed"],
    &["check", "feed", "--x"],
    &["check", "feed", "certificates", "more"],
    &["check", "feed", ""],
    &["--help"],
    &["--version"],
    &["help"],
    &["replay", "feed"],
    &["replay", "feed", "feed"],
    &["make", "1"],
    &["make", "1", "0"],
    &["make", "1", "391"],
    &["make", "1", "1.0"],
    &["make", "1", "1", "1"],
    &["make", "2147483648", "1"],
    &["settle", "feed", "positions"],
    &["settle", "feed", "feed", "opening"],
    &["settle", "feed", "positions", "positions"],
    &["drill", "1", "391"],
    &["drill", "1"],
];

const USAGE: &str =
    "vixcert: usage: replay FEED CERTS, check FEED CERTS, settle FEED POSITIONS CERTS, make NUMBER TICKS, drill NUMBER TICKS\n";

// Each call of this desk fails, so a run that made one would answer its fault.
#[test]
fn words_of_no_form_call_no_device(rt: HostRuntime) -> Result<(), Fail> {
    for words in NO_FORMS.iter() {
        let mut desk = desk_of(rt.alloc(), 1000, 1000, &[1], b"", b"")?;
        let exit = run_words(rt.alloc(), words, &mut desk)?;
        assert_eq!(rt; exit.status(), 2);
        assert_eq!(rt; exit_line(rt.alloc(), &exit)?.as_slice(), USAGE.as_bytes());
        assert!(rt; desk.sent(Slot::Out).is_empty());
    }
    Ok(())
}

// The words, the room for what is sent, what is sent and which fault comes.
const FAULTS: [([&str; 3], usize, &str, Exit); 6] = [
    (
        ["check", "missing", "certificates"],
        1000,
        "",
        Exit::OpenFault { slot: Slot::Feed },
    ),
    (
        ["check", "feed", "missing"],
        1000,
        "",
        Exit::OpenFault { slot: Slot::Side },
    ),
    (
        ["check", "feed", "certificates"],
        0,
        "",
        Exit::WriteFault { slot: Slot::Out },
    ),
    (
        ["check", "feed", "certificates"],
        5,
        "YES,1",
        Exit::WriteFault { slot: Slot::Out },
    ),
    (
        ["make", "0", "1"],
        0,
        "",
        Exit::WriteFault { slot: Slot::Out },
    ),
    (
        ["make", "0", "1"],
        5,
        "H,1,2",
        Exit::WriteFault { slot: Slot::Out },
    ),
];

#[test]
fn missing_files_and_missing_room_are_faults(rt: HostRuntime) -> Result<(), Fail> {
    let feed = joined(rt.alloc(), &FEED)?;
    for (words, room, out, exit) in FAULTS.iter() {
        let mut desk = desk_of(rt.alloc(), *room, 5, &[], &feed, LEVEL.as_bytes())?;
        assert_eq!(rt; run_words(rt.alloc(), words, &mut desk)?, *exit);
        assert_eq!(rt; desk.sent(Slot::Out), out.as_bytes());
    }
    Ok(())
}

// The words of sample feeds with one tick; NUMBER and TICKS may be one word.
const SAMPLES: [[&str; 3]; 2] = [["make", "0", "1"], ["make", "1", "1"]];

#[test]
fn sample_feeds_are_sent(rt: HostRuntime) -> Result<(), Fail> {
    for words in SAMPLES.iter() {
        let mut desk = desk_of(rt.alloc(), 100_000, 1000, &[], b"", b"")?;
        assert_eq!(rt; run_words(rt.alloc(), words, &mut desk)?, Exit::Done);
        let text = str::from_utf8(desk.sent(Slot::Out))?;
        assert_eq!(rt; text.lines().count(), 1_607);
        assert!(rt; text.starts_with("H,1,2014-09-22\n"));
        assert!(rt; text.ends_with("V,08:30\nEND,1605\n"));
    }
    Ok(())
}
