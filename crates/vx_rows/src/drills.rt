//! Whole runs of `drill`, beside `replay` of the sample feed that it makes.

use crate::fixtures::{desk_of, run_words};
use std::test::Fail;
use vx_cli::Exit;
use vx_desk::Slot;

// The words of `make` and of `drill`, and what `replay` and `drill` say of the answers.
const SAMPLES: [([&str; 3], [&str; 3], &str, &str); 2] = [
    (
        ["make", "0", "1"],
        ["drill", "0", "1"],
        "\nEND,1,1,0,0\n",
        "DRILL,1607,1,1,0,0\n",
    ),
    (
        ["make", "0", "20"],
        ["drill", "0", "20"],
        "\nEND,20,20,0,0\n",
        "DRILL,16826,20,20,0,0\n",
    ),
];

#[test]
fn drill_counts_what_replay_answers(rt: HostRuntime) -> Result<(), Fail> {
    for (make, drill, last, counts) in SAMPLES.iter() {
        let mut maker = desk_of(rt.alloc(), 1_000_000, 1_000_000, &[], b"", b"")?;
        assert_eq!(rt; run_words(rt.alloc(), make, &mut maker)?, Exit::Done);
        let feed = maker.sent(Slot::Out);
        let mut replayed = desk_of(rt.alloc(), 1_000_000, 1_000_000, &[], feed, b"")?;
        let words = ["replay", "feed", "certificates"];
        assert_eq!(rt; run_words(rt.alloc(), &words, &mut replayed)?, Exit::Done);
        assert!(rt; replayed.sent(Slot::Out).ends_with(last.as_bytes()));
        let mut drilled = desk_of(rt.alloc(), 1000, 7, &[], b"", b"")?;
        assert_eq!(rt; run_words(rt.alloc(), drill, &mut drilled)?, Exit::Done);
        assert_eq!(rt; drilled.sent(Slot::Out), counts.as_bytes());
    }
    Ok(())
}
