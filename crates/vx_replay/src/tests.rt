//! Days of events, taken up line by line, and what their last ticks are answered.
ghost use Rattle.std.specs.Prelude.{List, OnOk};
ghost use Rattle.vx_feed.specs.declared.events.Event.{Event};
ghost use Rattle.vx_feed.specs.Noted as noted;
ghost use Rattle.vx_replay.specs.StandsFor.{ReplayStandsFor};

use crate::{Reason, Replay, SCALE, TickAnswer, Which, join_terms};
use std::alloc::Global;
use std::test::Fail;
use vx_feed::{Order, read_event};
use vx_term::{TermAnswer, TermRefusal};

// What a tick is answered, without the certificate.
#[derive(Clone, Copy, Debug, PartialEq, Eq)]
enum Said {
    Nothing,
    Figure { cents: u64, lo: i64, hi: i64 },
    Undecided,
    Refused { reason: Reason, which: Which },
}

// The lines of a day before its tick, in pieces, and what the tick is answered.
struct Row {
    day: &'static [&'static [&'static str]],
    tick: &'static str,
    said: Said,
}

pub(crate) const DECLARED: [&str; 5] = [
    "H,1,2014-09-17",
    "E,SPX,2014-10-17",
    "E,SPXW,2014-10-24",
    "R,SPX,2014-10-17,0",
    "R,SPXW,2014-10-24,0",
];

pub(crate) const NEAR_LISTED: [&str; 6] = [
    "S,SPX   141017C01900000",
    "S,SPX   141017P01900000",
    "S,SPX   141017C02000000",
    "S,SPX   141017P02000000",
    "S,SPX   141017C02100000",
    "S,SPX   141017P02100000",
];

pub(crate) const NEAR_QUOTED: [&str; 4] = [
    "Q,08:30,SPX   141017P01900000,10.00,10.00",
    "Q,08:30,SPX   141017C02000000,50.00,50.00",
    "Q,08:30,SPX   141017P02000000,50.00,50.00",
    "Q,08:30,SPX   141017C02100000,10.00,10.00",
];

pub(crate) const NEXT_LISTED: [&str; 6] = [
    "S,SPXW  141024C01900000",
    "S,SPXW  141024P01900000",
    "S,SPXW  141024C02000000",
    "S,SPXW  141024P02000000",
    "S,SPXW  141024C02100000",
    "S,SPXW  141024P02100000",
];

pub(crate) const NEXT_QUOTED: [&str; 4] = [
    "Q,08:30,SPXW  141024P01900000,10.00,10.00",
    "Q,08:30,SPXW  141024C02000000,50.00,50.00",
    "Q,08:30,SPXW  141024P02000000,50.00,50.00",
    "Q,08:30,SPXW  141024C02100000,10.00,10.00",
];

const TICK: &str = "V,08:30";

// One expiry alone; the standard one and the weekly one; rates of 25%; and the near term's put crossed
// at its one pair, without and with another pair.
const SAMPLES: [Row; 5] = [
    Row {
        day: &[
            &["H,1,2014-09-17", "E,SPX,2014-10-17", "R,SPX,2014-10-17,0"],
            &NEAR_LISTED,
            &NEAR_QUOTED,
        ],
        tick: TICK,
        said: Said::Refused {
            reason: Reason::NoTerm,
            which: Which::Next,
        },
    },
    Row {
        day: &[
            &DECLARED,
            &NEAR_LISTED,
            &NEXT_LISTED,
            &NEAR_QUOTED,
            &NEXT_QUOTED,
        ],
        tick: TICK,
        said: Said::Figure {
            cents: 2_066,
            lo: 20_657_919,
            hi: 20_657_920,
        },
    },
    Row {
        day: &[
            &DECLARED,
            &["R,SPX,2014-10-17,25", "R,SPXW,2014-10-24,25"],
            &NEAR_LISTED,
            &NEXT_LISTED,
            &NEAR_QUOTED,
            &NEXT_QUOTED,
        ],
        tick: TICK,
        said: Said::Figure {
            cents: 2_087,
            lo: 20_871_252,
            hi: 20_871_253,
        },
    },
    Row {
        day: &[
            &DECLARED,
            &NEAR_LISTED,
            &NEXT_LISTED,
            &NEAR_QUOTED,
            &NEXT_QUOTED,
            &["Q,08:30,SPX   141017C02000000,51.00,50.00"],
        ],
        tick: TICK,
        said: Said::Refused {
            reason: Reason::Term(TermRefusal::NoPair),
            which: Which::Near,
        },
    },
    Row {
        day: &[
            &DECLARED,
            &NEAR_LISTED,
            &NEXT_LISTED,
            &NEAR_QUOTED,
            &NEXT_QUOTED,
            &[
                "Q,08:30,SPX   141017C02000000,51.00,50.00",
                "Q,08:30,SPX   141017C01900000,110.00,110.00",
            ],
        ],
        tick: TICK,
        said: Said::Refused {
            reason: Reason::Term(TermRefusal::NoMoney),
            which: Which::Near,
        },
    },
];

// Terms that are extrapolated and interpolated to 30 days.
const WEEKS: [Row; 2] = [
    Row {
        day: &[
            &[
                "H,1,2014-09-24",
                "E,SPXW,2014-10-24",
                "E,SPXW,2014-10-31",
                "R,SPXW,2014-10-24,0",
                "R,SPXW,2014-10-31,0",
            ],
            &NEXT_LISTED,
            &[
                "S,SPXW  141031C01900000",
                "S,SPXW  141031P01900000",
                "S,SPXW  141031C02000000",
                "S,SPXW  141031P02000000",
                "S,SPXW  141031C02100000",
                "S,SPXW  141031P02100000",
            ],
            &NEXT_QUOTED,
            &[
                "Q,08:30,SPXW  141031P01900000,10.00,10.00",
                "Q,08:30,SPXW  141031C02000000,50.00,50.00",
                "Q,08:30,SPXW  141031P02000000,50.00,50.00",
                "Q,08:30,SPXW  141031C02100000,10.00,10.00",
            ],
        ],
        tick: TICK,
        said: Said::Figure {
            cents: 2_066,
            lo: 20_657_919,
            hi: 20_657_920,
        },
    },
    Row {
        day: &[
            &["H,1,2014-09-22"],
            &[
                "E,SPX,2014-10-17",
                "E,SPXW,2014-10-24",
                "R,SPX,2014-10-17,0",
                "R,SPXW,2014-10-24,0",
            ],
            &NEAR_LISTED,
            &NEXT_LISTED,
            &NEAR_QUOTED,
            &NEXT_QUOTED,
            &[
                "Q,08:30,SPXW  141024C02000000,60.00,60.00",
                "Q,08:30,SPXW  141024P02000000,60.00,60.00",
            ],
        ],
        tick: "V,09:46",
        said: Said::Figure {
            cents: 2_166,
            lo: 21_656_985,
            hi: 21_656_986,
        },
    },
];

// Near terms of two strikes: none below the level, a forward above and below every strike.
const SHORT: [Row; 3] = [
    Row {
        day: &[
            &DECLARED,
            &[
                "S,SPX   141017C01950000",
                "S,SPX   141017P01950000",
                "S,SPX   141017C01960000",
                "S,SPX   141017P01960000",
            ],
            &NEXT_LISTED,
            &NEXT_QUOTED,
            &[
                "Q,08:30,SPX   141017C01950000,30.00,30.00",
                "Q,08:30,SPX   141017P01950000,25.00,25.00",
                "Q,08:30,SPX   141017C01960000,25.00,25.00",
                "Q,08:30,SPX   141017P01960000,30.00,30.00",
            ],
        ],
        tick: TICK,
        said: Said::Refused {
            reason: Reason::Term(TermRefusal::NoPut),
            which: Which::Near,
        },
    },
    Row {
        day: &[
            &DECLARED,
            &[
                "S,SPX   141017C01900000",
                "S,SPX   141017P01900000",
                "S,SPX   141017C02000000",
                "S,SPX   141017P02000000",
            ],
            &NEXT_LISTED,
            &NEXT_QUOTED,
            &[
                "Q,08:30,SPX   141017C02000000,60.00,60.00",
                "Q,08:30,SPX   141017P02000000,50.00,50.00",
            ],
        ],
        tick: TICK,
        said: Said::Refused {
            reason: Reason::Term(TermRefusal::NoStrikeAbove),
            which: Which::Near,
        },
    },
    Row {
        day: &[
            &DECLARED,
            &[
                "S,SPX   141017C01900000",
                "S,SPX   141017P01900000",
                "S,SPX   141017C02000000",
                "S,SPX   141017P02000000",
            ],
            &NEXT_LISTED,
            &NEXT_QUOTED,
            &[
                "Q,08:30,SPX   141017C01900000,10.00,10.00",
                "Q,08:30,SPX   141017P01900000,50.00,50.00",
            ],
        ],
        tick: TICK,
        said: Said::Refused {
            reason: Reason::Term(TermRefusal::NoStrikeBelow),
            which: Which::Near,
        },
    },
];

// Both terms with a forward far above the level, so that the square of the index is below zero.
const NEGATIVE: Row = Row {
    day: &[
        &DECLARED,
        &[
            "S,SPX   141017C01900000",
            "S,SPX   141017P01900000",
            "S,SPX   141017C02000000",
            "S,SPX   141017P02000000",
            "S,SPX   141017C03000000",
            "S,SPX   141017P03000000",
            "S,SPXW  141024C01900000",
            "S,SPXW  141024P01900000",
            "S,SPXW  141024C02000000",
            "S,SPXW  141024P02000000",
            "S,SPXW  141024C03000000",
            "S,SPXW  141024P03000000",
            "Q,08:30,SPX   141017P01900000,0.01,0.01",
            "Q,08:30,SPX   141017C02000000,900.00,900.00",
            "Q,08:30,SPX   141017P02000000,0.01,0.01",
            "Q,08:30,SPX   141017C03000000,0.01,0.01",
            "Q,08:30,SPXW  141024P01900000,0.01,0.01",
            "Q,08:30,SPXW  141024C02000000,900.00,900.00",
            "Q,08:30,SPXW  141024P02000000,0.01,0.01",
            "Q,08:30,SPXW  141024C03000000,0.01,0.01",
        ],
    ],
    tick: TICK,
    said: Said::Refused {
        reason: Reason::NegativeVariance,
        which: Which::Both,
    },
};

fn said_of(answer: &Option<TickAnswer>) -> Said {
    match answer {
        None => Said::Nothing,
        Some(TickAnswer::Published { cents, lo, hi, .. }) => Said::Figure {
            cents: *cents,
            lo: *lo,
            hi: *hi,
        },
        Some(TickAnswer::Refused { reason, which }) => Said::Refused {
            reason: *reason,
            which: *which,
        },
        Some(_) => Said::Undecided,
    }
}

// Takes up a line in both.
fn take_line(alloc: Global, line: &str, seen: &mut Order, replay: &mut Replay) -> Result<Said, Fail>
    requires { (events : List Event) × noted.StandsFor seen.old events × ReplayStandsFor replay.old events }
    ensures { OnOk result ((events : List Event) × noted.StandsFor seen.new events
        × ReplayStandsFor replay.new events) }
{
    let event = read_event(alloc, line.as_bytes(), seen)?;
    seen.note(&event)?;
    let answer = replay.step(&event)?;
    Ok(said_of(&answer))
}

// Takes up the lines of a piece, none of them a tick.
pub(crate) fn take_piece(
    alloc: Global,
    piece: &[&str],
    seen: &mut Order,
    replay: &mut Replay,
) -> Result<bool, Fail>
    requires { (events : List Event) × noted.StandsFor seen.old events × ReplayStandsFor replay.old events }
    ensures { OnOk result ((events : List Event) × noted.StandsFor seen.new events
        × ReplayStandsFor replay.new events) }
{
    let mut quiet = true;
    for line in piece {
        let said = take_line(alloc, line, seen, replay)?;
        quiet = quiet && said == Said::Nothing;
    }
    Ok(quiet)
}

// What the tick of a row is answered, where no line before it is answered.
fn answer_of(alloc: Global, row: &Row) -> Result<Said, Fail> {
    let mut seen = Order::new(alloc)?;
    let mut replay = Replay::new(alloc)?;
    for piece in row.day {
        if !take_piece(alloc, piece, &mut seen, &mut replay)? {
            return Ok(Said::Undecided);
        }
    }
    take_line(alloc, row.tick, &mut seen, &mut replay)
}

#[test]
fn sample_ticks_are_answered(rt: HostRuntime) -> Result<(), Fail> {
    for row in &SAMPLES {
        assert_eq!(rt; answer_of(rt.alloc(), row)?, row.said);
    }
    Ok(())
}

#[test]
fn other_terms_are_answered(rt: HostRuntime) -> Result<(), Fail> {
    for row in &WEEKS {
        assert_eq!(rt; answer_of(rt.alloc(), row)?, row.said);
    }
    for row in &SHORT {
        assert_eq!(rt; answer_of(rt.alloc(), row)?, row.said);
    }
    assert_eq!(rt; answer_of(rt.alloc(), &NEGATIVE)?, NEGATIVE.said);
    Ok(())
}

// A strike between the ends of the near term's forward. A feed whose tick shows it is not known: at rate
// zero, and where the pair's two prices are equal, the forward is never undecided, and else its
// exponential is irrational.
#[test]
fn undecided_forward_is_handed_on(rt: HostRuntime) -> Result<(), Fail> {
    let near = TermAnswer::<SCALE>::UndecidedForward {
        strike: 1_960_000,
        lo: 1_959_999_999_999_999,
        hi: 1_960_000_000_000_001,
    };
    let next = TermAnswer::<SCALE>::Refused(TermRefusal::NoPair);
    let answer = join_terms::<SCALE>(rt.alloc(), &near, &next, 27, 510, 30)?;
    assert!(rt;
        matches!(
            answer,
            TickAnswer::UndecidedForward {
                which: Which::Near,
                strike: 1_960_000,
                lo: 1_959_999_999_999_999,
                hi: 1_960_000_000_000_001,
            }
        )
    );
    Ok(())
}
