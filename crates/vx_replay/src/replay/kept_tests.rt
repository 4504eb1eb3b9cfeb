// What the kept strips hold after the ticks of a day.
ghost use Rattle.std.specs.Prelude.{List, OnOk, IsSome, IsSomeAnd, slice_get};
ghost use Rattle.vx_feed.specs.declared.events.Event.{Event};
ghost use Rattle.vx_feed.specs.Noted as noted;
ghost use Rattle.vx_replay.specs.StandsFor.{HasPlace, MayStep, ReplayStandsFor, Steps as StepsTo};

use super::Replay;
use crate::answer::TickAnswer;
use crate::tests::{DECLARED, NEAR_LISTED, NEAR_QUOTED, NEXT_LISTED, NEXT_QUOTED, take_piece};
use std::alloc::Global;
use std::test::Fail;
use vx_feed::{Event, Order, read_event};
use vx_num::NoMemory;
use vx_sum::SumRow;

// A strip's contributions and the ends of their sum, in units of 2^-62.
struct Held {
    rows: [SumRow; 3],
    total: (i128, i128),
}

// The contributions 1/3610, 1/800 and 1/4410, rounded down and up.
const SAMPLE: Held = Held {
    rows: [
        SumRow {
            lo: 1_277_475_351_364_927,
            hi: 1_277_475_351_364_928,
        },
        SumRow {
            lo: 5_764_607_523_034_234,
            hi: 5_764_607_523_034_235,
        },
        SumRow {
            lo: 1_045_733_791_026_618,
            hi: 1_045_733_791_026_619,
        },
    ],
    total: (8_087_816_665_425_779, 8_087_816_665_425_782),
};

// The same with the call of 2100 at 20.00 in place of 10.00, so that the last contribution is 2/4410.
const DEARER_CALL: Held = Held {
    rows: [
        SumRow {
            lo: 1_277_475_351_364_927,
            hi: 1_277_475_351_364_928,
        },
        SumRow {
            lo: 5_764_607_523_034_234,
            hi: 5_764_607_523_034_235,
        },
        SumRow {
            lo: 2_091_467_582_053_237,
            hi: 2_091_467_582_053_238,
        },
    ],
    total: (9_133_550_456_452_398, 9_133_550_456_452_401),
};

// Whether the kept strip at a place holds this sum.
fn holds(replay: &Replay, place: usize, held: &Held) -> bool
    requires place { HasPlace replay.now place }
    requires refreshed { IsSomeAnd (slice_get replay.now.kept.items place) IsSome }
{
    let sum = replay.kept(place).sum();
    let total = &sum.total;
    sum.rows.items() == held.rows.as_slice() && (total.lo(), total.hi()) == held.total
}

// Answers a tick, and says whether it has a figure and the kept strips of two expiries hold these sums then.
fn holds_after(replay: &mut Replay, time: u16, near: &Held, next: &Held) -> Result<bool, NoMemory>
    requires { MayStep replay.old (Event.Tick time) }
    ensures { OnOk result (StepsTo replay.old (Event.Tick time) replay.new) }
{
    let answer = replay.step(&Event::Tick { time })?;
    let Some(answered) = answer else {
        return Ok(false);
    };
    let TickAnswer::Published { .. } = answered else {
        return Ok(false);
    };
    if replay.kept.len() == 2 {
        Ok(holds(replay, 0, near) && holds(replay, 1, next))
    } else {
        Ok(false)
    }
}

// Takes up the line of a tick in both, and says the same of it.
fn holds_after_line(
    alloc: Global,
    line: &str,
    seen: &mut Order,
    replay: &mut Replay,
    sums: (&Held, &Held),
) -> Result<bool, Fail>
    requires { (events : List Event) × noted.StandsFor seen.old events × ReplayStandsFor replay.old events }
    ensures { OnOk result ((events : List Event) × noted.StandsFor seen.new events
        × ReplayStandsFor replay.new events) }
{
    let event = read_event(alloc, line.as_bytes(), seen)?;
    seen.note(&event)?;
    let Event::Tick { time } = event else {
        return Err(Fail::from("no tick"));
    };
    Ok(holds_after(replay, time, sums.0, sums.1)?)
}

// The near and the next term have the same rows; at the second tick one quote of the near term's differs.
#[test]
fn kept_strips_hold_the_sums_of_the_ticks(rt: HostRuntime) -> Result<(), Fail> {
    let alloc = rt.alloc();
    let mut seen = Order::new(alloc)?;
    let mut replay = Replay::new(alloc)?;
    for piece in [
        DECLARED.as_slice(),
        &NEAR_LISTED,
        &NEXT_LISTED,
        &NEAR_QUOTED,
        &NEXT_QUOTED,
    ] {
        assert!(rt; take_piece(alloc, piece, &mut seen, &mut replay)?);
    }
    assert!(rt; holds_after_line(alloc, "V,08:30", &mut seen, &mut replay, (&SAMPLE, &SAMPLE))?);
    let dearer = ["Q,08:31,SPX   141017C02100000,20.00,20.00"];
    assert!(rt; take_piece(alloc, &dearer, &mut seen, &mut replay)?);
    assert!(rt;
        holds_after_line(
            alloc,
            "V,08:31",
            &mut seen,
            &mut replay,
            (&DEARER_CALL, &SAMPLE)
        )?
    );
    Ok(())
}
