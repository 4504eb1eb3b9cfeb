// The line of an answer that no feed of the other tests has: a forward that is undecided.
use crate::tick_lines::push_tick;
use std::test::Fail;
use vx_replay::{TickAnswer, Which};

#[test]
fn undecided_forward_has_its_line(rt: HostRuntime) -> Result<(), Fail> {
    let answer = TickAnswer::UndecidedForward {
        which: Which::Near,
        strike: 1_960_000,
        lo: 1_959_999_999_999_999,
        hi: 1_960_000_000_000_001,
    };
    let mut line = Vec::new(rt.alloc());
    push_tick(rt.alloc(), &mut line, 30, 510, &answer)?;
    assert_eq!(rt;
        line.as_slice(),
        b"UND,08:30,30,forward,near,1960.000,1959.999999999999,1960.000000000001\n".as_slice()
    );
    Ok(())
}
