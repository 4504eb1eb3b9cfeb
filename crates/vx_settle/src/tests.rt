//! Positions that are read and settled, and lines that are none.

use crate::{Contract, Position, PositionFault, amount, read_position};
use std::test::Fail;

#[test]
fn lines_are_read_by_their_form(rt: HostRuntime) -> Result<(), Fail> {
    let read = read_position(rt.alloc(), b"VX,5,20.0000")?;
    let standard = Position {
        contract: Contract::Vx,
        quantity: 5,
        last: 200_000,
    };
    assert_eq!(rt; read, standard);
    let read = read_position(rt.alloc(), b"VXM,-3,21")?;
    let mini = Position {
        contract: Contract::Vxm,
        quantity: -3,
        last: 210_000,
    };
    assert_eq!(rt; read, mini);
    for (line, fault) in [
        ("VX,1", PositionFault::Fields),
        ("", PositionFault::Fields),
        ("VX,1,2,", PositionFault::Fields),
        ("V\u{7f},1", PositionFault::Byte),
        ("VIX,+1,1", PositionFault::Field(1)),
        ("VX,+1,1001", PositionFault::Field(2)),
        ("VX,-1000001,1", PositionFault::Field(2)),
        ("VX,1,1000.0001", PositionFault::Field(3)),
        ("VX,1,1.00000", PositionFault::Field(3)),
    ] {
        assert_eq!(rt; read_position(rt.alloc(), line.as_bytes()), Err(fault));
    }
    Ok(())
}

#[test]
fn positions_settle_to_their_amounts(rt: HostRuntime) {
    let standard = Position {
        contract: Contract::Vx,
        quantity: 5,
        last: 200_000,
    };
    let mini = Position {
        contract: Contract::Vxm,
        quantity: -3,
        last: 210_000,
    };
    assert_eq!(rt; amount(2066, &standard), 330_000);
    assert_eq!(rt; amount(2066, &mini), 10_200);
}
