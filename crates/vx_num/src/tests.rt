//! Quotients, texts of numbers and counted steps, at worked values.

ghost use Rattle.std.specs.Prelude.{◌≡◌, ◌<◌};

use crate::{
    DecimalFault, Steps, div_ceil, div_floor, read_decimal, read_signed, read_wide, write_decimal,
    write_signed, write_wide,
};
use std::marker::Brand;
use std::sync::ledger::{Blank, Ledger};
use std::test::Fail;

#[test]
fn quotients_are_rounded(rt: HostRuntime) {
    for (a, b, floor, ceiling) in [
        (7i128, 2i128, 3i128, 4i128),
        (-7, 2, -4, -3),
        (-6, 2, -3, -3),
        (0, 5, 0, 0),
        (1, i128::MAX, 0, 1),
        (-1, i128::MAX, -1, 0),
        (i128::MAX, 1, i128::MAX, i128::MAX),
        (i128::MIN, 1, i128::MIN, i128::MIN),
        (
            i128::MIN,
            3,
            -56713727820156410577229101238628035243,
            -56713727820156410577229101238628035242,
        ),
    ] {
        assert!(rt; b > 0);
        assert_eq!(rt; div_floor(a, b), floor, "floor of {a} / {b}");
        assert_eq!(rt; div_ceil(a, b), ceiling, "ceiling of {a} / {b}");
    }
}

#[test]
fn decimals_are_read(rt: HostRuntime) {
    for (text, places, max, want) in [
        ("1.001", 2, 5_000_000, Err(DecimalFault::Places)),
        ("1.00", 2, 5_000_000, Ok(100)),
        ("007.5", 2, 5_000_000, Ok(750)),
        ("0", 8, 0, Ok(0)),
        ("50000.00", 2, 5_000_000, Ok(5_000_000)),
        ("50000.01", 2, 5_000_000, Err(DecimalFault::TooLarge)),
        ("18446744073709551615", 0, u64::MAX, Ok(u64::MAX)),
        (
            "18446744073709551616",
            0,
            u64::MAX,
            Err(DecimalFault::TooLarge),
        ),
        (
            "18446744073709551616.0001",
            0,
            u64::MAX,
            Err(DecimalFault::Places),
        ),
        ("", 2, 9, Err(DecimalFault::Empty)),
        ("1.", 2, 9, Err(DecimalFault::NotDigit)),
        (".5", 2, 900, Err(DecimalFault::NotDigit)),
        (".", 2, 900, Err(DecimalFault::NotDigit)),
        ("1.2.3", 2, 900, Err(DecimalFault::NotDigit)),
        ("-1", 2, 900, Err(DecimalFault::NotDigit)),
        (
            "99999999999999999999999999999999999999999x",
            2,
            9,
            Err(DecimalFault::NotDigit),
        ),
        (
            "99999999999999999999999999999999999999999",
            2,
            9,
            Err(DecimalFault::TooLarge),
        ),
    ] {
        let places: u32 = places;
        assert!(rt; places <= 8);
        assert_eq!(rt;
            read_decimal(text.as_bytes(), places, max),
            want,
            "{text} with {places}"
        );
    }
}

#[test]
fn signed_decimals_are_read(rt: HostRuntime) {
    for (text, want) in [
        ("25.00", Some(2_500)),
        ("25.01", None),
        ("-5", Some(-500)),
        ("-5.01", None),
        ("-0", Some(0)),
        ("-", None),
        ("--1", None),
        ("+1", None),
        ("", None),
    ] {
        assert_eq!(rt; read_signed(text.as_bytes(), 2, 500, 2_500), want, "{text}");
    }
}

#[test]
fn wide_numbers_are_read(rt: HostRuntime) {
    for (text, bits, want) in [
        ("-12", 8, Ok(-12i128)),
        ("255", 8, Ok(255)),
        ("256", 8, Err(DecimalFault::TooLarge)),
        ("-256", 8, Err(DecimalFault::TooLarge)),
        ("-0", 1, Ok(0)),
        ("000", 1, Ok(0)),
        (
            "85070591730234615865843651857942052863",
            126,
            Ok((1 << 126) - 1),
        ),
        (
            "-85070591730234615865843651857942052863",
            126,
            Ok(1 - (1 << 126)),
        ),
        (
            "85070591730234615865843651857942052864",
            126,
            Err(DecimalFault::TooLarge),
        ),
        (
            "999999999999999999999999999999999999999999",
            126,
            Err(DecimalFault::TooLarge),
        ),
        ("", 8, Err(DecimalFault::Empty)),
        ("-", 8, Err(DecimalFault::Empty)),
        ("--1", 8, Err(DecimalFault::NotDigit)),
        ("+1", 8, Err(DecimalFault::NotDigit)),
        ("1.0", 8, Err(DecimalFault::NotDigit)),
    ] {
        let bits: u32 = bits;
        assert!(rt; bits >= 1 && bits <= 126);
        assert_eq!(rt;
            read_wide(text.as_bytes(), bits),
            want,
            "{text} with {bits}"
        );
    }
}

#[test]
fn numbers_are_written(rt: HostRuntime) -> Result<(), Fail> {
    let mut out = Vec::new(rt.alloc());
    write_decimal(rt.alloc(), &mut out, 2066, 2)?;
    out.push(b' ')?;
    write_decimal(rt.alloc(), &mut out, 5, 6)?;
    out.push(b' ')?;
    write_decimal(rt.alloc(), &mut out, u128::MAX, 0)?;
    out.push(b' ')?;
    write_decimal(rt.alloc(), &mut out, 0, 12)?;
    out.push(b' ')?;
    write_wide(rt.alloc(), &mut out, i128::MIN)?;
    out.push(b' ')?;
    write_wide(rt.alloc(), &mut out, 0)?;
    out.push(b' ')?;
    write_signed(rt.alloc(), &mut out, -5, 2)?;
    out.push(b' ')?;
    write_signed(rt.alloc(), &mut out, i128::MIN, 12)?;
    let want =
        b"20.66 0.000005 340282366920938463463374607431768211455 0.000000000000 -170141183460469231731687303715884105728 0 -0.05 -170141183460469231731687303.715884105728";
    assert_eq!(rt; out.as_slice(), want.as_slice());
    Ok(())
}

fn ticked<L: Ledger>(blank: Blank)
    requires name { blank.name ≡ L.name }
    requires parts { blank.parts ≡ L.parts }
    requires some { 0 < L.parts }
{
    let mut steps = Steps::<L>::open(blank);
    steps.tick();
    steps.tick();
}

#[test]
fn steps_are_counted() {
    ticked::<Brand>(Blank::new(1));
}
