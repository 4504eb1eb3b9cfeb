//! Numbers over powers of ten and pieces of a line, at worked values.

use crate::{
    put, put_all, put_digit, put_natural, put_signed, put_wide_natural, put_wide_signed, written,
};

#[tactic(auto, using(crate::proofs::Lengths::wide_signed_short))]
#[test]
fn wide_numbers_are_written(rt: HostRuntime) {
    for (value, places, text) in [
        (0i128, 0u32, "0"),
        (-7, 0, "-7"),
        (0, 12, "0.000000000000"),
        (-5, 2, "-0.05"),
        (2066, 2, "20.66"),
        (18446744073709551615, 0, "18446744073709551615"),
        (18446744073709551616, 4, "1844674407370955.1616"),
        (-100000000000000000000, 0, "-100000000000000000000"),
        (i128::MIN, 12, "-170141183460469231731687303.715884105728"),
    ] {
        let places: u32 = places;
        assert!(rt; places <= 12);
        let mut room = [0; 41];
        let start = put_wide_signed(&mut room, 41, value, places);
        assert_eq!(rt;
            written(&room, start),
            text.as_bytes(),
            "{value} over {places} places"
        );
    }
}

#[tactic(auto, using(crate::proofs::Lengths::narrow_signed_short))]
#[test]
fn numbers_are_written(rt: HostRuntime) {
    for (value, places, text) in [
        (0i64, 0u32, "0"),
        (9, 0, "9"),
        (10, 0, "10"),
        (-1, 4, "-0.0001"),
        (200000, 4, "20.0000"),
        (i64::MAX, 6, "9223372036854.775807"),
        (i64::MIN, 12, "-9223372.036854775808"),
    ] {
        let places: u32 = places;
        assert!(rt; places <= 12);
        let mut room = [0; 21];
        let start = put_signed(&mut room, 21, value, places);
        assert_eq!(rt;
            written(&room, start),
            text.as_bytes(),
            "{value} over {places} places"
        );
    }
}

#[test]
fn pieces_stand_in_front_of_one_another(rt: HostRuntime) {
    let mut room = [0; 64];
    let digit = put_digit(&mut room, 64, 7);
    let word = put_all(&mut room, digit, b"ab");
    let comma = put(&mut room, word, b',');
    let wide = put_wide_natural(&mut room, comma, 18446744073709551616);
    let start = put_natural(&mut room, wide, 1_000_000);
    assert_eq!(rt;
        written(&room, start),
        b"100000018446744073709551616,ab7".as_slice()
    );
}
