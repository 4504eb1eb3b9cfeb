//! Natural numbers and last digits in front of what has been written.

ghost use Rattle.std.specs.Prelude.{◌≡◌, ◌+◌, ◌-◌, ◌/◌, ◌^◌, ◌<◌, ◌≤◌, ◌++◌, drop, length};
ghost use Rattle.vx_num.specs.Written.{last_digits, natural_text};

use crate::place::put_digit;

/// Puts a number without leading zeros, at most 20 digits, in front of what stands from `end` on, and
/// answers its place.
pub fn put_natural<const ROOM: usize>(bytes: &mut [u8; ROOM], end: usize, value: u64) -> usize
    requires room { length (natural_text value) ≤ end }
    requires within { end ≤ ROOM }
    ensures start { result ≡ end - length (natural_text value) }
    ensures written { drop result bytes.new ≡ natural_text value ++ drop end bytes.old }
{
    let mut start = end;
    let mut rest = value;
    while rest >= 10 {
        start = put_digit(bytes, start, (rest % 10) as u8);
        rest /= 10;
    }
    put_digit(bytes, start, rest as u8)
}

/// Puts a number of up to 128 bits without leading zeros, at most 39 digits, in front of what stands
/// from `end` on, and answers its place.
pub fn put_wide_natural<const ROOM: usize>(bytes: &mut [u8; ROOM], end: usize, value: u128) -> usize
    requires room { length (natural_text value) ≤ end }
    requires within { end ≤ ROOM }
    ensures start { result ≡ end - length (natural_text value) }
    ensures written { drop result bytes.new ≡ natural_text value ++ drop end bytes.old }
{
    let mut start = end;
    let mut rest = value;
    // Division is dear at this width, so it is left as soon as the rest is short enough.
    while rest > u64::MAX as u128 {
        start = put_digit(bytes, start, (rest % 10) as u8);
        rest /= 10;
    }
    put_natural(bytes, start, rest as u64)
}

/// Puts the last digits of a number, as many as are asked, in front of what stands from `end` on, and
/// answers what stands before them.
pub(crate) fn put_last_digits<const ROOM: usize>(
    bytes: &mut [u8; ROOM],
    end: usize,
    value: u64,
    count: u32,
) -> u64
    requires room { count ≤ end }
    requires within { end ≤ ROOM }
    ensures rest { result ≡ value / 10 ^ count }
    ensures written { drop (end - count) bytes.new ≡ last_digits count value ++ drop end bytes.old }
{
    let mut start = end;
    let mut rest = value;
    for _ in 0..count {
        start = put_digit(bytes, start, (rest % 10) as u8);
        rest /= 10;
    }
    rest
}

/// Puts the last digits of a number of up to 128 bits, as [`put_last_digits`] does.
pub(crate) fn put_wide_last_digits<const ROOM: usize>(
    bytes: &mut [u8; ROOM],
    end: usize,
    value: u128,
    count: u32,
) -> u128
    requires room { count ≤ end }
    requires within { end ≤ ROOM }
    ensures rest { result ≡ value / 10 ^ count }
    ensures written { drop (end - count) bytes.new ≡ last_digits count value ++ drop end bytes.old }
{
    let mut start = end;
    let mut rest = value;
    for _ in 0..count {
        start = put_digit(bytes, start, (rest % 10) as u8);
        rest /= 10;
    }
    rest
}
