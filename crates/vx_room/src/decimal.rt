//! Numbers over a power of ten in front of what has been written.

ghost use Rattle.std.specs.Prelude.{◌≡◌, ◌+◌, ◌-◌, ◌≤◌, ◌++◌, drop, length};
ghost use Rattle.vx_num.specs.Written.{decimal_text, signed_text};

use crate::natural::{put_last_digits, put_natural, put_wide_last_digits, put_wide_natural};
use crate::place::put;

/// Puts the text of `value / 10^places`, at most 21 bytes, in front of what stands from `end` on, and
/// answers its place: the whole part without leading zeros, and where there are places a dot and
/// exactly so many digits.
pub fn put_decimal<const ROOM: usize>(
    bytes: &mut [u8; ROOM],
    end: usize,
    value: u64,
    places: u32,
) -> usize
    requires room { length (decimal_text value places) ≤ end }
    requires within { end ≤ ROOM }
    requires places { places ≤ 12 }
    ensures start { result ≡ end - length (decimal_text value places) }
    ensures written { drop result bytes.new ≡ decimal_text value places ++ drop end bytes.old }
{
    if places == 0 {
        return put_natural(bytes, end, value);
    }
    let whole = put_last_digits(bytes, end, value, places);
    let dot = put(bytes, end - places as usize, b'.');
    put_natural(bytes, dot, whole)
}

/// Puts the text of `value / 10^places`, at most 40 bytes, as [`put_decimal`] does.
pub fn put_wide_decimal<const ROOM: usize>(
    bytes: &mut [u8; ROOM],
    end: usize,
    value: u128,
    places: u32,
) -> usize
    requires room { length (decimal_text value places) ≤ end }
    requires within { end ≤ ROOM }
    requires places { places ≤ 12 }
    ensures start { result ≡ end - length (decimal_text value places) }
    ensures written { drop result bytes.new ≡ decimal_text value places ++ drop end bytes.old }
{
    // Division is dear at this width, and nearly every number fits the narrow one.
    if value <= u64::MAX as u128 {
        return put_decimal(bytes, end, value as u64, places);
    }
    if places == 0 {
        return put_wide_natural(bytes, end, value);
    }
    let whole = put_wide_last_digits(bytes, end, value, places);
    let dot = put(bytes, end - places as usize, b'.');
    put_wide_natural(bytes, dot, whole)
}

/// Puts the text of `value / 10^places`, at most 21 bytes, as [`put_decimal`] does, behind a minus
/// sign where the value is below zero.
pub fn put_signed<const ROOM: usize>(
    bytes: &mut [u8; ROOM],
    end: usize,
    value: i64,
    places: u32,
) -> usize
    requires room { length (signed_text value places) ≤ end }
    requires within { end ≤ ROOM }
    requires places { places ≤ 12 }
    ensures start { result ≡ end - length (signed_text value places) }
    ensures written { drop result bytes.new ≡ signed_text value places ++ drop end bytes.old }
{
    let start = put_decimal(bytes, end, value.unsigned_abs(), places);
    if value < 0 {
        return put(bytes, start, b'-');
    }
    start
}

/// Puts the text of `value / 10^places`, at most 41 bytes, as [`put_signed`] does.
pub fn put_wide_signed<const ROOM: usize>(
    bytes: &mut [u8; ROOM],
    end: usize,
    value: i128,
    places: u32,
) -> usize
    requires room { length (signed_text value places) ≤ end }
    requires within { end ≤ ROOM }
    requires places { places ≤ 12 }
    ensures start { result ≡ end - length (signed_text value places) }
    ensures written { drop result bytes.new ≡ signed_text value places ++ drop end bytes.old }
{
    let start = put_wide_decimal(bytes, end, value.unsigned_abs(), places);
    if value < 0 {
        return put(bytes, start, b'-');
    }
    start
}
