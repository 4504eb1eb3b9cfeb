//! Writing numbers as their canonical texts.

ghost use Rattle.std.specs.Prelude.{◌≡◌, ℕ, ◌+◌, ◌-◌, ◌*◌, ◌/◌, ◌^◌, ◌<◌, ◌≤◌, [], ◌∷◌, ◌++◌, drop, length, List, nat_abs, neg_ℤ, pos, ◌≤ℤ◌, Ok, OnErr, OnOk, Some};
ghost use Rattle.vx_num.specs.Decimal.{decimal_of, signed_decimal_of, wide_of};
ghost use Rattle.vx_num.specs.Written.{decimal_text, digit_byte, last_digits, natural_text, signed_text, wide_text};

use crate::fault::NoMemory;
use std::alloc::Global;
use std::marker::Model;

/// The longest text: the 39 digits of the widest number, a dot and a minus sign.
const ROOM: usize = 41;

/// A text that is written from its end.
#[derive(Drop)]
struct Backwards {
    bytes: [u8; ROOM],
    start: usize,
}

impl Model for Backwards {
    ghost use Rattle.std.specs.Prelude.{ℕ, ◌≤◌, List, drop};
    ghost use Rattle.vx_num.specs.declared.writing.TheConstants.{ROOM};

    ghost Value = { List ℕ };

    ghost view = { λ t. drop t.start t.bytes };

    ghost invariant = { λ t. t.start ≤ ROOM };
}

impl Backwards {
    fn new() -> Self
        ensures { result ≡ [] }
    {
        Backwards {
            bytes: [0; ROOM],
            start: ROOM,
        }
    }

    fn put(&mut self, byte: u8)
        requires { length self.old < ROOM }
        ensures { self.new ≡ byte ∷ self.old }
    {
        self.start -= 1;
        self.bytes[self.start] = byte;
    }

    fn put_digit(&mut self, digit: u8)
        requires room { length self.old < ROOM }
        requires digit { digit < 10 }
        ensures { self.new ≡ digit_byte digit ∷ self.old }
    {
        self.put(b'0' + digit);
    }

    fn text(&self) -> &[u8]
        ensures { result.now ≡ self.now }
    {
        &self.bytes[self.start..]
    }
}

/// Writes a number below `2^64`, without leading zeros.
fn put_small(text: &mut Backwards, value: u64)
    requires room { length text.old < ROOM }
    requires fits { value < 10 ^ (ROOM - length text.old) }
    ensures { text.new ≡ natural_text value ++ text.old }
{
    let mut rest = value;
    while rest >= 10 {
        text.put_digit((rest % 10) as u8);
        rest /= 10;
    }
    text.put_digit(rest as u8);
}

/// Writes a number without leading zeros.
fn put_natural(text: &mut Backwards, value: u128)
    requires room { length text.old < ROOM }
    requires fits { value < 10 ^ (ROOM - length text.old) }
    ensures { text.new ≡ natural_text value ++ text.old }
{
    let mut rest = value;
    // Division is dear at this width, so it is left as soon as the rest is short enough.
    while rest > u64::MAX as u128 {
        text.put_digit((rest % 10) as u8);
        rest /= 10;
    }
    put_small(text, rest as u64);
}

/// Writes the last digits of a number below `2^64`, and answers what stands before them.
fn put_last_small(text: &mut Backwards, value: u64, count: u32) -> u64
    requires { length text.old + count ≤ ROOM }
    ensures written { text.new ≡ last_digits count value ++ text.old }
    ensures rest { result ≡ value / 10 ^ count }
{
    let mut rest = value;
    for _ in 0..count {
        text.put_digit((rest % 10) as u8);
        rest /= 10;
    }
    rest
}

/// Writes the last digits of a number, and answers what stands before them.
fn put_last_digits(text: &mut Backwards, value: u128, count: u32) -> u128
    requires { length text.old + count ≤ ROOM }
    ensures written { text.new ≡ last_digits count value ++ text.old }
    ensures rest { result ≡ value / 10 ^ count }
{
    // Division is dear at this width, and nearly every number fits the narrow one.
    if value <= u64::MAX as u128 {
        return u128::from(put_last_small(text, value as u64, count));
    }
    let mut rest = value;
    for _ in 0..count {
        text.put_digit((rest % 10) as u8);
        rest /= 10;
    }
    rest
}

/// The text of a number over `10^places`.
fn decimal_backwards(value: u128, places: u32) -> Backwards
    requires { places ≤ 12 }
    ensures { result ≡ decimal_text value places }
{
    let mut text = Backwards::new();
    if places == 0 {
        put_natural(&mut text, value);
        return text;
    }
    let whole = put_last_digits(&mut text, value, places);
    text.put(b'.');
    put_natural(&mut text, whole);
    text
}

/// The text of a number with a sign over `10^places`.
fn signed_backwards(value: i128, places: u32) -> Backwards
    requires { places ≤ 12 }
    ensures { result ≡ signed_text value places }
{
    let mut text = decimal_backwards(value.unsigned_abs(), places);
    if value < 0 {
        text.put(b'-');
    }
    text
}

/// The text of a whole number.
fn wide_backwards(value: i128) -> Backwards
    ensures { result ≡ wide_text value }
{
    let mut text = Backwards::new();
    put_natural(&mut text, value.unsigned_abs());
    if value < 0 {
        text.put(b'-');
    }
    text
}

/// Appends the text of `value / 10^places`: the whole part without leading zeros, and where there
/// are places a dot and exactly so many digits. [`crate::read_decimal`] reads it back.
///
/// # Errors
///
/// `NoMemory`, and then `out` is unchanged.
pub fn write_decimal(
    alloc: Global,
    out: &mut Vec<u8>,
    value: u128,
    places: u32,
) -> Result<(), NoMemory>
    requires { places ≤ 12 }
    ensures written { OnOk result (out.new.items ≡ out.old.items ++ decimal_text value places) }
    ensures refused { OnErr result (out.new.items ≡ out.old.items) }
    ensures read_back { (max : ℕ) → value ≤ max → decimal_of (decimal_text value places) places max ≡ Ok value }
{
    let text = decimal_backwards(value, places);
    out.extend_from_slice(text.text())?;
    Ok(())
}

/// Appends the text of `value / 10^places` as [`write_decimal`] does, behind a minus sign where the
/// value is below zero. [`crate::read_signed`] reads it back.
///
/// # Errors
///
/// `NoMemory`, and then `out` is unchanged.
pub fn write_signed(
    alloc: Global,
    out: &mut Vec<u8>,
    value: i128,
    places: u32,
) -> Result<(), NoMemory>
    requires { places ≤ 12 }
    ensures written { OnOk result (out.new.items ≡ out.old.items ++ signed_text value places) }
    ensures refused { OnErr result (out.new.items ≡ out.old.items) }
    ensures read_back { (below above : ℕ) → neg_ℤ (pos below) ≤ℤ value → value ≤ℤ pos above
        → signed_decimal_of (signed_text value places) places below above ≡ Some value }
{
    let text = signed_backwards(value, places);
    out.extend_from_slice(text.text())?;
    Ok(())
}

/// Appends the text of a whole number: its digits without leading zeros, behind a minus sign where
/// it is below zero. [`crate::read_wide`] reads it back.
///
/// # Errors
///
/// `NoMemory`, and then `out` is unchanged.
pub fn write_wide(alloc: Global, out: &mut Vec<u8>, value: i128) -> Result<(), NoMemory>
    ensures written { OnOk result (out.new.items ≡ out.old.items ++ wide_text value) }
    ensures refused { OnErr result (out.new.items ≡ out.old.items) }
    ensures read_back { (bits : ℕ) → nat_abs value < 2 ^ bits → wide_of (wide_text value) bits ≡ Ok value }
{
    let text = wide_backwards(value);
    out.extend_from_slice(text.text())?;
    Ok(())
}
