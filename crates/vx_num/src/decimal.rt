//! Reading numbers from their texts, in one pass and without memory.

ghost use Rattle.std.specs.Prelude.{◌≡◌, ℕ, true, ◌+◌, ◌*◌, ◌^◌, ◌<◌, ◌≤◌, IfOk, IfSome, filter, length, if◌then◌else◌, is_some, min, nat_abs, nat_le, neg_ℤ, pos, take, ◌≤ℤ◌};
ghost use Rattle.std.specs.List.{list_all, prefix_len};
ghost use Rattle.vx_num.specs.Decimal.{decimal_of, digits_worth, is_decimal, is_decimal_rest, is_digit, magnitude_of, places_of, signed_decimal_of, wide_of};
ghost use Rattle.vx_num.specs.Runs.{IsWorth, IsWorthBehind};

use crate::fault::DecimalFault;

/// Values from here on are only known to be at least this. It is above every limit that a text is
/// read with.
const LARGE: u128 = 1 << 127;

/// Below this one more digit fits.
const ROOM: u128 = 1 << 124;

/// Texts of at most so many bytes are short: behind a start below `SHORT_START`, what their digits are
/// worth fits 64 bits.
const SHORT_LEN: usize = 9;

const SHORT_START: u64 = 1_000_000_000;

/// What so many digits are worth fits 64 bits, and what twice as many are worth fits 128.
const PART_LEN: usize = 18;

/// Digits with `PART_LEN` digits behind them are worth so many times more.
const PART_UNIT: u128 = 1_000_000_000_000_000_000;

/// The digits at the front of a text, where what they are worth fits 64 bits.
#[derive(Drop)]
struct ShortRun {
    /// What they are worth behind the digits before.
    value: u64,
    len: usize,
}

/// The digits at the front of a text.
#[derive(Drop)]
struct DigitRun {
    /// What they are worth behind the digits before, or at least `LARGE` where that is.
    value: u128,
    len: usize,
}

fn with_digit(value: u128, digit: u8) -> u128
    requires { digit < 10 }
    ensures { min result LARGE ≡ min (value * 10 + digit) LARGE }
{
    if value < ROOM {
        value * 10 + digit as u128
    } else {
        LARGE
    }
}

/// Reads the digits at the front of a text of one part, which stand behind few digits worth `start`.
#[inline(always)]
fn short_run(text: &[u8], start: u64) -> ShortRun
    requires short { length text.now ≤ PART_LEN }
    requires few { start * 10 ^ length text.now < 2 ^ 63 }
    ensures len { result.len ≡ prefix_len is_digit text.now }
    ensures value { result.value ≡ start * 10 ^ result.len + digits_worth (take result.len text.now) }
{
    let mut value = start;
    for (len, &byte) in text.iter().enumerate() {
        match byte {
            b'0'..=b'9' => value = 10 * value + u64::from(byte - b'0'),
            _ => return ShortRun { value, len },
        }
    }
    ShortRun {
        value,
        len: text.len(),
    }
}

/// Reads a text of one part and of digits alone, which stand behind few digits worth `start`.
#[inline(always)]
fn digits_alone(text: &[u8], start: u64) -> Option<u64>
    requires short { length text.now ≤ PART_LEN }
    requires few { start * 10 ^ length text.now < 2 ^ 63 }
    ensures form { IfSome result (λ _. list_all is_digit text.now ≡ true) }
    ensures value { IfSome result (λ value. value ≡ start * 10 ^ length text.now + digits_worth text.now) }
{
    let run = short_run(text, start);
    if run.len < text.len() {
        return None;
    }
    Some(run.value)
}

/// Reads a text of two parts and of digits alone: one product in 128 bits joins what each part is worth.
fn two_parts(text: &[u8]) -> Option<u128>
    requires least { PART_LEN ≤ length text.now }
    requires most { length text.now ≤ 2 * PART_LEN }
    ensures form { IfSome result (λ _. list_all is_digit text.now ≡ true) }
    ensures value { IfSome result (λ value. value ≡ digits_worth text.now) }
{
    let split = text.len() - PART_LEN;
    let high = digits_alone(&text[..split], 0)?;
    let low = digits_alone(&text[split..], 0)?;
    Some(u128::from(high) * PART_UNIT + u128::from(low))
}

/// Reads the digits at the front of any text, which stand behind digits worth `start`.
fn long_run(text: &[u8], start: u128) -> DigitRun
    ensures len { result.len ≡ prefix_len is_digit text.now }
    ensures value { IsWorthBehind LARGE start result.len (take result.len text.now) result.value }
{
    let mut value = start;
    for (len, &byte) in text.iter().enumerate() {
        match byte {
            b'0'..=b'9' => value = with_digit(value, byte - b'0'),
            _ => return DigitRun { value, len },
        }
    }
    DigitRun {
        value,
        len: text.len(),
    }
}

/// Reads the digits at the front of the text, which stand behind digits worth `start`.
fn digit_run(text: &[u8], start: u128) -> DigitRun
    ensures len { result.len ≡ prefix_len is_digit text.now }
    ensures value { IsWorthBehind LARGE start result.len (take result.len text.now) result.value }
{
    if text.len() <= SHORT_LEN && start < SHORT_START as u128 {
        let run = short_run(text, start as u64);
        return DigitRun {
            value: u128::from(run.value),
            len: run.len,
        };
    }
    long_run(text, start)
}

/// Reads the digits at the front of a text of more than one part. It stands apart, so that what reads
/// the many texts of one part stays small.
#[inline(never)]
fn wide_run(text: &[u8]) -> DigitRun
    requires { PART_LEN ≤ length text.now }
    ensures len { result.len ≡ prefix_len is_digit text.now }
    ensures value { IsWorthBehind LARGE 0 result.len (take result.len text.now) result.value }
{
    if text.len() <= 2 * PART_LEN {
        if let Some(value) = two_parts(text) {
            return DigitRun {
                value,
                len: text.len(),
            };
        }
    }
    long_run(text, 0)
}

/// Reads the digits at the front of the text, which stand behind no other digits.
#[inline(always)]
fn front_run(text: &[u8]) -> DigitRun
    ensures len { result.len ≡ prefix_len is_digit text.now }
    ensures value { IsWorthBehind LARGE 0 result.len (take result.len text.now) result.value }
{
    if text.len() > PART_LEN {
        return wide_run(text);
    }
    let run = short_run(text, 0);
    DigitRun {
        value: u128::from(run.value),
        len: run.len,
    }
}

/// A decimal without its dot.
#[derive(Drop)]
struct Numeral {
    /// What its digits are worth, or at least `LARGE` where that is.
    digits: u128,
    /// How many of them stand behind the dot.
    places: usize,
}

/// What stands behind the digits at the front, which are worth `whole`: nothing, or a dot with
/// digits behind it.
fn with_places(whole: u128, rest: &[u8]) -> Option<Numeral>
    requires { prefix_len is_digit rest.now ≡ 0 }
    ensures form { is_some result ≡ is_decimal_rest rest.now }
    ensures places { IfSome result (λ numeral. numeral.places ≡ places_of rest.now) }
    ensures digits { IfSome result (λ numeral.
        IsWorthBehind LARGE whole numeral.places (filter is_digit rest.now) numeral.digits) }
{
    match rest {
        [] => Some(Numeral {
            digits: whole,
            places: 0,
        }),
        [b'.', behind @ ..] => {
            let run = digit_run(behind, whole);
            if run.len == 0 || run.len < behind.len() {
                return None;
            }
            Some(Numeral {
                digits: run.value,
                places: run.len,
            })
        }
        _ => None,
    }
}

/// Takes a decimal apart: digits, and then at most once a dot with digits behind it.
fn without_dot(text: &[u8]) -> Option<Numeral>
    ensures form { is_some result ≡ is_decimal text.now }
    ensures places { IfSome result (λ numeral. numeral.places ≡ places_of text.now) }
    ensures digits { IfSome result (λ numeral. IsWorth LARGE numeral.digits (digits_worth (filter is_digit text.now))) }
{
    let whole = front_run(text);
    if whole.len == 0 {
        return None;
    }
    with_places(whole.value, &text[whole.len..])
}

/// The digits with zeros behind them, where that is at most `max`.
fn scaled(digits: u128, zeros: u32, max: u64) -> Option<u64>
    requires { zeros ≤ 8 }
    ensures { let value = digits * 10 ^ zeros in result ≡ (if nat_le value max then Some value else None) }
{
    let limit = max as u128;
    if digits > limit {
        return None;
    }
    let value = u128::from(digits as u64) * u128::from(10u64.pow(zeros));
    if value > limit {
        None
    } else {
        Some(value as u64)
    }
}

/// Reads a short decimal that has all its places, as nearly every price does: it needs no scaling.
#[inline(always)]
fn with_all_places(text: &[u8], places: usize) -> Option<u64>
    requires { places ≤ 8 }
    ensures { IfSome result (λ value. (max : ℕ) → value ≤ max → decimal_of text.now places max ≡ Ok value) }
{
    if places == 0 || text.len() > SHORT_LEN || text.len() < places + 2 {
        return None;
    }
    let point = text.len() - places - 1;
    if text[point] != b'.' {
        return None;
    }
    let whole = digits_alone(&text[..point], 0)?;
    digits_alone(&text[point + 1..], whole)
}

/// Reads any decimal, as [`read_decimal`] does.
#[inline(never)]
fn any_decimal(text: &[u8], places: u32, max: u64) -> Result<u64, DecimalFault>
    requires { places ≤ 8 }
    ensures answer { result ≡ decimal_of text.now places max }
    ensures within { IfOk result (λ value. value ≤ max) }
{
    if text.is_empty() {
        return Err(DecimalFault::Empty);
    }
    let Some(numeral) = without_dot(text) else {
        return Err(DecimalFault::NotDigit);
    };
    if numeral.places > places as usize {
        return Err(DecimalFault::Places);
    }
    let left_out = places - numeral.places as u32;
    scaled(numeral.digits, left_out, max).ok_or(DecimalFault::TooLarge)
}

/// Reads a decimal, as its value times `10^places`.
///
/// A decimal is one digit or more, and then at most once a dot followed by one to `places` digits.
/// Leading zeros are allowed. The answer is at most `max`.
///
/// # Errors
///
/// The first that holds of: `Empty`, there is no byte; `NotDigit`, a byte is no digit, other than a
/// single dot with a digit on each side; `Places`, more than `places` digits stand behind the dot;
/// `TooLarge`, the answer would be above `max`.
#[inline(always)]
pub fn read_decimal(text: &[u8], places: u32, max: u64) -> Result<u64, DecimalFault>
    requires { places ≤ 8 }
    ensures answer { result ≡ decimal_of text.now places max }
    ensures within { IfOk result (λ value. value ≤ max) }
{
    if let Some(value) = with_all_places(text, places as usize) {
        if value <= max {
            return Ok(value);
        }
    }
    any_decimal(text, places, max)
}

/// Reads a decimal that may have a minus sign, as its value times `10^places`.
///
/// Behind the sign, if there is one, stands a decimal as [`read_decimal`] takes it; `-0` is lawful. The
/// answer is from `-below` to `above`, and `None` where the text is no decimal or its value lies
/// outside.
pub fn read_signed(text: &[u8], places: u32, below: u32, above: u32) -> Option<i64>
    requires { places ≤ 8 }
    ensures answer { result ≡ signed_decimal_of text.now places below above }
    ensures within { IfSome result (λ value. (neg_ℤ (pos below) ≤ℤ value) × (value ≤ℤ pos above)) }
{
    if !text.is_empty() && text[0] == b'-' {
        let value = read_decimal(&text[1..], places, u64::from(below)).ok()?;
        return Some(-(value as i64));
    }
    let value = read_decimal(text, places, u64::from(above)).ok()?;
    Some(value as i64)
}

/// Reads digits as a whole number below `2^bits`.
fn magnitude(digits: &[u8], bits: u32) -> Result<u128, DecimalFault>
    requires { bits ≤ 126 }
    ensures answer { result ≡ magnitude_of digits.now bits }
    ensures within { IfOk result (λ value. value < 2 ^ bits) }
{
    if digits.is_empty() {
        return Err(DecimalFault::Empty);
    }
    let run = front_run(digits);
    if run.len < digits.len() {
        return Err(DecimalFault::NotDigit);
    }
    if run.value >= 1 << bits {
        return Err(DecimalFault::TooLarge);
    }
    Ok(run.value)
}

/// Reads a whole number that may have a minus sign, of an absolute value below `2^bits`.
///
/// Leading zeros and `-0` are lawful.
///
/// # Errors
///
/// The first that holds of: `Empty`, there is no byte, or only the minus sign; `NotDigit`, any other
/// byte is no digit, a dot among them; `TooLarge`, the absolute value is `2^bits` or more. `Places`
/// never comes.
pub fn read_wide(text: &[u8], bits: u32) -> Result<i128, DecimalFault>
    requires least { 1 ≤ bits }
    requires most { bits ≤ 126 }
    ensures answer { result ≡ wide_of text.now bits }
    ensures within { IfOk result (λ value. nat_abs value < 2 ^ bits) }
{
    match text {
        [] => Err(DecimalFault::Empty),
        [b'-', digits @ ..] => match magnitude(digits, bits) {
            Ok(value) => Ok(-(value as i128)),
            Err(fault) => Err(fault),
        },
        _ => match magnitude(text, bits) {
            Ok(value) => Ok(value as i128),
            Err(fault) => Err(fault),
        },
    }
}
