//! The fields of a certificate, read from the tokens of its line in the order in which they are
//! written. Each reading gives what the next tokens say, in its range, or refuses them.

ghost use Rattle.std.specs.Prelude.{◌≡◌, ◌≤◌, ◌≤ℤ◌, IfOk, length};
ghost use Rattle.vx_clock.specs.declared.limits.TheConstants.{MINUTE_MAX};
ghost use Rattle.vx_clock.specs.Day.{IsDayInRange};
ghost use Rattle.vx_cert.specs.declared.limits.TheConstants.{END_BITS, INDEX_END_BITS, ROWS_MAX};
ghost use Rattle.vx_cert.specs.Ranges.{AreEndsInRange, IsBelowPower};

use crate::certificate::{Ends, Pair};
use crate::form::TaylorTerms;
use crate::limits::{END_BITS, ROWS_MAX, TAYLOR_TERMS};
use crate::rows::{CertRow, CertRows};
use json::{Reader, Token};
use std::alloc::Global;
use vx_clock::{DayNo, Root, read_clock, read_day};
use vx_num::{NoMemory, read_decimal, read_signed, read_wide};

/// Why tokens are not read.
#[derive(Clone, Copy)]
pub enum Unread {
    NoMemory,
    /// They are not those of a certificate, or not in the order in which they are written.
    Unlike,
}

impl From<NoMemory> for Unread {
    fn from(_refused: NoMemory) -> Unread {
        Unread::NoMemory
    }
}

pub fn begin_object(tokens: &mut Reader<'_>) -> Result<(), Unread> {
    match tokens.next() {
        Some(Token::BeginObject) => Ok(()),
        _ => Err(Unread::Unlike),
    }
}

pub fn end_object(tokens: &mut Reader<'_>) -> Result<(), Unread> {
    match tokens.next() {
        Some(Token::EndObject) => Ok(()),
        _ => Err(Unread::Unlike),
    }
}

fn begin_list(tokens: &mut Reader<'_>) -> Result<(), Unread> {
    match tokens.next() {
        Some(Token::BeginArray) => Ok(()),
        _ => Err(Unread::Unlike),
    }
}

fn end_list(tokens: &mut Reader<'_>) -> Result<(), Unread> {
    match tokens.next() {
        Some(Token::EndArray) => Ok(()),
        _ => Err(Unread::Unlike),
    }
}

/// The key `name`.
pub fn key(tokens: &mut Reader<'_>, name: &str) -> Result<(), Unread> {
    match tokens.next() {
        Some(Token::Key(key)) if key == name => Ok(()),
        _ => Err(Unread::Unlike),
    }
}

/// One of two keys: whether it is the first of them.
pub fn first_of_keys(tokens: &mut Reader<'_>, first: &str, second: &str) -> Result<bool, Unread> {
    match tokens.next() {
        Some(Token::Key(key)) if key == first => Ok(true),
        Some(Token::Key(key)) if key == second => Ok(false),
        _ => Err(Unread::Unlike),
    }
}

/// The text `name`.
pub fn named(tokens: &mut Reader<'_>, name: &str) -> Result<(), Unread> {
    match tokens.next() {
        Some(Token::String(text)) if text == name => Ok(()),
        _ => Err(Unread::Unlike),
    }
}

/// One of two texts: whether it is the first of them.
pub fn first_of_names(tokens: &mut Reader<'_>, first: &str, second: &str) -> Result<bool, Unread> {
    match tokens.next() {
        Some(Token::String(text)) if text == first => Ok(true),
        Some(Token::String(text)) if text == second => Ok(false),
        _ => Err(Unread::Unlike),
    }
}

/// A JSON whole number from `low` to `high`.
pub fn whole(tokens: &mut Reader<'_>, low: u64, high: u64) -> Result<u64, Unread>
    ensures { IfOk result (λ value. (low ≤ value) × (value ≤ high)) }
{
    let Some(Token::Number(text)) = tokens.next() else {
        return Err(Unread::Unlike);
    };
    match read_decimal(text.as_bytes(), 0, high) {
        Ok(value) if low <= value => Ok(value),
        _ => Err(Unread::Unlike),
    }
}

/// The same of 32 bits.
pub fn whole_u32(tokens: &mut Reader<'_>, low: u32, high: u32) -> Result<u32, Unread>
    ensures { IfOk result (λ value. (low ≤ value) × (value ≤ high)) }
{
    let value = whole(tokens, u64::from(low), u64::from(high))?;
    Ok(value as u32)
}

/// A JSON whole number of 32 bits.
pub fn word(tokens: &mut Reader<'_>) -> Result<u32, Unread> {
    whole_u32(tokens, 0, u32::MAX)
}

/// A JSON whole number from `low` to `high`, with a sign.
pub fn signed(tokens: &mut Reader<'_>, low: i32, high: i32) -> Result<i32, Unread>
    ensures { IfOk result (λ value. (low ≤ℤ value) × (value ≤ℤ high)) }
{
    let Some(Token::Number(text)) = tokens.next() else {
        return Err(Unread::Unlike);
    };
    match read_signed(text.as_bytes(), 0, u32::MAX, u32::MAX) {
        Some(value) if i64::from(low) <= value && value <= i64::from(high) => Ok(value as i32),
        _ => Err(Unread::Unlike),
    }
}

/// `SPX` or `SPXW`.
pub fn root(tokens: &mut Reader<'_>) -> Result<Root, Unread> {
    let Some(Token::String(text)) = tokens.next() else {
        return Err(Unread::Unlike);
    };
    Root::named(text.as_bytes()).ok_or(Unread::Unlike)
}

/// A day `yyyy-mm-dd` of the years 2000 to 2099.
pub fn date(tokens: &mut Reader<'_>) -> Result<DayNo, Unread>
    ensures { IfOk result IsDayInRange }
{
    let Some(Token::String(text)) = tokens.next() else {
        return Err(Unread::Unlike);
    };
    match read_day(text.as_bytes()) {
        Ok(day) => Ok(day),
        Err(_) => Err(Unread::Unlike),
    }
}

/// The minute of the day that a time `hh:mm` names.
pub fn time(tokens: &mut Reader<'_>) -> Result<u16, Unread>
    ensures { IfOk result (λ minute. minute ≤ MINUTE_MAX) }
{
    let Some(Token::String(text)) = tokens.next() else {
        return Err(Unread::Unlike);
    };
    match read_clock(text.as_bytes()) {
        Some(minute) => Ok(minute),
        None => Err(Unread::Unlike),
    }
}

/// A wide number, below `2^126` in absolute value.
fn wide(tokens: &mut Reader<'_>) -> Result<i128, Unread>
    ensures { IfOk result (IsBelowPower END_BITS) }
{
    let Some(Token::String(text)) = tokens.next() else {
        return Err(Unread::Unlike);
    };
    match read_wide(text.as_bytes(), END_BITS) {
        Ok(number) => Ok(number),
        Err(_) => Err(Unread::Unlike),
    }
}

/// A wide number from 0 to `2^64 - 1`.
fn part(tokens: &mut Reader<'_>) -> Result<u64, Unread> {
    let Some(Token::String(text)) = tokens.next() else {
        return Err(Unread::Unlike);
    };
    match read_decimal(text.as_bytes(), 0, u64::MAX) {
        Ok(number) => Ok(number),
        Err(_) => Err(Unread::Unlike),
    }
}

/// A wide number below `2^63` in absolute value.
fn index_end(tokens: &mut Reader<'_>) -> Result<i64, Unread>
    ensures { IfOk result (IsBelowPower INDEX_END_BITS) }
{
    let number = wide(tokens)?;
    if i128::from(i64::MIN) < number && number <= i128::from(i64::MAX) {
        Ok(number as i64)
    } else {
        Err(Unread::Unlike)
    }
}

/// Two wide numbers.
pub fn ends(tokens: &mut Reader<'_>) -> Result<Ends, Unread>
    ensures { IfOk result AreEndsInRange }
{
    begin_list(tokens)?;
    let lo = wide(tokens)?;
    let hi = wide(tokens)?;
    end_list(tokens)?;
    Ok(Ends { lo, hi })
}

/// The two ends of an index.
pub fn index_ends(tokens: &mut Reader<'_>) -> Result<(i64, i64), Unread>
    ensures low { IfOk result (λ ends. IsBelowPower INDEX_END_BITS ends.0) }
    ensures high { IfOk result (λ ends. IsBelowPower INDEX_END_BITS ends.1) }
{
    begin_list(tokens)?;
    let lo = index_end(tokens)?;
    let hi = index_end(tokens)?;
    end_list(tokens)?;
    Ok((lo, hi))
}

/// A strike and a difference of half prices.
pub fn pair(tokens: &mut Reader<'_>) -> Result<Pair, Unread> {
    begin_list(tokens)?;
    let strike = word(tokens)?;
    let d = signed(tokens, i32::MIN, i32::MAX)?;
    end_list(tokens)?;
    Ok(Pair { strike, d })
}

/// Two lists of 14 Taylor terms.
pub fn taylor(tokens: &mut Reader<'_>) -> Result<(TaylorTerms, TaylorTerms), Unread> {
    begin_list(tokens)?;
    let low = taylor_terms(tokens)?;
    let high = taylor_terms(tokens)?;
    end_list(tokens)?;
    Ok((low, high))
}

fn taylor_terms(tokens: &mut Reader<'_>) -> Result<TaylorTerms, Unread> {
    begin_list(tokens)?;
    let mut terms = [0; TAYLOR_TERMS];
    for term in &mut terms {
        *term = part(tokens)?;
    }
    end_list(tokens)?;
    Ok(terms)
}

/// A row: strike, doubled width, price and two ends.
fn row(tokens: &mut Reader<'_>) -> Result<CertRow, Unread> {
    begin_list(tokens)?;
    let strike = word(tokens)?;
    let d = word(tokens)?;
    let q4 = word(tokens)?;
    let lo = part(tokens)?;
    let hi = part(tokens)?;
    end_list(tokens)?;
    Ok(CertRow {
        strike,
        d,
        q4,
        lo,
        hi,
    })
}

/// 1 to 2,000 rows, of which about `room` are awaited.
pub fn rows(alloc: Global, tokens: &mut Reader<'_>, room: usize) -> Result<CertRows, Unread>
    ensures some { IfOk result (λ rows. 1 ≤ length rows) }
    ensures most { IfOk result (λ rows. length rows ≤ ROWS_MAX) }
{
    begin_list(tokens)?;
    let mut rows = CertRows::with_capacity(alloc, room)?;
    for _ in 0..ROWS_MAX {
        let row = row(tokens)?;
        rows.push(row)?;
        if tokens.take_end_array() {
            return Ok(rows);
        }
    }
    Err(Unread::Unlike)
}
