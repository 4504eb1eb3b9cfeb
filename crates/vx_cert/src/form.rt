//! What a value of JSON says where a certificate has a field. Each reading gives what is said there,
//! or None where the value has another form or lies out of range.

ghost use Rattle.std.specs.Prelude.{◌≡◌, option_map, option_and_then, map, length, string_bytes, IfOk};
ghost use Rattle.std.specs.BTreeMap.{keys};
ghost use Rattle.std.specs.List.{list_all};
ghost use Rattle.serde_json.specs.View.{view};
ghost use Rattle.vx_clock.specs.Day.{day_of_text};
ghost use Rattle.vx_cert.specs.declared.limits.TheConstants.{TAYLOR_TERMS};
ghost use Rattle.vx_cert.specs.Form.{whole_in, signed_in, root_in, date_in, time_in, list_in, pair_in, has_only, is_among, word_in, kind_in, wide_in, part_in, index_end_in, ends_in, index_ends_in, row_in, taylor_named, taylor_in, all_read, rows_in};

use crate::certificate::{Ends, Pair};
use crate::limits::{END_BITS, ROWS_MAX, TAYLOR_TERMS};
use crate::rows::{CertRow, CertRows};
use serde_json::{Map, Value};
use std::alloc::Global;
use vx_clock::{DayNo, Root, read_clock, read_day};
use vx_num::{NoMemory, read_wide};

/// The Taylor terms of an exponential on one side.
pub type TaylorTerms = [u64; TAYLOR_TERMS];

/// A JSON whole number from `low` to `high`.
pub fn whole(value: &Value, low: u64, high: u64) -> Option<u64>
    ensures { result ≡ whole_in low high (view value.now) }
{
    let number = value.as_u64()?;
    if low <= number && number <= high {
        Some(number)
    } else {
        None
    }
}

/// The same of 32 bits.
pub fn whole_u32(value: &Value, low: u32, high: u32) -> Option<u32>
    ensures { result ≡ whole_in low high (view value.now) }
{
    let number = value.as_u64()?;
    if u64::from(low) <= number && number <= u64::from(high) {
        Some(number as u32)
    } else {
        None
    }
}

/// A JSON whole number of 32 bits.
pub fn word(value: &Value) -> Option<u32>
    ensures { result ≡ word_in (view value.now) }
{
    let number = value.as_u64()?;
    if number <= u64::from(u32::MAX) {
        Some(number as u32)
    } else {
        None
    }
}

/// A JSON whole number from `low` to `high`, with a sign.
pub fn signed(value: &Value, low: i32, high: i32) -> Option<i32>
    ensures { result ≡ signed_in low high (view value.now) }
{
    let number = value.as_i64()?;
    if i64::from(low) <= number && number <= i64::from(high) {
        Some(number as i32)
    } else {
        None
    }
}

/// `SPX` or `SPXW`.
pub fn root(value: &Value) -> Option<Root>
    ensures { result ≡ root_in (view value.now) }
{
    let text = value.as_str()?;
    Root::named(text.as_bytes())
}

/// A day `yyyy-mm-dd` of the years 2000 to 2099.
pub fn date(value: &Value) -> Option<DayNo>
    ensures { result ≡ date_in (view value.now) }
{
    let text = value.as_str()?;
    read_day(text.as_bytes()).ok()
}

/// The minute of the day that a time `hh:mm` names.
pub fn time(value: &Value) -> Option<u16>
    ensures { result ≡ time_in (view value.now) }
{
    let text = value.as_str()?;
    read_clock(text.as_bytes())
}

/// The values of a list.
#[tactic(auto, using(crate::proofs::Values::list_of_items_of))]
pub fn list(value: &Value) -> Option<&[Value]>
    ensures { option_map (λ values. map view values.now) result ≡ list_in (view value.now) }
{
    let values = value.as_array()?;
    Some(values.as_slice())
}

/// A strike and a difference of half prices.
pub fn pair(value: &Value) -> Option<Pair>
    ensures { result ≡ pair_in (view value.now) }
{
    let [strike, d] = list(value)? else {
        return None;
    };
    Some(Pair {
        strike: word(strike)?,
        d: signed(d, i32::MIN, i32::MAX)?,
    })
}

/// A wide number, below `2^126` in absolute value.
pub fn wide(value: &Value) -> Option<i128>
    ensures { result ≡ wide_in (view value.now) }
{
    let text = value.as_str()?;
    read_wide(text.as_bytes(), END_BITS).ok()
}

/// A wide number from 0 to `2^64 - 1`.
pub fn part(value: &Value) -> Option<u64>
    ensures { result ≡ part_in (view value.now) }
{
    let number = wide(value)?;
    if 0 <= number && number <= i128::from(u64::MAX) {
        Some(number as u64)
    } else {
        None
    }
}

/// A wide number below `2^63` in absolute value.
fn index_end(value: &Value) -> Option<i64>
    ensures { result ≡ index_end_in (view value.now) }
{
    let number = wide(value)?;
    if i128::from(i64::MIN) < number && number <= i128::from(i64::MAX) {
        Some(number as i64)
    } else {
        None
    }
}

/// Two wide numbers.
pub fn ends(value: &Value) -> Option<Ends>
    ensures { result ≡ ends_in (view value.now) }
{
    let [lo, hi] = list(value)? else {
        return None;
    };
    Some(Ends {
        lo: wide(lo)?,
        hi: wide(hi)?,
    })
}

/// The two ends of an index.
pub fn index_ends(value: &Value) -> Option<(i64, i64)>
    ensures { result ≡ index_ends_in (view value.now) }
{
    let [lo, hi] = list(value)? else {
        return None;
    };
    Some((index_end(lo)?, index_end(hi)?))
}

/// A row: strike, doubled width, price and two ends.
fn row(value: &Value) -> Option<CertRow>
    ensures { result ≡ row_in (view value.now) }
{
    let [strike, d, q4, lo, hi] = list(value)? else {
        return None;
    };
    Some(CertRow {
        strike: word(strike)?,
        d: word(d)?,
        q4: word(q4)?,
        lo: part(lo)?,
        hi: part(hi)?,
    })
}

/// 14 Taylor terms.
fn taylor_terms(value: &Value) -> Option<TaylorTerms>
    ensures { result ≡ option_and_then taylor_named (list_in (view value.now)) }
{
    let values = list(value)?;
    if values.len() == TAYLOR_TERMS {
        all_parts(values)
    } else {
        None
    }
}

/// The Taylor terms that 14 values write, where each writes one.
fn all_parts(values: &[Value]) -> Option<TaylorTerms>
    requires { length values.now ≡ TAYLOR_TERMS }
    ensures { result ≡ all_read part_in (map view values.now) }
{
    let mut terms = [0; TAYLOR_TERMS];
    for i in 0..TAYLOR_TERMS {
        terms[i] = part(&values[i])?;
    }
    Some(terms)
}

/// Two lists of 14 Taylor terms.
pub fn taylor(value: &Value) -> Option<(TaylorTerms, TaylorTerms)>
    ensures { result ≡ taylor_in (view value.now) }
{
    let [low, high] = list(value)? else {
        return None;
    };
    Some((taylor_terms(low)?, taylor_terms(high)?))
}

/// The rows that values write, where each writes one.
fn all_rows(alloc: Global, values: &[Value]) -> Result<Option<CertRows>, NoMemory>
    ensures { IfOk result (λ rows. rows ≡ all_read row_in (map view values.now)) }
{
    let mut rows = CertRows::with_capacity(alloc, values.len())?;
    for value in values {
        match row(value) {
            Some(row) => rows.push(row)?,
            None => return Ok(None),
        }
    }
    Ok(Some(rows))
}

/// 1 to 2,000 rows.
pub fn rows(alloc: Global, value: &Value) -> Result<Option<CertRows>, NoMemory>
    ensures { IfOk result (λ rows. rows ≡ rows_in (view value.now)) }
{
    match list(value) {
        Some(values) if !values.is_empty() && values.len() <= ROWS_MAX => all_rows(alloc, values),
        _ => Ok(None),
    }
}

/// Whether an object has no key but these.
#[tactic(auto, using(crate::proofs::Values::list_all_keys))]
pub fn has_only(value: &Value, names: &[&str]) -> bool
    ensures { result ≡ has_only (map (λ name. name.now) names.now) (view value.now) }
{
    match value.as_object() {
        Some(members) => are_among(members, names),
        None => true,
    }
}

fn are_among(members: &Map<String, Value>, names: &[&str]) -> bool
    ensures { result ≡ list_all (λ key. is_among (map (λ name. name.now) names.now) (string_bytes key))
        (keys members.now) }
{
    members.keys().all(|key| is_among(key.as_str(), names))
}

#[tactic(auto, using(crate::proofs::Values::list_any_map))]
fn is_among(key: &str, names: &[&str]) -> bool
    ensures { result ≡ is_among (map (λ name. name.now) names.now) key.now }
{
    names.contains(&key)
}

/// The kinds of certificates.
#[derive(Clone, Copy)]
pub enum Kind {
    Level,
    Single,
    Index,
    Soq,
}

/// `k0`, `single`, `index` or `soq`.
pub fn named_kind(value: &Value) -> Option<Kind>
    ensures { result ≡ kind_in (view value.now) }
{
    match value.as_str()? {
        "k0" => Some(Kind::Level),
        "single" => Some(Kind::Single),
        "index" => Some(Kind::Index),
        "soq" => Some(Kind::Soq),
        _ => None,
    }
}
