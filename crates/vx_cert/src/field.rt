//! The fields of an object of JSON: what each says, or its number in the format where it is missing,
//! of another form or out of range.

ghost use Rattle.std.specs.Prelude.{◌≡◌, ◌≢◌, Err, option_and_then};
ghost use Rattle.std.specs.Result.{result_map_both};
ghost use Rattle.serde_json.specs.View.{view};
ghost use Rattle.vx_cert.specs.Form.{whole_in, signed_in, root_in, date_in, time_in, pair_in, word_in, kind_in, ends_in, index_ends_in, taylor_in, rows_in, object_in};
ghost use Rattle.vx_cert.specs.Reading.{field_in};

use crate::certificate::{Ends, Pair};
use crate::fault::CertFault;
use crate::form;
use crate::form::{Kind, TaylorTerms};
use crate::rows::CertRows;
use serde_json::Value;
use std::alloc::Global;
use vx_clock::{DayNo, Root};

pub fn root(object: &Value, key: &str, number: u32) -> Result<Root, CertFault>
    ensures { result ≡ field_in number key.now root_in (view object.now) }
{
    object
        .get(key)
        .and_then(form::root)
        .ok_or(CertFault::Field(number))
}

pub fn date(object: &Value, key: &str, number: u32) -> Result<DayNo, CertFault>
    ensures { result ≡ field_in number key.now date_in (view object.now) }
{
    object
        .get(key)
        .and_then(form::date)
        .ok_or(CertFault::Field(number))
}

pub fn time(object: &Value, key: &str, number: u32) -> Result<u16, CertFault>
    ensures { result ≡ field_in number key.now time_in (view object.now) }
{
    object
        .get(key)
        .and_then(form::time)
        .ok_or(CertFault::Field(number))
}

pub fn pair(object: &Value, key: &str, number: u32) -> Result<Pair, CertFault>
    ensures { result ≡ field_in number key.now pair_in (view object.now) }
{
    object
        .get(key)
        .and_then(form::pair)
        .ok_or(CertFault::Field(number))
}

pub fn word(object: &Value, key: &str, number: u32) -> Result<u32, CertFault>
    ensures { result ≡ field_in number key.now word_in (view object.now) }
{
    object
        .get(key)
        .and_then(form::word)
        .ok_or(CertFault::Field(number))
}

pub fn named_kind(object: &Value, key: &str, number: u32) -> Result<Kind, CertFault>
    ensures { result ≡ field_in number key.now kind_in (view object.now) }
{
    object
        .get(key)
        .and_then(form::named_kind)
        .ok_or(CertFault::Field(number))
}

pub fn whole(object: &Value, key: &str, number: u32, low: u64, high: u64) -> Result<u64, CertFault>
    ensures { result ≡ field_in number key.now (whole_in low high) (view object.now) }
{
    object
        .get(key)
        .and_then(|value| form::whole(value, low, high))
        .ok_or(CertFault::Field(number))
}

pub fn whole_u32(
    object: &Value,
    key: &str,
    number: u32,
    low: u32,
    high: u32,
) -> Result<u32, CertFault>
    ensures { result ≡ field_in number key.now (whole_in low high) (view object.now) }
{
    object
        .get(key)
        .and_then(|value| form::whole_u32(value, low, high))
        .ok_or(CertFault::Field(number))
}

pub fn signed(object: &Value, key: &str, number: u32, low: i32, high: i32) -> Result<i32, CertFault>
    ensures { result ≡ field_in number key.now (signed_in low high) (view object.now) }
{
    object
        .get(key)
        .and_then(|value| form::signed(value, low, high))
        .ok_or(CertFault::Field(number))
}

pub fn ends(object: &Value, key: &str, number: u32) -> Result<Ends, CertFault>
    ensures { result ≡ field_in number key.now ends_in (view object.now) }
{
    object
        .get(key)
        .and_then(form::ends)
        .ok_or(CertFault::Field(number))
}

pub fn index_ends(object: &Value, key: &str, number: u32) -> Result<(i64, i64), CertFault>
    ensures { result ≡ field_in number key.now index_ends_in (view object.now) }
{
    object
        .get(key)
        .and_then(form::index_ends)
        .ok_or(CertFault::Field(number))
}

pub fn taylor(
    object: &Value,
    key: &str,
    number: u32,
) -> Result<(TaylorTerms, TaylorTerms), CertFault>
    ensures { result ≡ field_in number key.now taylor_in (view object.now) }
{
    object
        .get(key)
        .and_then(form::taylor)
        .ok_or(CertFault::Field(number))
}

pub fn rows(alloc: Global, object: &Value, key: &str, number: u32) -> Result<CertRows, CertFault>
    ensures { result ≢ Err CertFault.NoMemory
        → result ≡ field_in number key.now rows_in (view object.now) }
{
    let Some(value) = object.get(key) else {
        return Err(CertFault::Field(number));
    };
    match form::rows(alloc, value) {
        Ok(rows) => rows.ok_or(CertFault::Field(number)),
        Err(_) => Err(CertFault::NoMemory),
    }
}

/// A value that is an object.
pub fn object<'v>(object: &'v Value, key: &str, number: u32) -> Result<&'v Value, CertFault>
    ensures { result_map_both (λ value. view value.now) (λ fault. fault) result
        ≡ field_in number key.now object_in (view object.now) }
{
    match object.get(key) {
        Some(value) if value.is_object() => Ok(value),
        _ => Err(CertFault::Field(number)),
    }
}
