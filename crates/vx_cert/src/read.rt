//! Reading a certificate from a line of JSON.

ghost use Rattle.std.specs.Prelude.{◌≡◌, ◌≢◌, ◌<◌, Err, IfOk};
ghost use Rattle.serde_json.specs.View.{view};
ghost use Rattle.vx_cert.specs.Ranges.{IsCertificateInRange};
ghost use Rattle.vx_cert.specs.Reading.{level_body, term_fields, term_at, figure_from, one_term, index_body, body_of, certificate_of, ReadsAs};

use crate::certificate::{CertBody, CertFigure, CertTerm, Certificate};
use crate::fault::CertFault;
use crate::form::Kind;
use crate::limits::{CENTS_MAX, DAYS_MAX, LINE_MAX, VERSION_MAX, VERSION_MIN};
use crate::{field, form, written};
use serde_json::{Category, Value};
use std::alloc::Global;
use vx_clock::Expiry;
use vx_clock::limits::{MINUTES_MAX, MINUTES_MIN, RATE_MAX, RATE_MIN};

const LEVEL_NAMES: [&str; 8] = ["v", "kind", "line", "time", "root", "date", "pair", "k0"];

const ONE_TERM_NAMES: [&str; 8] = ["v", "kind", "line", "time", "term", "x", "ends", "cents"];

const INDEX_NAMES: [&str; 10] = [
    "v", "kind", "line", "time", "days", "near", "next", "x", "ends", "cents",
];

const TERM_NAMES: [&str; 13] = [
    "root", "date", "minutes", "rate", "exp", "e", "pair", "f", "k0", "g", "rows", "s", "w",
];

/// Reads a line of a certificate file, without its LF.
///
/// The line is one object of JSON. Answers `Syntax` where `serde_json` refuses the line, and else
/// `Field` with the number of the first field that is missing, of another form or out of range. So
/// each field of a certificate that is read is in its range, and [`crate::write_cert`] can write it.
///
/// A line that is the very text that [`crate::write_cert`] writes takes no tree of values. Any other
/// line, as one with spaces or with its keys in another order, is read by a tree, with the same result.
pub fn read_cert(alloc: Global, line: &[u8]) -> Result<Certificate, CertFault>
    ensures reads { ReadsAs line.now result }
    ensures in_range { IfOk result IsCertificateInRange }
{
    if let Some(c) = written::read_written(alloc, line)? {
        return Ok(c);
    }
    match Value::from_slice(alloc, line) {
        Ok(value) => certificate(alloc, &value),
        Err(error) => Err(if error.classify() == Category::Memory {
            CertFault::NoMemory
        } else {
            CertFault::Syntax
        }),
    }
}

fn certificate(alloc: Global, value: &Value) -> Result<Certificate, CertFault>
    ensures { result ≢ Err CertFault.NoMemory → result ≡ certificate_of (view value.now) }
{
    let v = field::whole_u32(value, "v", 1, VERSION_MIN, VERSION_MAX)?;
    let kind = field::named_kind(value, "kind", 2)?;
    let line = field::whole(value, "line", 3, 1, LINE_MAX)?;
    let time = field::time(value, "time", 4)?;
    let body = body(alloc, value, kind)?;
    Ok(Certificate {
        v,
        line,
        time,
        body,
    })
}

fn body(alloc: Global, value: &Value, kind: Kind) -> Result<CertBody, CertFault>
    ensures { result ≢ Err CertFault.NoMemory → result ≡ body_of kind (view value.now) }
{
    match kind {
        Kind::Level => level_body(value),
        Kind::Single => {
            let (term, figure) = one_term(alloc, value)?;
            Ok(CertBody::Single { term, figure })
        }
        Kind::Index => index_body(alloc, value),
        Kind::Soq => {
            let (term, figure) = one_term(alloc, value)?;
            Ok(CertBody::Soq { term, figure })
        }
    }
}

fn level_body(value: &Value) -> Result<CertBody, CertFault>
    ensures { result ≡ level_body (view value.now) }
{
    let root = field::root(value, "root", 5)?;
    let date = field::date(value, "date", 6)?;
    let pair = field::pair(value, "pair", 7)?;
    let k0 = field::word(value, "k0", 8)?;
    if !form::has_only(value, &LEVEL_NAMES) {
        return Err(CertFault::Field(0));
    }
    Ok(CertBody::K0 {
        expiry: Expiry { root, date },
        pair,
        k0,
    })
}

fn one_term(alloc: Global, value: &Value) -> Result<(CertTerm, CertFigure), CertFault>
    ensures { result ≢ Err CertFault.NoMemory → result ≡ one_term (view value.now) }
{
    let term = term(alloc, value, "term", 5)?;
    let figure = figure(value, 6)?;
    if !form::has_only(value, &ONE_TERM_NAMES) {
        return Err(CertFault::Field(0));
    }
    Ok((term, figure))
}

fn index_body(alloc: Global, value: &Value) -> Result<CertBody, CertFault>
    ensures { result ≢ Err CertFault.NoMemory → result ≡ index_body (view value.now) }
{
    let days = field::whole_u32(value, "days", 5, 0, DAYS_MAX)?;
    let near = term(alloc, value, "near", 6)?;
    let next = term(alloc, value, "next", 7)?;
    let figure = figure(value, 8)?;
    if !form::has_only(value, &INDEX_NAMES) {
        return Err(CertFault::Field(0));
    }
    Ok(CertBody::Index {
        days,
        near,
        next,
        figure,
    })
}

/// The figure at three fields from `number` on.
fn figure(value: &Value, number: u32) -> Result<CertFigure, CertFault>
    requires { number < 100 }
    ensures { result ≡ figure_from number (view value.now) }
{
    let x = field::ends(value, "x", number)?;
    let (lo, hi) = field::index_ends(value, "ends", number + 1)?;
    let cents = field::whole(value, "cents", number + 2, 0, CENTS_MAX)?;
    Ok(CertFigure { x, lo, hi, cents })
}

/// The term at a field: an object, and its fields.
fn term(alloc: Global, value: &Value, key: &str, number: u32) -> Result<CertTerm, CertFault>
    requires { number < 100 }
    ensures { result ≢ Err CertFault.NoMemory → result ≡ term_at number key.now (view value.now) }
{
    let object = field::object(value, key, number)?;
    term_fields(alloc, object, number)
}

fn term_fields(alloc: Global, value: &Value, number: u32) -> Result<CertTerm, CertFault>
    requires { number < 100 }
    ensures { result ≢ Err CertFault.NoMemory → result ≡ term_fields number (view value.now) }
{
    let first = 100 * number;
    let root = field::root(value, "root", first + 1)?;
    let date = field::date(value, "date", first + 2)?;
    let minutes = field::whole_u32(value, "minutes", first + 3, MINUTES_MIN, MINUTES_MAX)?;
    let rate = field::signed(value, "rate", first + 4, RATE_MIN, RATE_MAX)?;
    let (t_lo, t_hi) = field::taylor(value, "exp", first + 5)?;
    let e = field::ends(value, "e", first + 6)?;
    let pair = field::pair(value, "pair", first + 7)?;
    let f = field::ends(value, "f", first + 8)?;
    let k0 = field::word(value, "k0", first + 9)?;
    let g = field::ends(value, "g", first + 10)?;
    let rows = field::rows(alloc, value, "rows", first + 11)?;
    let s = field::ends(value, "s", first + 12)?;
    let w = field::ends(value, "w", first + 13)?;
    if !form::has_only(value, &TERM_NAMES) {
        return Err(CertFault::Field(first));
    }
    Ok(CertTerm {
        expiry: Expiry { root, date },
        minutes,
        rate,
        t_lo,
        t_hi,
        e,
        pair,
        f,
        k0,
        g,
        rows,
        s,
        w,
    })
}
