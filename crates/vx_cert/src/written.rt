//! Reading a line as it is written: with its keys in byte order and no space, with no tree of values.

ghost use Rattle.std.specs.Prelude.{◌≤◌, IfOk, IfSome, Ok};
ghost use Rattle.vx_cert.specs.declared.limits.TheConstants.{CENTS_MAX, INDEX_END_BITS};
ghost use Rattle.vx_cert.specs.Ranges.{IsBelowPower, IsCertificateInRange, IsFigureInRange, IsTermInRange};
ghost use Rattle.vx_cert.specs.Reading.{ReadsAs};

use crate::certificate::{CertBody, CertFigure, CertTerm, Certificate};
use crate::limits::{CENTS_MAX, DAYS_MAX, LINE_MAX, ROWS_MAX, VERSION_MAX, VERSION_MIN};
use crate::tokens::Unread;
use crate::{tokens, write};
use json::{Reader, Scratch};
use std::alloc::Global;
use vx_clock::Expiry;
use vx_clock::limits::{MINUTES_MAX, MINUTES_MIN, RATE_MAX, RATE_MIN};
use vx_num::NoMemory;

/// The fewest bytes that most rows take, by which the rows of a line are given their room.
const ROW_LEN: usize = 48;

/// The certificate of a line that is just what is written of that certificate, and `None` for any
/// other line.
pub fn read_written(alloc: Global, line: &[u8]) -> Result<Option<Certificate>, NoMemory>
    ensures reads { IfOk result (λ found. IfSome found (λ c. ReadsAs line.now (Ok c))) }
    ensures in_range { IfOk result (λ found. IfSome found IsCertificateInRange) }
{
    let Some(c) = in_order(alloc, line)? else {
        return Ok(None);
    };
    let text = write::text_of(alloc, &c)?;
    if text.as_slice() == line {
        Ok(Some(c))
    } else {
        Ok(None)
    }
}

/// The certificate that the tokens of a line say in the order in which they are written.
fn in_order(alloc: Global, line: &[u8]) -> Result<Option<Certificate>, NoMemory>
    ensures { IfOk result (λ found. IfSome found IsCertificateInRange) }
{
    let Ok(text) = str::from_utf8(line) else {
        return Ok(None);
    };
    let room = (line.len() / ROW_LEN).min(ROWS_MAX);
    let mut scratch = Scratch::new(alloc);
    let mut reader = Reader::new(text, &mut scratch)?;
    match certificate(alloc, &mut reader, room) {
        Ok(c) => Ok(Some(c)),
        Err(Unread::Unlike) => Ok(None),
        Err(Unread::NoMemory) => Err(NoMemory),
    }
}

fn certificate(alloc: Global, reader: &mut Reader<'_>, room: usize) -> Result<Certificate, Unread>
    ensures { IfOk result IsCertificateInRange }
{
    tokens::begin_object(reader)?;
    if tokens::first_of_keys(reader, "date", "cents")? {
        return level(reader);
    }
    let cents = tokens::whole(reader, 0, CENTS_MAX)?;
    if tokens::first_of_keys(reader, "days", "ends")? {
        index(alloc, reader, room, cents)
    } else {
        one_term(alloc, reader, room, cents)
    }
}

/// A certificate of kind `k0`, from the value of its first key on.
fn level(reader: &mut Reader<'_>) -> Result<Certificate, Unread>
    ensures { IfOk result IsCertificateInRange }
{
    let date = tokens::date(reader)?;
    tokens::key(reader, "k0")?;
    let k0 = tokens::word(reader)?;
    tokens::key(reader, "kind")?;
    tokens::named(reader, "k0")?;
    tokens::key(reader, "line")?;
    let line = tokens::whole(reader, 1, LINE_MAX)?;
    tokens::key(reader, "pair")?;
    let pair = tokens::pair(reader)?;
    tokens::key(reader, "root")?;
    let root = tokens::root(reader)?;
    tokens::key(reader, "time")?;
    let time = tokens::time(reader)?;
    tokens::key(reader, "v")?;
    let v = tokens::whole_u32(reader, VERSION_MIN, VERSION_MAX)?;
    tokens::end_object(reader)?;
    let expiry = Expiry { root, date };
    Ok(Certificate {
        v,
        line,
        time,
        body: CertBody::K0 { expiry, pair, k0 },
    })
}

/// A certificate of kind `single` or `soq`, from the value of its second key on.
fn one_term(
    alloc: Global,
    reader: &mut Reader<'_>,
    room: usize,
    cents: u64,
) -> Result<Certificate, Unread>
    requires { cents ≤ CENTS_MAX }
    ensures { IfOk result IsCertificateInRange }
{
    let ends = tokens::index_ends(reader)?;
    tokens::key(reader, "kind")?;
    let is_single = tokens::first_of_names(reader, "single", "soq")?;
    tokens::key(reader, "line")?;
    let line = tokens::whole(reader, 1, LINE_MAX)?;
    tokens::key(reader, "term")?;
    let term = term(alloc, reader, room)?;
    tokens::key(reader, "time")?;
    let time = tokens::time(reader)?;
    tokens::key(reader, "v")?;
    let v = tokens::whole_u32(reader, VERSION_MIN, VERSION_MAX)?;
    let figure = figure(reader, ends, cents)?;
    tokens::end_object(reader)?;
    let body = if is_single {
        CertBody::Single { term, figure }
    } else {
        CertBody::Soq { term, figure }
    };
    Ok(Certificate {
        v,
        line,
        time,
        body,
    })
}

/// A certificate of kind `index`, from the value of its second key on.
fn index(
    alloc: Global,
    reader: &mut Reader<'_>,
    room: usize,
    cents: u64,
) -> Result<Certificate, Unread>
    requires { cents ≤ CENTS_MAX }
    ensures { IfOk result IsCertificateInRange }
{
    let days = tokens::whole_u32(reader, 0, DAYS_MAX)?;
    tokens::key(reader, "ends")?;
    let ends = tokens::index_ends(reader)?;
    tokens::key(reader, "kind")?;
    tokens::named(reader, "index")?;
    tokens::key(reader, "line")?;
    let line = tokens::whole(reader, 1, LINE_MAX)?;
    tokens::key(reader, "near")?;
    let near = term(alloc, reader, room)?;
    tokens::key(reader, "next")?;
    let next = term(alloc, reader, room)?;
    tokens::key(reader, "time")?;
    let time = tokens::time(reader)?;
    tokens::key(reader, "v")?;
    let v = tokens::whole_u32(reader, VERSION_MIN, VERSION_MAX)?;
    let figure = figure(reader, ends, cents)?;
    tokens::end_object(reader)?;
    Ok(Certificate {
        v,
        line,
        time,
        body: CertBody::Index {
            days,
            near,
            next,
            figure,
        },
    })
}

/// The figure, from its last key on.
fn figure(reader: &mut Reader<'_>, ends: (i64, i64), cents: u64) -> Result<CertFigure, Unread>
    requires low { IsBelowPower INDEX_END_BITS ends.0 }
    requires high { IsBelowPower INDEX_END_BITS ends.1 }
    requires most { cents ≤ CENTS_MAX }
    ensures { IfOk result IsFigureInRange }
{
    tokens::key(reader, "x")?;
    let x = tokens::ends(reader)?;
    let (lo, hi) = ends;
    Ok(CertFigure { x, lo, hi, cents })
}

/// One term's part of a certificate.
fn term(alloc: Global, reader: &mut Reader<'_>, room: usize) -> Result<CertTerm, Unread>
    ensures { IfOk result IsTermInRange }
{
    tokens::begin_object(reader)?;
    tokens::key(reader, "date")?;
    let date = tokens::date(reader)?;
    tokens::key(reader, "e")?;
    let e = tokens::ends(reader)?;
    tokens::key(reader, "exp")?;
    let (t_lo, t_hi) = tokens::taylor(reader)?;
    tokens::key(reader, "f")?;
    let f = tokens::ends(reader)?;
    tokens::key(reader, "g")?;
    let g = tokens::ends(reader)?;
    tokens::key(reader, "k0")?;
    let k0 = tokens::word(reader)?;
    tokens::key(reader, "minutes")?;
    let minutes = tokens::whole_u32(reader, MINUTES_MIN, MINUTES_MAX)?;
    tokens::key(reader, "pair")?;
    let pair = tokens::pair(reader)?;
    tokens::key(reader, "rate")?;
    let rate = tokens::signed(reader, RATE_MIN, RATE_MAX)?;
    tokens::key(reader, "root")?;
    let root = tokens::root(reader)?;
    tokens::key(reader, "rows")?;
    let rows = tokens::rows(alloc, reader, room)?;
    tokens::key(reader, "s")?;
    let s = tokens::ends(reader)?;
    tokens::key(reader, "w")?;
    let w = tokens::ends(reader)?;
    tokens::end_object(reader)?;
    let expiry = Expiry { root, date };
    Ok(CertTerm {
        expiry,
        minutes,
        rate,
        t_lo,
        t_hi,
        e,
        pair,
        f,
        k0,
        g,
        rows,
        s,
        w,
    })
}
