//! Writing a certificate as a line of JSON: it sends its fields to `serde`, each key in its order, and
//! `serde_json` makes the line of them, with no tree of values between.

ghost use Rattle.std.specs.Prelude.{◌≡◌, ◌≤◌, [], ◌∷◌, ◌++◌, IfOk, length, Ok, OnErr, OnOk};
ghost use Rattle.std.specs.List.{All};
ghost use Rattle.serde_json.specs.Events.{SendsValue};
ghost use Rattle.vx_cert.specs.declared.certificate.CertBody.TheVariants.{K0};
ghost use Rattle.vx_cert.specs.declared.limits.TheConstants.{WRITTEN_LEN_MAX};
ghost use Rattle.vx_cert.specs.Ranges.{IsCertificateInRange, IsExpiryInRange, IsTermInRange};
ghost use Rattle.vx_cert.specs.ReadBack.{IsReadBack, IsTermReadBack};
ghost use Rattle.vx_cert.specs.Reading.{IsValueOf, level_body, ReadsAs};
ghost use Rattle.vx_cert.specs.Sent.{SendsCertificate};
ghost use Rattle.vx_cert.specs.Written.{certificate_data, certificate_line, certificate_text, data_by_kind};
ghost use Rattle.vx_cert.specs.Written.{index_data, level_data, one_term_data, term_data};

use crate::certificate::{CertBody, CertFigure, CertTerm, Certificate, Pair};
use crate::send;
use serde::{Described, Serialize, Serializer};
use std::alloc::Global;
use vx_clock::Expiry;
use vx_num::NoMemory;

/// Appends the line of a certificate: one object of JSON with no space and its keys in byte order,
/// and LF. Without its LF the line is JSON, is read as the value that was written, and by
/// [`crate::read_cert`] as the very certificate; it has no byte below the space, so that LF stands at
/// its end alone, and at most [`crate::limits::WRITTEN_LEN_MAX`] bytes.
///
/// # Errors
///
/// `NoMemory`, and then `out` is unchanged.
pub fn write_cert(alloc: Global, c: &Certificate, out: &mut Vec<u8>) -> Result<(), NoMemory>
    requires { IsCertificateInRange c.now }
    ensures written { OnOk result (out.new.items ≡ out.old.items ++ certificate_text c.now) }
    ensures refused { OnErr result (out.new.items ≡ out.old.items) }
    ensures value { OnOk result (IsValueOf (certificate_line c.now) (certificate_data c.now)) }
    ensures read_back { OnOk result (ReadsAs (certificate_line c.now) (Ok c.now)) }
    ensures one_line { OnOk result (All (λ byte. 32 ≤ byte) (certificate_line c.now)) }
    ensures short { OnOk result (length (certificate_line c.now) ≤ WRITTEN_LEN_MAX) }
{
    let line = line_of(alloc, c)?;
    out.extend_from_slice(line.as_slice())?;
    Ok(())
}

/// The line of a certificate, with its LF.
fn line_of(alloc: Global, c: &Certificate) -> Result<Vec<u8>, NoMemory>
    requires { IsCertificateInRange c.now }
    ensures line { IfOk result (λ line. line.items ≡ certificate_text c.now) }
    ensures value { OnOk result (IsValueOf (certificate_line c.now) (certificate_data c.now)) }
    ensures read_back { OnOk result (IsReadBack c.now) }
{
    let text = text_of(alloc, c)?;
    ended(text)
}

/// The text of a certificate, as `serde_json` writes what the certificate sends. It tests that the text is
/// UTF-8; an error can only be want of memory, since each field is in its range.
pub(crate) fn text_of(alloc: Global, c: &Certificate) -> Result<Vec<u8>, NoMemory>
    requires { IsCertificateInRange c.now }
    ensures text { IfOk result (λ text. text.items ≡ certificate_line c.now) }
    ensures value { OnOk result (IsValueOf (certificate_line c.now) (certificate_data c.now)) }
    ensures read_back { OnOk result (IsReadBack c.now) }
{
    match serde_json::to_string(alloc, c) {
        Ok(text) => Ok(text.into_bytes()),
        Err(_) => Err(NoMemory),
    }
}

/// A text with LF behind it.
fn ended(text: Vec<u8>) -> Result<Vec<u8>, NoMemory>
    ensures { IfOk result (λ line. line.items ≡ text.items ++ 10 ∷ []) }
{
    let mut line = text;
    line.push(b'\n')?;
    Ok(line)
}

/// A certificate sends its value of JSON.
impl Described for Certificate {
    ghost writes = { λ c. SendsCertificate c };
}

impl Serialize for Certificate {
    fn serialize<S: Serializer>(&self, out: &mut S) -> Result<(), S::Error> {
        certificate(self, out)
    }
}

/// A certificate, by its kind.
fn certificate<S: Serializer>(c: &Certificate, out: &mut S) -> Result<(), S::Error>
    ensures sent { OnOk result (SendsValue (certificate_data c.now) (S.written out.old) (S.written out.new)) }
    ensures read_back { OnOk result (IsCertificateInRange c.now → IsReadBack c.now) }
{
    match &c.body {
        CertBody::K0 { expiry, pair, k0 } => level(c, *expiry, *pair, *k0, out),
        CertBody::Single { term, figure } => one_term("single", c, term, figure, out),
        CertBody::Index {
            days,
            near,
            next,
            figure,
        } => index(c, *days, near, next, figure, out),
        CertBody::Soq { term, figure } => one_term("soq", c, term, figure, out),
    }
}

/// A certificate of kind `k0`.
fn level<S: Serializer>(
    c: &Certificate,
    expiry: Expiry,
    pair: Pair,
    k0: u32,
    out: &mut S,
) -> Result<(), S::Error>
    ensures sent { OnOk result
        (SendsValue (level_data c.now expiry pair k0) (S.written out.old) (S.written out.new)) }
    ensures read_back { OnOk result (IsExpiryInRange expiry
        → level_body (level_data c.now expiry pair k0) ≡ Ok (K0 expiry pair k0)) }
{
    out.begin_map(Some(8))?;
    out.key("date")?;
    send::date(expiry.date, out)?;
    out.key("k0")?;
    send::word(k0, out)?;
    out.key("kind")?;
    out.str("k0")?;
    out.key("line")?;
    out.u64(c.line)?;
    out.key("pair")?;
    send::pair(pair, out)?;
    out.key("root")?;
    send::root(expiry.root, out)?;
    out.key("time")?;
    send::time(c.time, out)?;
    out.key("v")?;
    send::word(c.v, out)?;
    out.end_map()
}

/// A certificate of kind `single` or `soq`.
fn one_term<S: Serializer>(
    kind: &str,
    c: &Certificate,
    term: &CertTerm,
    figure: &CertFigure,
    out: &mut S,
) -> Result<(), S::Error>
    ensures sent { OnOk result
        (SendsValue (one_term_data kind.now c.now term.now figure.now) (S.written out.old) (S.written out.new)) }
    ensures read_back { OnOk result (IsTermInRange term.now → IsTermReadBack term.now) }
{
    out.begin_map(Some(8))?;
    out.key("cents")?;
    out.u64(figure.cents)?;
    out.key("ends")?;
    send::index_ends(figure, out)?;
    out.key("kind")?;
    out.str(kind)?;
    out.key("line")?;
    out.u64(c.line)?;
    out.key("term")?;
    send_term(term, out)?;
    out.key("time")?;
    send::time(c.time, out)?;
    out.key("v")?;
    send::word(c.v, out)?;
    out.key("x")?;
    send::ends(figure.x, out)?;
    out.end_map()
}

/// A certificate of kind `index`.
fn index<S: Serializer>(
    c: &Certificate,
    days: u32,
    near: &CertTerm,
    next: &CertTerm,
    figure: &CertFigure,
    out: &mut S,
) -> Result<(), S::Error>
    ensures sent { OnOk result
        (SendsValue (index_data c.now days near.now next.now figure.now) (S.written out.old) (S.written out.new)) }
    ensures near { OnOk result (IsTermInRange near.now → IsTermReadBack near.now) }
    ensures next { OnOk result (IsTermInRange next.now → IsTermReadBack next.now) }
{
    out.begin_map(Some(10))?;
    out.key("cents")?;
    out.u64(figure.cents)?;
    out.key("days")?;
    send::word(days, out)?;
    out.key("ends")?;
    send::index_ends(figure, out)?;
    out.key("kind")?;
    out.str("index")?;
    out.key("line")?;
    out.u64(c.line)?;
    out.key("near")?;
    send_term(near, out)?;
    out.key("next")?;
    send_term(next, out)?;
    out.key("time")?;
    send::time(c.time, out)?;
    out.key("v")?;
    send::word(c.v, out)?;
    out.key("x")?;
    send::ends(figure.x, out)?;
    out.end_map()
}

/// One term's part of a certificate.
fn send_term<S: Serializer>(term: &CertTerm, out: &mut S) -> Result<(), S::Error>
    ensures sent { OnOk result (SendsValue (term_data term.now) (S.written out.old) (S.written out.new)) }
    ensures read_back { OnOk result (IsTermInRange term.now → IsTermReadBack term.now) }
{
    out.begin_map(Some(13))?;
    out.key("date")?;
    send::date(term.expiry.date, out)?;
    out.key("e")?;
    send::ends(term.e, out)?;
    out.key("exp")?;
    send::taylor(&term.t_lo, &term.t_hi, out)?;
    out.key("f")?;
    send::ends(term.f, out)?;
    out.key("g")?;
    send::ends(term.g, out)?;
    out.key("k0")?;
    send::word(term.k0, out)?;
    out.key("minutes")?;
    send::word(term.minutes, out)?;
    out.key("pair")?;
    send::pair(term.pair, out)?;
    out.key("rate")?;
    send::rate(term, out)?;
    out.key("root")?;
    send::root(term.expiry.root, out)?;
    out.key("rows")?;
    send::rows(&term.rows, out)?;
    out.key("s")?;
    send::ends(term.s, out)?;
    out.key("w")?;
    send::ends(term.w, out)?;
    out.end_map()
}
