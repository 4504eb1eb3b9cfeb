//! What the fields of a certificate send to `serde`.

ghost use Rattle.std.specs.Prelude.{◌≡◌, map, OnOk, option_and_then, pos, Some};
ghost use Rattle.serde_json.specs.Data.{number, string};
ghost use Rattle.serde_json.specs.Events.{SendsValue};
ghost use Rattle.serde_json.specs.Find.{of_integer};
ghost use Rattle.vx_clock.specs.Clock.{clock_text};
ghost use Rattle.vx_clock.specs.DayText.{day_text};
ghost use Rattle.vx_clock.specs.RootText.{bare_root_text};
ghost use Rattle.vx_cert.specs.Form.{all_read, list_in, pair_in, row_in, taylor_named, taylor_in, word_in};
ghost use Rattle.vx_cert.specs.Written.{ends_data, pair_data, row_data, rows_data, taylor_data, taylor_pair_data};
ghost use Rattle.vx_cert.specs.Written.{signed_number, two_wide, whole_number, wide_number};

use crate::certificate::{CertFigure, CertTerm, Ends, Pair};
use crate::form::TaylorTerms;
use crate::limits::TAYLOR_TERMS;
use crate::rows::{CertRow, CertRows};
use itoa::Buffer;
use serde::Serializer;
use vx_clock::limits::{DAY_MAX, DAY_MIN};
use vx_clock::{DayNo, Root, write_clock, write_day};

/// A text, of bytes that are UTF-8.
fn text<S: Serializer>(bytes: &[u8], out: &mut S) -> Result<(), S::Error>
    ensures { OnOk result (SendsValue (string bytes.now) (S.written out.old) (S.written out.new)) }
{
    match str::from_utf8(bytes) {
        Ok(text) => out.str(text),
        Err(_) => Err(out.custom("a text that is not UTF-8")),
    }
}

/// `SPX` or `SPXW`.
pub fn root<S: Serializer>(root: Root, out: &mut S) -> Result<(), S::Error>
    ensures { OnOk result (SendsValue (string (bare_root_text root)) (S.written out.old) (S.written out.new)) }
{
    out.str(root.name())
}

/// A day as `yyyy-mm-dd`.
pub fn date<S: Serializer>(day: DayNo, out: &mut S) -> Result<(), S::Error>
    ensures { OnOk result (SendsValue (string (day_text day)) (S.written out.old) (S.written out.new)) }
{
    if day.0 < DAY_MIN || DAY_MAX < day.0 {
        return Err(out.custom("a day out of range"));
    }
    text(&write_day(day), out)
}

/// A minute of the day as `hh:mm`.
pub fn time<S: Serializer>(minute: u16, out: &mut S) -> Result<(), S::Error>
    ensures { OnOk result (SendsValue (string (clock_text minute)) (S.written out.old) (S.written out.new)) }
{
    text(&write_clock(minute), out)
}

/// A wide number, as a text.
#[tactic(auto, using(crate::proofs::WrittenTexts::signed_decimal_is_wide_text))]
fn wide<S: Serializer>(number: i128, out: &mut S) -> Result<(), S::Error>
    ensures { OnOk result (SendsValue (wide_number number) (S.written out.old) (S.written out.new)) }
{
    let mut text = Buffer::new();
    out.str(text.format(number))
}

/// A wide number from 0 to `2^64 - 1`, as a text: most numbers of a certificate.
#[tactic(auto, using(crate::proofs::WrittenTexts::decimal_is_wide_text))]
fn part<S: Serializer>(number: u64, out: &mut S) -> Result<(), S::Error>
    ensures { OnOk result (SendsValue (wide_number (pos number)) (S.written out.old) (S.written out.new)) }
{
    let mut digits = Buffer::new();
    out.str(digits.format(number))
}

/// Two wide numbers.
fn two_wide<S: Serializer>(lo: i128, hi: i128, out: &mut S) -> Result<(), S::Error>
    ensures { OnOk result (SendsValue (two_wide lo hi) (S.written out.old) (S.written out.new)) }
{
    out.begin_seq(Some(2))?;
    wide(lo, out)?;
    wide(hi, out)?;
    out.end_seq()
}

/// The ends of an interval.
pub fn ends<S: Serializer>(ends: Ends, out: &mut S) -> Result<(), S::Error>
    ensures { OnOk result (SendsValue (ends_data ends) (S.written out.old) (S.written out.new)) }
{
    two_wide(ends.lo, ends.hi, out)
}

/// The ends of an index.
pub fn index_ends<S: Serializer>(figure: &CertFigure, out: &mut S) -> Result<(), S::Error>
    ensures { OnOk result
        (SendsValue (two_wide figure.now.lo figure.now.hi) (S.written out.old) (S.written out.new)) }
{
    two_wide(i128::from(figure.lo), i128::from(figure.hi), out)
}

/// A whole number of 32 bits.
pub fn word<S: Serializer>(number: u32, out: &mut S) -> Result<(), S::Error>
    ensures sent { OnOk result (SendsValue (whole_number number) (S.written out.old) (S.written out.new)) }
    ensures read_back { OnOk result (word_in (whole_number number) ≡ Some number) }
{
    out.u64(u64::from(number))
}

/// A whole number of 32 bits with its sign. JSON has one form for each: only a number below zero is
/// sent as a signed one.
fn signed<S: Serializer>(number: i32, out: &mut S) -> Result<(), S::Error>
    ensures { OnOk result (SendsValue (signed_number number) (S.written out.old) (S.written out.new)) }
{
    match u64::try_from(number) {
        Ok(whole) => out.u64(whole),
        Err(_) => out.i64(i64::from(number)),
    }
}

/// The rate of a term.
pub fn rate<S: Serializer>(term: &CertTerm, out: &mut S) -> Result<(), S::Error>
    ensures { OnOk result (SendsValue (signed_number term.now.rate) (S.written out.old) (S.written out.new)) }
{
    signed(term.rate, out)
}

/// A strike and a difference of half prices.
pub fn pair<S: Serializer>(pair: Pair, out: &mut S) -> Result<(), S::Error>
    ensures sent { OnOk result (SendsValue (pair_data pair) (S.written out.old) (S.written out.new)) }
    ensures read_back { OnOk result (pair_in (pair_data pair) ≡ Some pair) }
{
    out.begin_seq(Some(2))?;
    out.u64(u64::from(pair.strike))?;
    signed(pair.d, out)?;
    out.end_seq()
}

/// The Taylor terms of one side.
fn taylor_terms<S: Serializer>(terms: &TaylorTerms, out: &mut S) -> Result<(), S::Error>
    ensures sent { OnOk result (SendsValue (taylor_data terms.now) (S.written out.old) (S.written out.new)) }
    ensures read_back { OnOk result
        (option_and_then taylor_named (list_in (taylor_data terms.now)) ≡ Some terms.now) }
{
    out.begin_seq(Some(TAYLOR_TERMS))?;
    for term in terms {
        part(*term, out)?;
    }
    out.end_seq()
}

/// The Taylor terms of both sides.
pub fn taylor<S: Serializer>(
    low: &TaylorTerms,
    high: &TaylorTerms,
    out: &mut S,
) -> Result<(), S::Error>
    ensures sent { OnOk result
        (SendsValue (taylor_pair_data low.now high.now) (S.written out.old) (S.written out.new)) }
    ensures read_back { OnOk result (taylor_in (taylor_pair_data low.now high.now) ≡ Some (low.now, high.now)) }
{
    out.begin_seq(Some(2))?;
    taylor_terms(low, out)?;
    taylor_terms(high, out)?;
    out.end_seq()
}

/// A row: strike, doubled width, price and two ends.
fn row<S: Serializer>(row: CertRow, out: &mut S) -> Result<(), S::Error>
    ensures sent { OnOk result (SendsValue (row_data row) (S.written out.old) (S.written out.new)) }
    ensures read_back { OnOk result (row_in (row_data row) ≡ Some row) }
{
    out.begin_seq(Some(5))?;
    out.u64(u64::from(row.strike))?;
    out.u64(u64::from(row.d))?;
    out.u64(u64::from(row.q4))?;
    part(row.lo, out)?;
    part(row.hi, out)?;
    out.end_seq()
}

/// The rows of a strip.
pub fn rows<S: Serializer>(rows: &CertRows, out: &mut S) -> Result<(), S::Error>
    ensures sent { OnOk result (SendsValue (rows_data rows.now) (S.written out.old) (S.written out.new)) }
    ensures read_back { OnOk result (all_read row_in (map row_data rows.now) ≡ Some rows.now) }
{
    let items = rows.items();
    out.begin_seq(Some(items.len()))?;
    for item in items {
        row(*item, out)?;
    }
    out.end_seq()
}
