//! Reads the lines that `replay` prints.

ghost use Rattle.std.specs.Prelude.{◌≡◌, ℕ, ◌≤◌, IfOk, IfSome, map};
ghost use Rattle.std.specs.List.{list_all};
ghost use Rattle.vx_num.specs.Decimal.{is_digit, is_digits};
ghost use Rattle.vixplot.specs.Answers.{IsAnswerInRange, IsLineInRange};
ghost use Rattle.vixplot.specs.Lines as spec;

use crate::answer::{Answer, Counts, Line, Reason, Tick, Which};
use crate::limits::{DAYS_MAX, ENDS_PLACES, FORWARD_PLACES, STRIKE_PLACES};
use std::alloc::{AllocError, Global};
use vx_clock::read_clock;
use vx_num::limits::{CENTS_MAX, FEED_LINES_MAX};
use vx_num::read_decimal;

/// What a line says, or `None` where it is none that `replay` prints.
///
/// # Errors
///
/// Want of memory alone.
pub fn read_line(alloc: Global, text: &str) -> Result<Option<Line>, AllocError>
    ensures line { IfOk result (spec.SaysLine (spec.fields_of text.now)) }
    ensures range { IfOk result (λ line. IfSome line IsLineInRange) }
{
    let fields: Vec<&str> = text.split(',').collect(alloc)?;
    Ok(line_of(fields.as_slice()))
}

/// What the fields of a line say.
fn line_of(fields: &[&str]) -> Option<Line>
    ensures line { spec.SaysLine (map (λ field. field.now) fields.now) result }
    ensures range { IfSome result IsLineInRange }
{
    match *fields {
        ["FIG", time, days, figure, lo, hi] => {
            tick_line(time, days, figure_answer(figure, lo, hi))
        }
        ["UND", time, days, "cents", lo, hi] => tick_line(time, days, cents_answer(lo, hi)),
        ["UND", time, days, "forward", which, strike, lo, hi] => {
            tick_line(time, days, forward_answer(which, strike, lo, hi))
        }
        ["REF", time, days, reason, which] => {
            tick_line(time, days, refusal_answer(reason, which))
        }
        ["END", ticks, published, undecided, refused] => {
            end_line(ticks, published, undecided, refused)
        }
        _ => None,
    }
}

/// The tick of a time, the days ahead and an answer.
fn tick_line(time: &str, days: &str, answer: Option<Answer>) -> Option<Line>
    requires { IfSome answer IsAnswerInRange }
    ensures line { result ≡ spec.tick_line time.now days.now answer }
    ensures range { IfSome result IsLineInRange }
{
    let answer = answer?;
    if !is_days(days) {
        return None;
    }
    let minute = read_clock(time.as_bytes())?;
    Some(Line::Tick(Tick { minute, answer }))
}

/// A figure with its ends.
fn figure_answer(figure: &str, lo: &str, hi: &str) -> Option<Answer>
    ensures answer { result ≡ spec.figure_answer figure.now lo.now hi.now }
    ensures range { IfSome result IsAnswerInRange }
{
    if !are_ends(lo, hi, ENDS_PLACES) {
        return None;
    }
    Some(Answer::Figure(read_cents(figure)?))
}

/// The ends of an undecided figure.
fn cents_answer(lo: &str, hi: &str) -> Option<Answer>
    ensures answer { result ≡ spec.cents_answer lo.now hi.now }
    ensures range { IfSome result IsAnswerInRange }
{
    if are_ends(lo, hi, ENDS_PLACES) {
        Some(Answer::UndecidedCents)
    } else {
        None
    }
}

/// The term, the strike and the ends of an undecided forward.
fn forward_answer(which: &str, strike: &str, lo: &str, hi: &str) -> Option<Answer>
    ensures answer { result ≡ spec.forward_answer which.now strike.now lo.now hi.now }
    ensures range { IfSome result IsAnswerInRange }
{
    if !(is_number(strike, STRIKE_PLACES) && are_ends(lo, hi, FORWARD_PLACES)) {
        return None;
    }
    Some(Answer::UndecidedForward(read_which(which)?))
}

/// The reason and the term of a refusal.
fn refusal_answer(reason: &str, which: &str) -> Option<Answer>
    ensures answer { result ≡ spec.refusal_answer reason.now which.now }
    ensures range { IfSome result IsAnswerInRange }
{
    Some(Answer::Refused(read_reason(reason)?, read_which(which)?))
}

/// The counts at the end.
fn end_line(ticks: &str, published: &str, undecided: &str, refused: &str) -> Option<Line>
    ensures line { result ≡ spec.end_of (spec.count_of ticks.now) (spec.count_of published.now)
        (spec.count_of undecided.now) (spec.count_of refused.now) }
    ensures range { IfSome result IsLineInRange }
{
    Some(Line::End(Counts {
        ticks: read_count(ticks)?,
        published: read_count(published)?,
        undecided: read_count(undecided)?,
        refused: read_count(refused)?,
    }))
}

/// A figure in hundredths of a point, from a number of points with two places.
fn read_cents(text: &str) -> Option<u32>
    ensures value { result ≡ spec.cents_of_points text.now }
    ensures range { IfSome result (λ cents. cents ≤ CENTS_MAX) }
{
    if !is_number(text, 2) {
        return None;
    }
    let cents = read_decimal(text.as_bytes(), 2, CENTS_MAX).ok()?;
    Some(cents as u32)
}

fn read_count(text: &str) -> Option<u64>
    ensures { result ≡ spec.count_of text.now }
{
    read_decimal(text.as_bytes(), 0, u64::from(FEED_LINES_MAX)).ok()
}

fn is_days(text: &str) -> bool
    ensures { result ≡ spec.is_days text.now }
{
    read_decimal(text.as_bytes(), 0, DAYS_MAX).is_ok()
}

/// Whether both ends are numbers with so many places.
fn are_ends(lo: &str, hi: &str, places: usize) -> bool
    ensures { result ≡ spec.are_ends places lo.now hi.now }
{
    is_number(lo, places) && is_number(hi, places)
}

/// An optional minus sign, digits, a dot, and just so many digits.
fn is_number(text: &str, places: usize) -> bool
    ensures { result ≡ spec.is_number places text.now }
{
    is_unsigned(text.strip_prefix('-').unwrap_or(text), places)
}

/// Digits, a dot, and just so many digits.
fn is_unsigned(text: &str, places: usize) -> bool
    ensures { result ≡ spec.is_unsigned places text.now }
{
    match text.split_once('.') {
        Some((whole, part)) => is_digits(whole) && is_digits(part) && part.len() == places,
        None => false,
    }
}

/// One digit or more, and nothing else.
fn is_digits(text: &str) -> bool
    ensures { result ≡ is_digits text.now }
{
    !text.is_empty() && are_digits(text.as_bytes())
}

fn are_digits(bytes: &[u8]) -> bool
    ensures { result ≡ list_all is_digit bytes.now }
{
    bytes.iter().all(|byte| is_digit(*byte))
}

fn is_digit(byte: u8) -> bool
    ensures { result ≡ is_digit byte }
{
    byte.is_ascii_digit()
}

fn read_which(text: &str) -> Option<Which>
    ensures { result ≡ spec.which_of_word text.now }
{
    match text {
        "near" => Some(Which::Near),
        "next" => Some(Which::Next),
        "both" => Some(Which::Both),
        _ => None,
    }
}

fn read_reason(text: &str) -> Option<Reason>
    ensures { result ≡ spec.reason_of_word text.now }
{
    match text {
        "no-term" => Some(Reason::NoTerm),
        "no-rate" => Some(Reason::NoRate),
        "no-pair" => Some(Reason::NoPair),
        "no-strike-below" => Some(Reason::NoStrikeBelow),
        "no-strike-above" => Some(Reason::NoStrikeAbove),
        "no-money" => Some(Reason::NoMoney),
        "no-put" => Some(Reason::NoPut),
        "no-call" => Some(Reason::NoCall),
        "strip-too-large" => Some(Reason::StripTooLarge),
        "negative-variance" => Some(Reason::NegativeVariance),
        _ => None,
    }
}
