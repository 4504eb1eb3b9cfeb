//! Days of the calendar: their numbers, and their texts read and written.

ghost use Rattle.std.specs.Prelude.{◌≡◌, ◌≤◌, IfOk};
ghost use Rattle.jiff_core.specs.Date.{epoch_day};
ghost use Rattle.vx_clock.specs.Day.{IsDayInRange, day_of_date, day_of_text};
ghost use Rattle.vx_clock.specs.DayText.{day_text};

use crate::digits::{self, digit};
use crate::limits::{YEAR_MAX, YEAR_MIN};
use jiff::civil::Date;
use jiff_core::civil;
use thiserror::Error;

/// A day of the calendar: the number of days from 1970-01-01 to it, so that 1970-01-01 itself is 0.
#[derive(Clone, Copy, Debug, PartialEq, Eq, Hash)]
pub struct DayNo(pub i32);

/// Why there is no such day.
#[derive(Clone, Copy, Debug, PartialEq, Eq, Error)]
pub enum DayFault {
    /// The text has not the form `yyyy-mm-dd`.
    #[error("not of the form yyyy-mm-dd")]
    Form,
    /// The year is not one of 2000 to 2099.
    #[error("the year is not one of 2000 to 2099")]
    Year,
    /// The calendar has no such month, or no such day in that month.
    #[error("no such day")]
    NoSuchDay,
}

/// The day of a year, a month from 1 and a day of the month from 1.
///
/// The calendar is `jiff`'s: how long each month is, and that the days of all months, one after
/// another, are counted from 1970-01-01, is what `jiff` promises. Answers `Year` for a year that is
/// not one of 2000 to 2099, else `NoSuchDay` for a day that the calendar has not, and never `Form`.
pub fn day_of(year: u32, month: u32, day: u32) -> Result<DayNo, DayFault>
    ensures value { result ≡ day_of_date year month day }
    ensures in_range { IfOk result IsDayInRange }
{
    if year < YEAR_MIN || year > YEAR_MAX {
        return Err(DayFault::Year);
    }
    if month > 12 || day > 31 {
        return Err(DayFault::NoSuchDay);
    }
    match Date::new(year as i16, month as i8, day as i8) {
        Ok(date) => Ok(DayNo(date.to_plain().to_unix_epoch_day())),
        Err(_) => Err(DayFault::NoSuchDay),
    }
}

/// The day that a text of the form `yyyy-mm-dd` names.
///
/// Answers `Form` for any text but ten bytes that are digits with `-` at the fifth and the eighth
/// place, and then as [`day_of`].
pub fn read_day(text: &[u8]) -> Result<DayNo, DayFault>
    ensures value { result ≡ day_of_text text.now }
    ensures in_range { IfOk result IsDayInRange }
{
    if text.len() != 10 || text[4] != b'-' || text[7] != b'-' {
        return Err(DayFault::Form);
    }
    let Some(year) = digits::number(&text[..4]) else {
        return Err(DayFault::Form);
    };
    let Some(month) = digits::number(&text[5..7]) else {
        return Err(DayFault::Form);
    };
    let Some(day) = digits::number(&text[8..10]) else {
        return Err(DayFault::Form);
    };
    day_of(year, month, day)
}

/// The year, the month and the day of the month of a day of the years 2000 to 2099, as [`day_of`]
/// takes them.
pub fn date_of(day: DayNo) -> (u32, u32, u32)
    requires { IsDayInRange day }
    ensures value { day_of_date result.0 result.1 result.2 ≡ Ok day }
    ensures year { (YEAR_MIN ≤ result.0) × (result.0 ≤ YEAR_MAX) }
    ensures month { result.1 ≤ 12 }
    ensures day { result.2 ≤ 31 }
{
    let date = calendar_date(day);
    (date.year as u32, u32::from(date.month), u32::from(date.day))
}

fn calendar_date(day: DayNo) -> civil::Date
    requires { IsDayInRange day }
    ensures { epoch_day result ≡ day.0 }
{
    civil::Date::from_unix_epoch_day(i64::from(day.0)).unwrap()
}

/// The text `yyyy-mm-dd` of a day of the years 2000 to 2099. [`read_day`] reads it back.
pub fn write_day(day: DayNo) -> [u8; 10]
    requires { IsDayInRange day }
    ensures text { result ≡ day_text day }
    ensures read_back { day_of_text result ≡ Ok day }
{
    let (year, month, day) = date_of(day);
    [
        digit(year, 1000),
        digit(year, 100),
        digit(year, 10),
        digit(year, 1),
        b'-',
        digit(month, 10),
        digit(month, 1),
        b'-',
        digit(day, 10),
        digit(day, 1),
    ]
}
