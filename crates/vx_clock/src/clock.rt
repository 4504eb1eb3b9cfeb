//! The text `hh:mm` of a minute of the day.

ghost use Rattle.std.specs.Prelude.{◌≡◌, ◌≤◌, IfSome};
ghost use Rattle.vx_clock.specs.Clock.{clock_text, time_of_text};
ghost use Rattle.vx_clock.specs.declared.limits.TheConstants.{MINUTE_MAX};

use crate::digits;

/// The minute of the day, 0 to 1439, that the text `hh:mm` names, from `00:00` to `23:59`.
pub fn read_clock(text: &[u8]) -> Option<u16>
    ensures value { result ≡ time_of_text text.now }
    ensures in_range { IfSome result (λ minute. minute ≤ MINUTE_MAX) }
{
    if text.len() != 5 || text[2] != b':' {
        return None;
    }
    let hour = digits::number(&text[..2])?;
    let minute = digits::number(&text[3..5])?;
    if hour > 23 || minute > 59 {
        return None;
    }
    Some((60 * hour + minute) as u16)
}

/// The text `hh:mm` of a minute of the day, which are 0 to 1439.
pub fn write_clock(minute: u16) -> [u8; 5]
    ensures { result ≡ clock_text minute }
{
    let hours = minute / 60;
    let minutes = minute % 60;
    [
        48 + (hours / 10) as u8,
        48 + (hours % 10) as u8,
        58,
        48 + (minutes / 10) as u8,
        48 + (minutes % 10) as u8,
    ]
}
