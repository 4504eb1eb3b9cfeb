//! Roots, terms, and the minutes to a term's settlement.

ghost use Rattle.std.specs.Prelude.{◌≡◌, ◌≤◌, pos, ◌≤ℤ◌};
ghost use Rattle.vx_clock.specs.Minutes.{days_until, minutes_between};

use crate::days::DayNo;
use crate::limits::{
    AFTERNOON_SETTLEMENT, DAY_MINUTES, DAYS_AHEAD_MAX, MINUTE_MAX, MINUTES_MAX, MINUTES_MIN,
    MORNING_SETTLEMENT,
};

/// The root of a series' symbol, which says when its options settle.
#[derive(Clone, Copy, Debug, PartialEq, Eq, Hash)]
pub enum Root {
    /// `SPX`: settled in the morning, at 8:30 in Chicago.
    Spx,
    /// `SPXW`: settled in the afternoon, at 15:00 in Chicago.
    Spxw,
}

impl Root {
    ghost use Rattle.vx_clock.specs.RootText.{bare_root_text, root_of_text};
    ghost use Rattle.vx_clock.specs.Terms.{root_rank};

    /// Its name, `SPX` or `SPXW`.
    pub fn name(self) -> &'static str
        ensures { result.now ≡ bare_root_text self }
    {
        match self {
            Root::Spx => "SPX",
            Root::Spxw => "SPXW",
        }
    }

    /// The root of that name, or `None` where no root has it.
    pub fn named(name: &[u8]) -> Option<Root>
        ensures { result ≡ root_of_text name.now }
    {
        if name == b"SPX".as_slice() {
            Some(Root::Spx)
        } else if name == b"SPXW".as_slice() {
            Some(Root::Spxw)
        } else {
            None
        }
    }

    /// The order of roots on one date.
    pub(crate) fn rank(self) -> u8
        ensures { result ≡ root_rank self }
    {
        match self {
            Root::Spx => 0,
            Root::Spxw => 1,
        }
    }
}

/// A term of options: its root and the day on which it settles.
#[derive(Clone, Copy, Debug, PartialEq, Eq, Hash)]
pub struct Expiry {
    pub root: Root,
    pub date: DayNo,
}

/// A minute of a day in Chicago. Seconds are not carried.
#[derive(Clone, Copy, Debug, PartialEq, Eq)]
pub struct Moment {
    pub day: DayNo,
    /// The minute of the day, 0 to 1439.
    pub minute: u16,
}

/// Which of the two terms is missing, the near one where both are.
#[derive(Clone, Copy, Debug, PartialEq, Eq)]
pub enum NoTerm {
    Near,
    Next,
}

/// The minutes from a moment to a term's settlement.
///
/// They are the minutes left of the current day until midnight, 1,440 for each whole day between,
/// and those of the settlement day: 510 for `SPX`, 900 for `SPXW`. The three parts are those of the
/// Cboe VIX white paper. The settlement is 1 to 181 days ahead.
pub fn minutes_to(now: Moment, e: Expiry) -> u32
    requires minute { now.minute ≤ MINUTE_MAX }
    requires ahead { pos 1 ≤ℤ days_until now.day e.date }
    requires near { days_until now.day e.date ≤ℤ pos DAYS_AHEAD_MAX }
    ensures value { result ≡ minutes_between now e }
    ensures least { MINUTES_MIN ≤ result }
    ensures most { result ≤ MINUTES_MAX }
{
    let days = (e.date.0 - now.day.0) as u32;
    let settlement = match e.root {
        Root::Spx => MORNING_SETTLEMENT,
        Root::Spxw => AFTERNOON_SETTLEMENT,
    };
    (DAY_MINUTES - u32::from(now.minute)) + DAY_MINUTES * (days - 1) + settlement
}
