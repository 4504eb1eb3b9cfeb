//! What follows from the definitions alone. Each law is the contract of a function that does
//! nothing.

ghost use Rattle.std.specs.Prelude.{◌≡◌, ℕ, ◌+◌, ◌≤◌, pos, ◌+ℤ◌, List};
ghost use Rattle.jiff_core.specs.Calendar.{days_in_month};
ghost use Rattle.vx_clock.specs.declared.days.DayNo.{DayNo};
ghost use Rattle.vx_clock.specs.declared.limits.TheConstants.{DAY_MIN, DAY_MAX, YEAR_MIN, YEAR_MAX};
ghost use Rattle.vx_clock.specs.declared.terms.Expiry.{Expiry};
ghost use Rattle.vx_clock.specs.Day.{day_number};
ghost use Rattle.vx_clock.specs.Minutes.{minutes_between};
ghost use Rattle.vx_clock.specs.Terms.{IsNearTerm, IsNextTerm};

use crate::terms::Root;

/// Days are counted one by one from 1970-01-01: within a month, from the last day of a month to the
/// first of the next, and from the last day of a year to the first of the next.
pub fn days_are_counted()
    ensures start { day_number 1970 1 1 ≡ pos 0 }
    ensures next_day { (year month day : ℕ) → 1 ≤ day
        → day_number year month (day + 1) ≡ day_number year month day +ℤ pos 1 }
    ensures next_month { (year month : ℕ) → 1 ≤ month
        → day_number year (month + 1) 1 ≡ day_number year month (days_in_month (pos year) month) +ℤ pos 1 }
    ensures next_year { (year : ℕ) → day_number (year + 1) 1 1 ≡ day_number year 12 31 +ℤ pos 1 }
{}

/// The range of days is that of the years from `YEAR_MIN` to `YEAR_MAX`.
pub fn days_in_range()
    ensures first { day_number YEAR_MIN 1 1 ≡ DAY_MIN }
    ensures last { day_number YEAR_MAX 12 31 ≡ DAY_MAX }
{}

/// There is at most one near term, and at most one next term.
pub fn terms_are_unique()
    ensures near { (today : DayNo) (days window : ℕ) (expiries : List Expiry) (a b : Expiry)
        → IsNearTerm today days window expiries a → IsNearTerm today days window expiries b → a ≡ b }
    ensures next { (today : DayNo) (days window : ℕ) (expiries : List Expiry) (a b : Expiry)
        → IsNextTerm today days window expiries a → IsNextTerm today days window expiries b → a ≡ b }
{}

/// On 2014-09-22 at 9:46 the standard term of 2014-10-17 settles in 854 + 510 + 34,560 minutes, and
/// the weekly term of 2014-10-24 in 854 + 900 + 44,640.
pub fn minutes_of_a_sample()
    ensures standard { minutes_between (record { day = record { 0 = pos 16335 }; minute = 586 })
        (record { root = Root.Spx; date = record { 0 = pos 16360 } }) ≡ 35924 }
    ensures weekly { minutes_between (record { day = record { 0 = pos 16335 }; minute = 586 })
        (record { root = Root.Spxw; date = record { 0 = pos 16367 } }) ≡ 46394 }
{}
