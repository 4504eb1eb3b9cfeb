//! Days, minutes and terms of the calendar, and what is no day.

ghost use Rattle.std.specs.Prelude.{◌≡◌};

use super::*;

const SPX_OCT_17: Expiry = Expiry {
    root: Root::Spx,
    date: DayNo(16_360),
};

const SPXW_OCT_24: Expiry = Expiry {
    root: Root::Spxw,
    date: DayNo(16_367),
};

const SPXW_OCT_31: Expiry = Expiry {
    root: Root::Spxw,
    date: DayNo(16_374),
};

fn moment(day: i32, minute: u16) -> Moment
    ensures { result ≡ record { day = record { 0 = day }; minute = minute } }
{
    Moment {
        day: DayNo(day),
        minute,
    }
}

// The day numbers are those of Python's `datetime`: `(date(y, m, d) - date(1970, 1, 1)).days`.
#[test]
fn days_have_their_numbers(rt: HostRuntime) {
    for (year, month, day, text, number) in [
        (2000, 1, 1, "2000-01-01", 10_957),
        (2000, 2, 29, "2000-02-29", 11_016),
        (2000, 3, 1, "2000-03-01", 11_017),
        (2001, 2, 28, "2001-02-28", 11_381),
        (2014, 9, 22, "2014-09-22", 16_335),
        (2014, 10, 31, "2014-10-31", 16_374),
        (2096, 2, 29, "2096-02-29", 46_080),
        (2096, 12, 31, "2096-12-31", 46_386),
        (2099, 4, 30, "2099-04-30", 47_236),
        (2099, 12, 31, "2099-12-31", 47_481),
    ] {
        assert_eq!(rt; day_of(year, month, day), Ok(DayNo(number)), "{text}");
        let read = read_day(text.as_bytes());
        assert_eq!(rt; read, Ok(DayNo(number)), "{text}");
        if let Ok(day_number) = read {
            assert_eq!(rt; date_of(day_number), (year, month, day), "{text}");
            assert_eq!(rt; write_day(day_number).as_slice(), text.as_bytes(), "{text}");
        }
    }
}

#[test]
fn other_days_are_refused(rt: HostRuntime) {
    for (text, fault) in [
        ("2100-02-29", DayFault::Year),
        ("1999-12-31", DayFault::Year),
        ("2001-02-29", DayFault::NoSuchDay),
        ("2014-13-01", DayFault::NoSuchDay),
        ("2014-00-10", DayFault::NoSuchDay),
        ("2014-09-31", DayFault::NoSuchDay),
        ("2014-09-00", DayFault::NoSuchDay),
        ("1999-13-99", DayFault::Year),
        ("2014-9-22", DayFault::Form),
        ("2014-09-222", DayFault::Form),
        ("2014/09/22", DayFault::Form),
        ("2014-09-2x", DayFault::Form),
        ("+014-09-22", DayFault::Form),
        ("", DayFault::Form),
    ] {
        assert_eq!(rt; read_day(text.as_bytes()), Err(fault), "{text}");
    }
    assert_eq!(rt; day_of(4_294_967_295, 1, 1), Err(DayFault::Year));
    assert_eq!(rt; day_of(2014, 257, 1), Err(DayFault::NoSuchDay));
    assert_eq!(rt; day_of(2014, 1, 257), Err(DayFault::NoSuchDay));
}

#[test]
fn minutes_have_three_parts(rt: HostRuntime) {
    let now = moment(16_335, 9 * 60 + 46);
    assert_eq!(rt; minutes_to(now, SPX_OCT_17), 35_924);
    assert_eq!(rt; minutes_to(now, SPXW_OCT_24), 46_394);
}

#[test]
fn terms_straddle_thirty_days(rt: HostRuntime) {
    let expiries = [SPX_OCT_17, SPXW_OCT_24, SPXW_OCT_31];
    for (day, places) in [(16_336, Ok((0, 1))), (16_337, Ok((1, 2)))] {
        let picked = pick_terms(moment(day, 510), 30, 7, &expiries);
        assert_eq!(rt; picked, places, "on day {day}");
    }
    let none: [Expiry; 0] = [];
    let now = moment(16_336, 510);
    assert_eq!(rt; pick_terms(now, 30, 7, &none), Err(NoTerm::Near));
    assert_eq!(rt; pick_terms(now, 30, 7, &expiries[..1]), Err(NoTerm::Next));
    assert_eq!(rt; pick_terms(now, 30, 7, &expiries[1..]), Err(NoTerm::Near));
}

#[test]
fn the_standard_root_comes_first(rt: HostRuntime) {
    let spx_oct_24 = Expiry {
        root: Root::Spx,
        date: DayNo(16_367),
    };
    let spxw_oct_17 = Expiry {
        root: Root::Spxw,
        date: DayNo(16_360),
    };
    let expiries = [SPXW_OCT_24, spxw_oct_17, spx_oct_24, SPX_OCT_17];
    let picked = pick_terms(moment(16_336, 510), 30, 7, &expiries);
    assert_eq!(rt; picked, Ok((3, 2)));
}
