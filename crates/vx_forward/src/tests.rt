//! Worked examples, computed by hand: prices in half cents, strikes in thousandths of a point.

ghost use Rattle.std.specs.Prelude.{◌<◌, ◌≤◌};
ghost use Rattle.vx_symbol.specs.declared.limits.TheConstants.{HALF_MAX, STRIKE_MAX, STRIKE_MIN};
ghost use Rattle.vx_symbol.specs.Rows.{AreLawfulRows, IsLawfulPrice, IsLawfulRow, IsLawfulTerm};

use crate::{K0Answer, Pair, closest, find_k0, forward, forward_ends};
use vx_clock::{DayNo, Expiry, Root};
use vx_interval::Iv;
use vx_symbol::{Price, StrikeRow, TermView};

fn price(half: u32) -> Price
    requires { half ≤ HALF_MAX }
    ensures { IsLawfulPrice result }
{
    Price {
        there: true,
        live: true,
        half,
    }
}

// Three rows in rising order. The two prices of the first two lie 5 points apart, of the third 10.
fn three_rows(low: u32, middle: u32, high: u32) -> [StrikeRow; 3]
    requires { (STRIKE_MIN ≤ low) × (low < middle) × (middle < high) × (high ≤ STRIKE_MAX) }
    ensures { AreLawfulRows result }
{
    let (thirty, less) = (price(6_000), price(5_000));
    [
        StrikeRow {
            strike: low,
            put: less,
            call: thirty,
        },
        StrikeRow {
            strike: middle,
            put: thirty,
            call: less,
        },
        StrikeRow {
            strike: high,
            put: price(7_000),
            call: less,
        },
    ]
}

fn term(rows: &[StrikeRow]) -> TermView<'_>
    requires { AreLawfulRows rows.now }
    ensures { IsLawfulTerm result }
{
    TermView {
        expiry: Expiry {
            root: Root::Spx,
            date: DayNo(16_360),
        },
        rate: Some(0),
        rows,
    }
}

// The forward 1960 at the scale of the tests.
const LEVEL: i128 = 1_960_000 << 60;

#[test]
#[tactic(auto, unfolding(vx_interval::specs::Ends::unit))]
fn level_is_told_by_ends(rt: HostRuntime) {
    let rows = three_rows(1_950_000, 1_960_000, 1_970_000);
    let near = term(&rows);
    let pair = Pair {
        strike: 1_950_000,
        d: 1_000,
    };
    assert_eq!(rt; closest(&near), Some(pair));
    let at_rate_zero = forward(&pair, &Iv::<60>::exact(1));
    assert_eq!(rt;
        forward_ends(&at_rate_zero),
        (1_955_000_000_000_000, 1_955_000_000_000_000)
    );
    assert_eq!(rt; find_k0(&near, &at_rate_zero), K0Answer::At(0));
    let around = Iv::<60>::new(LEVEL - 1, LEVEL + 1);
    assert_eq!(rt;
        find_k0(&near, &around),
        K0Answer::Straddle {
            strike: 1_960_000,
            lo: 1_959_999_999_999_999,
            hi: 1_960_000_000_000_001
        }
    );
    let thousand = Iv::<60>::exact(1_000_000);
    let twice = three_rows(1_000_000, 2_000_000, 3_000_000);
    assert_eq!(rt; find_k0(&term(&twice), &thousand), K0Answer::At(0));
    let past_twice = three_rows(1_000_000, 2_000_001, 3_000_000);
    assert_eq!(rt;
        find_k0(&term(&past_twice), &thousand),
        K0Answer::NoStrikeAbove(0)
    );
    let above = three_rows(1_000_001, 2_000_001, 3_000_000);
    assert_eq!(rt; find_k0(&term(&above), &thousand), K0Answer::NoStrikeBelow);
}
