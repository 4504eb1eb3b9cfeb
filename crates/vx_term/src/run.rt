//! The steps from a told level, its strip and its sum to a term's variance.

ghost use Rattle.std.specs.Prelude.{◌≡◌, ◌*◌, ◌<◌, ◌≤◌, length, ℤ, pos, neg_ℤ, ◌*ℤ◌, ◌≤ℤ◌};
ghost use Rattle.vx_num.specs.Fraction.{Fraction, whole, ◌-ᶠ◌, ◌*ᶠ◌, ◌/ᶠ◌};
ghost use Rattle.vx_symbol.specs.Rows.{IsLawfulTerm};
ghost use Rattle.vx_symbol.specs.Symbol.{IsStrikeInRange};
ghost use Rattle.vx_interval.specs.Ends.{IsInterval, unit};
ghost use Rattle.vx_interval.specs.Membership.{IsMember};
ghost use Rattle.vx_strip.specs.Entries.{IsStripInRange, IsStripOf, entries_of, strike_at};
ghost use Rattle.vx_strip.specs.Refusals.{HasNoStripRefusal};
ghost use Rattle.vx_sum.specs.Sums.{IsSumOf};
ghost use Rattle.vx_term.specs.Answer.{IsRunFrom};
ghost use Rattle.vx_term.specs.Steps.{IsExponentialInRange, IsRunInRange, IsTold, IsUpTo};
ghost use Rattle.vx_term.specs.Variance.{excess_ends, variance_ends};

use crate::answer::TermRun;
use crate::level::ToldLevel;
use vx_bounds::ExpRun;
use vx_interval::Iv;
use vx_strip::Strip;
use vx_sum::StripSum;
use vx_symbol::{StrikeRow, TermView};

/// What is given of a term beside its rows: the minutes, the rate, and the exponential at them.
#[derive(Clone, Copy)]
pub struct Given<const P: u32> {
    pub minutes: u32,
    pub rate: i32,
    pub exp: ExpRun<P>,
}

/// How far a forward lies above its level, over the level: `F/K0 - 1`. It is from 0 to 1, since the
/// level is at most the forward and the forward at most twice the level.
fn excess_of<const P: u32>(f: &Iv<P>, k0: u32) -> Iv<P>
    requires interval { IsInterval P f.now }
    requires level { IsStrikeInRange k0 }
    requires at_least { (pos k0 *ℤ unit P) ≤ℤ f.now.lo }
    requires at_most_twice { f.now.hi ≤ℤ (pos (2 * k0) *ℤ unit P) }
    ensures ends { result ≡ excess_ends P k0 f.now }
    ensures encloses { (forward : Fraction) → IsMember P f.now forward
        → IsMember P result ((forward -ᶠ whole (pos k0)) /ᶠ k0) }
    ensures in_range { IsUpTo (unit P) result }
    ensures interval { IsInterval P result }
{
    let level = Iv::<P>::exact(i64::from(k0));
    f.sub(&level).over(i128::from(k0))
}

/// The variance times the term's time: `2*e*S - (F/K0 - 1)^2`. It is from -1 to 5.
fn variance_of<const P: u32>(e: &Iv<P>, total: &Iv<P>, excess: &Iv<P>) -> Iv<P>
    requires exponential { IsExponentialInRange P e.now }
    requires total { IsUpTo (pos 2 *ℤ unit P) total.now }
    requires total_interval { IsInterval P total.now }
    requires excess { IsUpTo (unit P) excess.now }
    requires excess_interval { IsInterval P excess.now }
    ensures ends { result ≡ variance_ends P e.now total.now excess.now }
    ensures encloses { (x s g : Fraction) → IsMember P e.now x → IsMember P total.now s → IsMember P excess.now g
        → IsMember P result (whole (pos 2) *ᶠ (x *ᶠ s) -ᶠ g *ᶠ g) }
    ensures low { neg_ℤ (unit P) ≤ℤ result.lo }
    ensures high { result.hi ≤ℤ (pos 5 *ℤ unit P) }
    ensures interval { IsInterval P result }
{
    let product = e.mul(total);
    let twice = product.scale(2);
    let square = excess.square();
    twice.sub(&square)
}

/// The run of a term at a told level, with its strip and the sum of it.
pub fn run_of<const P: u32>(
    term: &TermView,
    given: Given<P>,
    level: ToldLevel<P>,
    strip: Strip,
    sum: StripSum<P>,
) -> TermRun<P>
    requires lawful { IsLawfulTerm term.now }
    requires exponential { IsExponentialInRange P given.exp.value }
    requires told { IsTold P term.now.rows.now given.exp.value level }
    requires none_refuses { HasNoStripRefusal term.now.rows.now (strike_at term.now.rows.now level.place) }
    requires strip { IsStripOf term.now.rows.now (strike_at term.now.rows.now level.place) strip }
    requires in_range { IsStripInRange strip }
    requires sum { IsSumOf P (entries_of strip) sum }
    ensures run { let g = given.entry in
        IsRunFrom P term.now.expiry g.minutes g.rate g.exp term.now.rows.now result }
    ensures strip { result.strip ≡ strip }
    ensures sum { result.sum ≡ sum.entry }
    ensures in_range { IsRunInRange P result }
{
    let k0 = strike_at(term.rows, level.place);
    let g = excess_of(&level.f, k0);
    let w = variance_of(&given.exp.value, &sum.total, &g);
    TermRun {
        expiry: term.expiry,
        minutes: given.minutes,
        rate: given.rate,
        exp: given.exp,
        pair: level.pair,
        f: level.f,
        k0,
        g,
        strip,
        sum,
        w,
    }
}

/// The strike of the row at a place.
fn strike_at(rows: &[StrikeRow], place: usize) -> u32
    requires { place < length rows.now }
    ensures { result ≡ strike_at rows.now place }
{
    rows[place].strike
}
