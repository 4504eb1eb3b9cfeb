//! A term's variance, or why there is none.

ghost use Rattle.std.specs.Prelude.{◌≡◌, ◌*◌, ◌≤◌, ◌⊎◌, ℕ, pos, ◌*ℤ◌, IfOk};
ghost use Rattle.vx_num.specs.Fraction.{Fraction};
ghost use Rattle.vx_bracket.specs.Bracket.{Bracket, IsWithinOne};
ghost use Rattle.vx_clock.specs.declared.limits.TheConstants.{MINUTES_MAX};
ghost use Rattle.vx_symbol.specs.Rows.{IsLawfulTerm, IsRateInRange};
ghost use Rattle.vx_interval.specs.Ends.{IsScale, exact_ends};
ghost use Rattle.vx_interval.specs.Membership.{IsMember};
ghost use Rattle.vx_formula.specs.declared.limits.TheConstants.{RATE_UNITS, YEAR_MINUTES};
ghost use Rattle.vx_formula.specs.Pair.{Pair, IsClosestPair};
ghost use Rattle.vx_formula.specs.Term.{Term, IsTermOf, exponent};
ghost use Rattle.vx_term.specs.Answer.{IsAnswerOfRows, IsTermAnswer, OnRun, facts_at, facts_of_view};
ghost use Rattle.vx_term.specs.Exponential.{IsExpRun};
ghost use Rattle.vx_term.specs.Holds.{AnswerHolds};
ghost use Rattle.vx_term.specs.Meaning.{TermAnswerMeans, exponential_depth};
ghost use Rattle.vx_term.specs.Ranges.{AreMinutesInRange};
ghost use Rattle.vx_term.specs.Steps.{IsExponentialInRange, IsRunInRange, refusal_of_strip, refusal_of_sum};
ghost use Rattle.vx_term.specs.Tight.{HasOneForward, IsForwardDecided, IsExactRun, IsExponentialTight, IsTightAnswer};

use crate::answer::{TermAnswer, TermRefusal};
use crate::level::tell_level;
use crate::run::{Given, run_of};
use std::alloc::Global;
use vx_bounds::{ExpRun, exp_signed};
use vx_formula::limits::{RATE_UNITS, YEAR_MINUTES};
use vx_num::NoMemory;
use vx_strip::{StripRefusal, select};
use vx_sum::{SumRefusal, sum_strip};
use vx_symbol::TermView;

/// A term's variance, or the first reason why it has none: in this order no rate stands, there is no
/// closest pair, a listed strike lies between the forward's printed ends or there is no level among the
/// strikes, there is no strip at the level, or its sum is too large.
///
/// The variance is `2*e*S - (F/K0 - 1)^2`, after the Cboe VIX white paper, in intervals that enclose
/// it; the order of the reasons is this project's own. The term is lawful, the minutes are from 1 to
/// 262,800, and the scale from 40 to 62. `NoMemory` may come in place of any answer.
///
/// A run's variance is at most 37,000 units wide, and from scale 60 on the ends of an undecided forward
/// are at most three units of `10^-12` point apart. At rate 0, and where the pair's two prices are equal,
/// the forward is never undecided.
pub fn term_variance<const P: u32>(
    alloc: Global,
    term: &TermView,
    minutes: u32,
) -> Result<TermAnswer<P>, NoMemory>
    requires scale { IsScale P }
    requires lawful { IsLawfulTerm term.now }
    requires minutes { AreMinutesInRange minutes }
    ensures answer { IfOk result (IsTermAnswer P term.now.expiry (facts_of_view term.now minutes)) }
    ensures means { IfOk result (TermAnswerMeans P exponential_depth (facts_of_view term.now minutes)) }
    ensures tight { IfOk result (IsTightAnswer P) }
    ensures decided { (t : Term) → IsTermOf (facts_of_view term.now minutes) t → HasOneForward t
        → IfOk result (IsForwardDecided P) }
    ensures exact { IfOk result (OnRun P (IsExactRun P)) }
    ensures in_range { IfOk result (OnRun P (IsRunInRange P)) }
{
    match term.rate {
        None => Ok(TermAnswer::Refused(TermRefusal::NoRate)),
        Some(rate) => answer_of(alloc, term, given_at(rate, minutes)),
    }
}

/// The same with a rate and an exponential that are given: all that [`term_variance`] does after these,
/// in the same order, so it never answers that no rate stands.
///
/// The exponential is from 0 to 5/4. The answer holds of every value in its interval, and so over every
/// bracket that the interval encloses.
pub fn variance_with<const P: u32>(
    alloc: Global,
    term: &TermView,
    minutes: u32,
    rate: i32,
    exp: ExpRun<P>,
) -> Result<TermAnswer<P>, NoMemory>
    requires lawful { IsLawfulTerm term.now }
    requires minutes { AreMinutesInRange minutes }
    requires exponential { IsExponentialInRange P exp.value }
    ensures answer { IfOk result
        (IsAnswerOfRows P term.now.expiry minutes rate exp.entry term.now.rows.now) }
    ensures holds { IfOk result (AnswerHolds P term.now.rows.now (IsMember P exp.entry.value)) }
    ensures means { (depth : ℕ) → IsWithinOne (exponent rate minutes)
        → ((e : Fraction) → Bracket depth (exponent rate minutes) e → IsMember P exp.entry.value e)
        → IfOk result (TermAnswerMeans P depth (facts_at term.now minutes rate)) }
    ensures tight { IsExponentialTight P exp.entry.value → IfOk result (IsTightAnswer P) }
    ensures decided { (pair : Pair) → IsClosestPair term.now.rows.now pair
        → (pair.d ≡ pos 0) ⊎ (exp.entry.value ≡ exact_ends P (pos 1)) → IfOk result (IsForwardDecided P) }
    ensures in_range { IfOk result (OnRun P (IsRunInRange P)) }
{
    answer_of(alloc, term, Given { minutes, rate, exp })
}

/// The answer for a term where a rate and its exponential are given.
fn answer_of<const P: u32>(
    alloc: Global,
    term: &TermView,
    given: Given<P>,
) -> Result<TermAnswer<P>, NoMemory>
    requires lawful { IsLawfulTerm term.now }
    requires exponential { IsExponentialInRange P given.exp.value }
    ensures answer { IfOk result
        (IsAnswerOfRows P term.now.expiry given.entry.minutes given.entry.rate given.entry.exp term.now.rows.now) }
    ensures in_range { IfOk result (OnRun P (IsRunInRange P)) }
{
    let level = match tell_level(term, &given.exp.value) {
        Ok(level) => level,
        Err(answer) => return Ok(answer),
    };
    let strip = match select(alloc, term, level.place) {
        Ok(strip) => strip,
        Err(refusal) => return Ok(TermAnswer::Refused(refusal_of_strip(refusal)?)),
    };
    match sum_strip::<P>(alloc, &strip) {
        Ok(sum) => Ok(TermAnswer::Run(run_of(term, given, level, strip, sum))),
        Err(refusal) => Ok(TermAnswer::Refused(refusal_of_sum(refusal)?)),
    }
}

/// A term's refusal where its strip is refused.
pub fn refusal_of_strip(refusal: StripRefusal) -> Result<TermRefusal, NoMemory>
    ensures { result ≡ refusal_of_strip refusal }
{
    match refusal {
        StripRefusal::NoMemory => Err(NoMemory),
        StripRefusal::NoMoney => Ok(TermRefusal::NoMoney),
        StripRefusal::NoPut => Ok(TermRefusal::NoPut),
        StripRefusal::NoCall => Ok(TermRefusal::NoCall),
    }
}

/// A term's refusal where the sum of its strip is refused.
pub fn refusal_of_sum(refusal: SumRefusal) -> Result<TermRefusal, NoMemory>
    ensures { result ≡ refusal_of_sum refusal }
{
    match refusal {
        SumRefusal::NoMemory => Err(NoMemory),
        SumRefusal::StripTooLarge { upper } => Ok(TermRefusal::StripTooLarge { upper }),
    }
}

/// What is given of a term at a rate: the minutes, the rate and its exponential.
pub fn given_at<const P: u32>(rate: i32, minutes: u32) -> Given<P>
    requires scale { IsScale P }
    requires rate { IsRateInRange rate }
    requires minutes { minutes ≤ MINUTES_MAX }
    ensures minutes { result.minutes ≡ minutes }
    ensures rate { result.rate ≡ rate }
    ensures run { IsExpRun P (exponent rate minutes) result.exp }
    ensures in_range { IsExponentialInRange P result.exp.value }
{
    let exp = exp_signed::<P>(exponent_top(rate, minutes), exponent_bottom());
    Given { minutes, rate, exp }
}

/// A rate times minutes, in units of `10^-8` a year times a minute.
fn exponent_top(rate: i32, minutes: u32) -> i64
    requires rate { IsRateInRange rate }
    requires minutes { minutes ≤ MINUTES_MAX }
    ensures { result ≡ rate *ℤ pos minutes }
{
    i64::from(rate) * i64::from(minutes)
}

/// A year in these units.
fn exponent_bottom() -> u64
    ensures { result ≡ YEAR_MINUTES * RATE_UNITS }
{
    u64::from(YEAR_MINUTES) * u64::from(RATE_UNITS)
}
