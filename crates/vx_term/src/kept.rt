//! A term's variance over a kept strip.

ghost use Rattle.std.specs.Prelude.{◌≡◌, ◌+◌, ◌^◌, ◌≤◌, IfOk};
ghost use Rattle.vx_symbol.specs.Rows.{IsLawfulTerm};
ghost use Rattle.vx_interval.specs.Ends.{IsScale};
ghost use Rattle.vx_formula.specs.Term.{Term, IsTermOf};
ghost use Rattle.vx_term.specs.Answer.{IsAnswerOfRows, IsTermAnswer, OnRun, facts_of_view};
ghost use Rattle.vx_term.specs.KeptAfter.{IsKeptAfter, IsSelectedStrip, SelectsStrip};
ghost use Rattle.vx_term.specs.Meaning.{TermAnswerMeans, exponential_depth};
ghost use Rattle.vx_term.specs.Ranges.{AreMinutesInRange};
ghost use Rattle.vx_term.specs.Steps.{IsExponentialInRange, IsRunInRange};
ghost use Rattle.vx_term.specs.Tight.{HasOneForward, IsForwardDecided, IsExactRun, IsTightAnswer};

use crate::answer::{TermAnswer, TermRefusal};
use crate::level::tell_level;
use crate::run::{Given, run_of};
use crate::variance::{given_at, refusal_of_strip, refusal_of_sum};
use std::alloc::Global;
use std::sync::ledger::Ledger;
use vx_num::{NoMemory, Steps};
use vx_strip::select;
use vx_sum::KeptStrip;
use vx_symbol::TermView;

/// What [`term_variance`](crate::term_variance) answers, with the strip kept from one call to the next:
/// of the selected strip the touched rows alone are divided, with one step for each. That is this
/// project's own.
///
/// After a run the kept strip holds the run's strip and sum, and the count rose by exactly the strip's
/// touched rows. After every other answer, and after `NoMemory`, it holds what it held before, or the
/// selected strip with its sum; the count rose by at most that strip's touched rows, and not at all
/// where none is selected.
pub fn term_variance_kept<const P: u32, L: Ledger>(
    alloc: Global,
    term: &TermView,
    minutes: u32,
    kept: &mut KeptStrip<P>,
    steps: &mut Steps<L>,
) -> Result<TermAnswer<P>, NoMemory>
    requires scale { IsScale P }
    requires lawful { IsLawfulTerm term.now }
    requires minutes { AreMinutesInRange minutes }
    requires count { steps.old ≤ 2 ^ 63 }
    ensures answer { IfOk result (IsTermAnswer P term.now.expiry (facts_of_view term.now minutes)) }
    ensures means { IfOk result (TermAnswerMeans P exponential_depth (facts_of_view term.now minutes)) }
    ensures tight { IfOk result (IsTightAnswer P) }
    ensures decided { (t : Term) → IsTermOf (facts_of_view term.now minutes) t → HasOneForward t
        → IfOk result (IsForwardDecided P) }
    ensures exact { IfOk result (OnRun P (IsExactRun P)) }
    ensures in_range { IfOk result (OnRun P (IsRunInRange P)) }
    ensures kept { let selected = IsSelectedStrip P (facts_of_view term.now minutes) in
        IsKeptAfter P selected kept.old kept.new steps.old steps.new result }
{
    match term.rate {
        None => Ok(TermAnswer::Refused(TermRefusal::NoRate)),
        Some(rate) => answer_kept(alloc, term, given_at(rate, minutes), kept, steps),
    }
}

/// The same where a rate and its exponential are given.
fn answer_kept<const P: u32, L: Ledger>(
    alloc: Global,
    term: &TermView,
    given: Given<P>,
    kept: &mut KeptStrip<P>,
    steps: &mut Steps<L>,
) -> Result<TermAnswer<P>, NoMemory>
    requires lawful { IsLawfulTerm term.now }
    requires exponential { IsExponentialInRange P given.exp.value }
    requires count { steps.old ≤ 2 ^ 63 }
    ensures answer { IfOk result
        (IsAnswerOfRows P term.now.expiry given.entry.minutes given.entry.rate given.entry.exp term.now.rows.now) }
    ensures in_range { IfOk result (OnRun P (IsRunInRange P)) }
    ensures kept { let selected = SelectsStrip P term.now.rows.now given.entry.exp.value in
        IsKeptAfter P selected kept.old kept.new steps.old steps.new result }
{
    let level = match tell_level(term, &given.exp.value) {
        Ok(level) => level,
        Err(answer) => return Ok(answer),
    };
    let strip = match select(alloc, term, level.place) {
        Ok(strip) => strip,
        Err(refusal) => return Ok(TermAnswer::Refused(refusal_of_strip(refusal)?)),
    };
    match kept.refresh(&strip, steps) {
        Ok(()) => {
            let sum = kept.sum().copied(alloc)?;
            Ok(TermAnswer::Run(run_of(term, given, level, strip, sum)))
        }
        Err(refusal) => Ok(TermAnswer::Refused(refusal_of_sum(refusal)?)),
    }
}
