//! The answer to a tick, from the answers for its two terms.

ghost use Rattle.std.specs.Prelude.{◌≡◌, ◌≤◌, IfOk};
ghost use Rattle.vx_clock.specs.declared.limits.TheConstants.{MINUTE_MAX};
ghost use Rattle.vx_cert.specs.declared.limits.TheConstants.{LINE_MAX};
ghost use Rattle.vx_claims.specs.declared.limits.TheConstants.{SCALE};
ghost use Rattle.vx_term.specs.Ranges.{AreDaysInRange};
ghost use Rattle.vx_replay.specs.Figures.{IsFigureAnswer, certificate_of_runs};
ghost use Rattle.vx_replay.specs.Joinable.{AreJoinable, AreRunsJoinable, CanBeWritten, IsJoinableWithRun};
ghost use Rattle.vx_replay.specs.Joined.{IsJoined, IsJoinedWithRun};

use crate::answer::{Reason, TickAnswer, Which};
use std::alloc::Global;
use vx_bounds::Decision;
use vx_cert::limits::VERSION_MAX;
use vx_cert::{CertBody, CertFigure, Certificate};
use vx_certify::{certify_figure, certify_term, decide_index};
use vx_num::NoMemory;
use vx_term::{TermAnswer, TermRun, interpolate};

/// The tick for which an answer is asked, and how many days ahead.
#[derive(Clone, Copy)]
struct Asked {
    line: u64,
    time: u16,
    days: u32,
}

/// The answer to a tick, from the answers for its near and its next term, for so many days ahead: the
/// near term's refusal or undecided forward, or else the next term's, or else what the index of the two
/// runs says: undecided, below zero, or a figure with its certificate. The order is this project's own.
///
/// The scale is the product's, the line from 1 to 10,000,000, the time a minute of the day, and the days
/// are from 7 to 120. The certificate of a published figure is in the ranges that writing it asks.
///
/// # Errors
///
/// `NoMemory`, for a certificate.
pub fn join_terms<const P: u32>(
    alloc: Global,
    near: &TermAnswer<P>,
    next: &TermAnswer<P>,
    line: u64,
    time: u16,
    days: u32,
) -> Result<TickAnswer, NoMemory>
    requires scale { P ≡ SCALE }
    requires line { (1 ≤ line) × (line ≤ LINE_MAX) }
    requires time { time ≤ MINUTE_MAX }
    requires days { AreDaysInRange days }
    requires joinable { AreJoinable P days near.now next.now }
    ensures joined { IfOk result (IsJoined line time days near.now next.now) }
    ensures in_range { IfOk result CanBeWritten }
{
    let asked = Asked { line, time, days };
    match near {
        TermAnswer::Run(near) => join_with_run(alloc, near, next, asked),
        TermAnswer::Refused(refusal) => Ok(TickAnswer::Refused {
            reason: Reason::Term(*refusal),
            which: Which::Near,
        }),
        TermAnswer::UndecidedForward { strike, lo, hi } => Ok(TickAnswer::UndecidedForward {
            which: Which::Near,
            strike: *strike,
            lo: *lo,
            hi: *hi,
        }),
    }
}

/// The same with the near term's run.
fn join_with_run<const P: u32>(
    alloc: Global,
    near: &TermRun<P>,
    next: &TermAnswer<P>,
    asked: Asked,
) -> Result<TickAnswer, NoMemory>
    requires days { AreDaysInRange asked.days }
    requires joinable { IsJoinableWithRun P asked.days near.now next.now }
    ensures { IfOk result (IsJoinedWithRun asked.line asked.time asked.days near.now next.now) }
{
    match next {
        TermAnswer::Run(next) => join_runs(alloc, near, next, asked),
        TermAnswer::Refused(refusal) => Ok(TickAnswer::Refused {
            reason: Reason::Term(*refusal),
            which: Which::Next,
        }),
        TermAnswer::UndecidedForward { strike, lo, hi } => Ok(TickAnswer::UndecidedForward {
            which: Which::Next,
            strike: *strike,
            lo: *lo,
            hi: *hi,
        }),
    }
}

/// The same with both terms' runs: what the square of the index says of its figure.
fn join_runs<const P: u32>(
    alloc: Global,
    near: &TermRun<P>,
    next: &TermRun<P>,
    asked: Asked,
) -> Result<TickAnswer, NoMemory>
    requires days { AreDaysInRange asked.days }
    requires joinable { AreRunsJoinable P asked.days near.now next.now }
    ensures { IfOk result (IsFigureAnswer asked.line asked.time asked.days near.now next.now) }
{
    let square = interpolate(&near.w, near.minutes, &next.w, next.minutes, asked.days);
    let index = decide_index(&square);
    let (lo, hi) = (index.lo, index.hi);
    match index.decision {
        Decision::Straddle => Ok(TickAnswer::UndecidedCents { lo, hi }),
        Decision::Negative => Ok(TickAnswer::Refused {
            reason: Reason::NegativeVariance,
            which: Which::Both,
        }),
        Decision::Cents(cents) => {
            let figure = certify_figure(&square, lo, hi, cents);
            let certificate = certify_index(alloc, near, next, asked, figure)?;
            Ok(TickAnswer::Published {
                cents,
                lo,
                hi,
                certificate,
            })
        }
    }
}

/// The certificate of a figure of two runs.
fn certify_index<const P: u32>(
    alloc: Global,
    near: &TermRun<P>,
    next: &TermRun<P>,
    asked: Asked,
    figure: CertFigure,
) -> Result<Certificate, NoMemory>
    ensures { IfOk result
        (λ c. c ≡ certificate_of_runs asked.line asked.time asked.days near.now next.now figure) }
{
    let near = certify_term(alloc, near)?;
    let next = certify_term(alloc, next)?;
    Ok(Certificate {
        v: VERSION_MAX,
        line: asked.line,
        time: asked.time,
        body: CertBody::Index {
            days: asked.days,
            near,
            next,
            figure,
        },
    })
}
