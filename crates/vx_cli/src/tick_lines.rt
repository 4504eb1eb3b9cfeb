//! The lines that `replay` writes for its ticks.

ghost use Rattle.std.specs.Prelude.{◌≡◌, ◌++◌, [], ◌∷◌, codes, OnOk};
ghost use Rattle.vx_clock.specs.Clock.{clock_text};
ghost use Rattle.vx_feed.specs.Written.{count_text};
ghost use Rattle.vx_cli.specs.OutputLines.{comma_separated, forward_end_text, index_end_text, line_of, strike_text};
ghost use Rattle.vx_replay.specs.Joinable.{CanBeWritten};
ghost use Rattle.vx_cli.specs.ReadBack.{CertificateIsRead};
ghost use Rattle.vx_cli.specs.ReplayRuns.{tally_of_answer};
ghost use Rattle.vx_cli.specs.ReplayText.{certified_text, reason_word, refusal_word, tick_text, which_word};

use crate::words::push_clock;
use std::alloc::Global;
use vx_cert::write_cert;
use vx_drivers::Tally;
use vx_drivers::text::{push_number, push_text};
use vx_num::{NoMemory, write_decimal, write_signed};
use vx_replay::{Reason, TickAnswer, Which};
use vx_term::TermRefusal;

/// The word of a term of the index.
fn which_word(which: Which) -> &'static str
    ensures { result.now ≡ which_word which }
{
    match which {
        Which::Near => "near",
        Which::Next => "next",
        Which::Both => "both",
    }
}

/// The word for why a term has no variance.
pub(crate) fn refusal_word(refusal: TermRefusal) -> &'static str
    ensures { result.now ≡ refusal_word refusal }
{
    match refusal {
        TermRefusal::NoRate => "no-rate",
        TermRefusal::NoPair => "no-pair",
        TermRefusal::NoStrikeBelow => "no-strike-below",
        TermRefusal::NoStrikeAbove => "no-strike-above",
        TermRefusal::NoMoney => "no-money",
        TermRefusal::NoPut => "no-put",
        TermRefusal::NoCall => "no-call",
        TermRefusal::StripTooLarge { .. } => "strip-too-large",
    }
}

/// The word for why a tick has no figure.
fn reason_word(reason: Reason) -> &'static str
    ensures { result.now ≡ reason_word reason }
{
    match reason {
        Reason::NoTerm => "no-term",
        Reason::Term(refusal) => refusal_word(refusal),
        Reason::NegativeVariance => "negative-variance",
    }
}

/// Appends an end of an index, in millionths of a point, behind a comma.
pub(crate) fn push_index_end(alloc: Global, line: &mut Vec<u8>, end: i64) -> Result<(), NoMemory>
    ensures { OnOk result (line.new.items ≡ line.old.items ++ 44 ∷ index_end_text end) }
{
    push_text(line, ",")?;
    write_signed(alloc, line, i128::from(end), 6)
}

/// Appends an end of a forward, in units of `10^-12` point, behind a comma.
pub(crate) fn push_forward_end(alloc: Global, line: &mut Vec<u8>, end: i128) -> Result<(), NoMemory>
    ensures { OnOk result (line.new.items ≡ line.old.items ++ 44 ∷ forward_end_text end) }
{
    push_text(line, ",")?;
    write_signed(alloc, line, end, 12)
}

/// Appends the word of a tick's line, the tick's time and the days ahead.
fn push_start(
    alloc: Global,
    line: &mut Vec<u8>,
    word: &str,
    days: u32,
    time: u16,
) -> Result<(), NoMemory>
    ensures { OnOk result (line.new.items ≡ line.old.items
        ++ comma_separated (word.now ∷ clock_text time ∷ count_text days ∷ [])) }
{
    push_text(line, word)?;
    push_text(line, ",")?;
    push_clock(line, time)?;
    push_text(line, ",")?;
    push_number(alloc, line, u64::from(days))
}

/// Appends the two ends of an index and the end of the line.
pub(crate) fn push_index_ends(
    alloc: Global,
    line: &mut Vec<u8>,
    lo: i64,
    hi: i64,
) -> Result<(), NoMemory>
    ensures { OnOk result (line.new.items ≡ line.old.items
        ++ 44 ∷ line_of (index_end_text lo ∷ index_end_text hi ∷ [])) }
{
    push_index_end(alloc, line, lo)?;
    push_index_end(alloc, line, hi)?;
    push_text(line, "\n")
}

/// Appends a strike in thousandths of a point, the two ends of a forward around it, and the end of the
/// line.
pub(crate) fn push_straddled(
    alloc: Global,
    line: &mut Vec<u8>,
    strike: u32,
    lo: i128,
    hi: i128,
) -> Result<(), NoMemory>
    ensures { OnOk result (line.new.items ≡ line.old.items
        ++ line_of (strike_text strike ∷ forward_end_text lo ∷ forward_end_text hi ∷ [])) }
{
    write_decimal(alloc, line, u128::from(strike), 3)?;
    push_forward_end(alloc, line, lo)?;
    push_forward_end(alloc, line, hi)?;
    push_text(line, "\n")
}

/// Appends that the forward of a term is undecided.
fn push_forward_of(line: &mut Vec<u8>, which: Which) -> Result<(), NoMemory>
    ensures { OnOk result (line.new.items ≡ line.old.items
        ++ 44 ∷ comma_separated (codes "forward" ∷ which_word which ∷ []) ++ 44 ∷ []) }
{
    push_text(line, ",forward,")?;
    push_text(line, which_word(which))?;
    push_text(line, ",")
}

/// Appends the line of an answer to a tick, for so many days ahead.
pub(crate) fn push_tick(
    alloc: Global,
    line: &mut Vec<u8>,
    days: u32,
    time: u16,
    answer: &TickAnswer,
) -> Result<(), NoMemory>
    ensures { OnOk result (line.new.items ≡ line.old.items ++ tick_text days time answer.now) }
{
    match answer {
        TickAnswer::Published { cents, lo, hi, .. } => {
            push_start(alloc, line, "FIG", days, time)?;
            push_text(line, ",")?;
            write_decimal(alloc, line, u128::from(*cents), 2)?;
            push_index_ends(alloc, line, *lo, *hi)
        }
        TickAnswer::UndecidedCents { lo, hi } => {
            push_start(alloc, line, "UND", days, time)?;
            push_text(line, ",cents")?;
            push_index_ends(alloc, line, *lo, *hi)
        }
        TickAnswer::UndecidedForward {
            which,
            strike,
            lo,
            hi,
        } => {
            push_start(alloc, line, "UND", days, time)?;
            push_forward_of(line, *which)?;
            push_straddled(alloc, line, *strike, *lo, *hi)
        }
        TickAnswer::Refused { reason, which } => {
            push_start(alloc, line, "REF", days, time)?;
            push_text(line, ",")?;
            push_text(line, reason_word(*reason))?;
            push_text(line, ",")?;
            push_text(line, which_word(*which))?;
            push_text(line, "\n")
        }
    }
}

/// Appends the certificate of a published answer, whose fields are in range; nothing of another answer.
pub(crate) fn push_certificate(
    alloc: Global,
    line: &mut Vec<u8>,
    answer: &TickAnswer,
) -> Result<(), NoMemory>
    requires { ∥ CanBeWritten answer.now ∥₁ }
    ensures text { OnOk result (line.new.items ≡ line.old.items ++ certified_text answer.now) }
    ensures read_back { OnOk result (CertificateIsRead answer.now) }
{
    match answer {
        TickAnswer::Published { certificate, .. } => write_cert(alloc, certificate, line),
        TickAnswer::UndecidedCents { .. }
        | TickAnswer::UndecidedForward { .. }
        | TickAnswer::Refused { .. } => Ok(()),
    }
}

/// One answer, counted by its kind.
pub(crate) fn tally_of(answer: &TickAnswer) -> Tally
    ensures { result ≡ tally_of_answer answer.now }
{
    let (published, undecided, refused) = match answer {
        TickAnswer::Published { .. } => (1, 0, 0),
        TickAnswer::UndecidedCents { .. } | TickAnswer::UndecidedForward { .. } => (0, 1, 0),
        TickAnswer::Refused { .. } => (0, 0, 1),
    };
    Tally {
        published,
        undecided,
        refused,
    }
}
